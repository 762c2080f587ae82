//! Clusters and processors are made and closed, and tasks go from one cluster to another.
ghost use Rattle.std.specs.Prelude.{◌≡◌, ◌<◌};
ghost use Rattle.uc_acts.specs.Queues.{cluster_count, processor_count};
ghost use Rattle.uc_entry.specs.declared.request.Request.TheVariants as ask;
ghost use Rattle.uc_kernel_core.specs.Mirrors.{Appended, MayAct, rows};

use crate::entries::{Actor, fault_entry, number_entry};
use crate::kernel_core::KernelCore;
use uc_entry::entry::EntryKind;
use uc_entry::fault::RunFault;

impl KernelCore {
    /// A task makes a cluster.
    pub(crate) fn cluster(&mut self, who: Actor)
        requires may { MayAct self.old who.processor who.task }
        ensures { Appended self.old self.new
            (rows self.old who.processor who.task who.ticks who.line ask.Cluster) }
    {
        match self.clusters.add_cluster() {
            None => {
                let fault = RunFault::TooManyProcessors.number();
                self.journal.push(fault_entry(who, fault));
            }
            Some(number) => self
                .journal
                .push(number_entry(EntryKind::Cluster, who, number, 0)),
        }
    }

    /// A task ends a cluster.
    pub(crate) fn cluster_end(&mut self, who: Actor, cluster: u32)
        requires may { MayAct self.old who.processor who.task }
        requires known { cluster < cluster_count self.old.journal }
        ensures { Appended self.old self.new
            (rows self.old who.processor who.task who.ticks who.line (ask.ClusterEnd cluster)) }
    {
        if self.clusters.close_cluster(cluster) {
            self.journal
                .push(number_entry(EntryKind::ClusterEnd, who, cluster, 0));
        } else {
            let fault = RunFault::DestroyBusy.number();
            self.journal.push(fault_entry(who, fault));
        }
    }

    /// A task makes a processor of a cluster.
    pub(crate) fn processor(&mut self, who: Actor, cluster: u32)
        requires may { MayAct self.old who.processor who.task }
        requires known { cluster < cluster_count self.old.journal }
        ensures { Appended self.old self.new
            (rows self.old who.processor who.task who.ticks who.line (ask.Processor cluster)) }
    {
        match self.clusters.add_processor(cluster) {
            None => {
                let fault = RunFault::TooManyProcessors.number();
                self.journal.push(fault_entry(who, fault));
            }
            Some(number) => {
                self.journal
                    .push(number_entry(EntryKind::Processor, who, number, cluster));
            }
        }
    }

    /// A task closes a processor: it takes no dispatch any more.
    pub(crate) fn processor_end(&mut self, who: Actor, processor: u32)
        requires may { MayAct self.old who.processor who.task }
        requires known { processor < processor_count self.old.opts self.old.journal }
        ensures { Appended self.old self.new
            (rows self.old who.processor who.task who.ticks who.line (ask.ProcessorEnd processor)) }
    {
        let cluster = self.clusters.cluster_of(processor);
        self.journal.push(number_entry(EntryKind::ProcessorEnd, who, processor, cluster));
        self.clusters.close_processor(processor);
    }

    /// A task goes to the back of another cluster's queue.
    pub(crate) fn migrate(&mut self, who: Actor, cluster: u32)
        requires may { MayAct self.old who.processor who.task }
        requires known { cluster < cluster_count self.old.journal }
        ensures { Appended self.old self.new
            (rows self.old who.processor who.task who.ticks who.line (ask.Migrate cluster)) }
    {
        self.journal
            .push(number_entry(EntryKind::Migrate, who, cluster, 0));
        self.clusters.free(u32::from(who.processor));
        self.clusters.migrate(who.task, cluster);
        self.clusters.ready(who.task);
    }
}
