// All that a judge keeps of the journal that it makes.

ghost use Rattle.std.specs.Prelude.{◌≡◌, ◌<◌, ◌^◌, ◌∷◌, [], List, true, IfOk, IfSome, OnOk, length, not};
ghost use Rattle.uc_tree.specs.Programs.{Site};
ghost use Rattle.uc_acts.specs.Fit.{IsFit};
ghost use Rattle.uc_acts.specs.Doors.{destroys_busy};
ghost use Rattle.uc_acts.specs.Queues.{is_in_use};
ghost use Rattle.uc_acts.specs.Acts.{verdict};
ghost use Rattle.uc_acts.specs.Journal.{is_ending};
ghost use Rattle.uc_judge.specs.Ledgers.{IsLedger, Adds, Settles};
ghost use Rattle.uc_judge.specs.Narrow.{IsNarrow};

use crate::accepts::Accepts;
use crate::actor::Actor;
use crate::busy::destroys_busy;
use crate::counts::Counts;
use crate::pending::Pending;
use crate::processors::Processors;
use crate::schedule::Schedule;
use crate::stacks::Stacks;
use crate::tasks::Tasks;
use std::alloc::{AllocError, Global};
use uc_entry::entry::{Entry, EntryKind, Options};
use uc_entry::fault::RunFault;
use uc_explain::Views;
use uc_tree::site::Site;

/// A journal, and all that is kept of it.
#[derive(Drop)]
pub struct Ledger {
    pub opts: Options,
    pub entries: Vec<Entry>,
    pub(crate) views: Views,
    pub(crate) schedule: Schedule,
    pub(crate) counts: Counts,
    pub(crate) tasks: Tasks,
    pub(crate) accepts: Accepts,
    pub(crate) pending: Pending,
    pub(crate) stacks: Stacks,
    pub(crate) processors: Processors,
}

impl Ledger {
    /// Of a journal without entries.
    pub fn new(alloc: Global, opts: Options) -> Result<Ledger, AllocError>
        ensures entries { IfOk result (λ s. s.entries.items ≡ []) }
        ensures opts { IfOk result (λ s. s.opts ≡ opts) }
        ensures ledger { IfOk result (λ s. (sites : List Site) → IsLedger s sites) }
    {
        let processors = Processors::new(alloc, &opts)?;
        Ok(Ledger {
            opts,
            entries: Vec::new(alloc),
            views: Views::new(alloc),
            schedule: Schedule::new(alloc),
            counts: Counts::new(&opts),
            tasks: Tasks::new(alloc, &opts),
            accepts: Accepts::new(alloc),
            pending: Pending::new(alloc),
            stacks: Stacks::new(alloc),
            processors,
        })
    }

    /// Adds the next entry. After want of memory it is spent.
    pub fn add(&mut self, sites: &[Site], e: Entry) -> Result<(), AllocError>
        requires fit { IsFit e }
        requires narrow { IsNarrow e.kind e }
        requires ledger { IsLedger self.old sites.now }
        ensures { OnOk result (Adds self.old self.new sites.now (e ∷ [])) }
    {
        self.views.add(&e)?;
        self.schedule.add(&e)?;
        self.counts.add(&e);
        self.tasks.add(&e)?;
        self.accepts.add(&e)?;
        self.pending.add(&e)?;
        self.stacks.add(sites, &e)?;
        self.processors.add(&e)?;
        self.entries.push(e)?;
        Ok(())
    }

    /// Adds the next entry of an act, or the fault in its place where it destroys what is in use. Whether the act goes on.
    #[tactic(auto, using(crate::proofs::Narrowing::narrowing))]
    pub(crate) fn put(&mut self, sites: &[Site], actor: Actor, e: Entry) -> Result<bool, AllocError>
        requires fit { IsFit e }
        requires narrow { IsNarrow e.kind e }
        requires ledger { IsLedger self.old sites.now }
        ensures settles { OnOk result (Settles self.old self.new sites.now actor (e ∷ [])) }
        ensures going { IfOk result (λ going. going
            ≡ not (destroys_busy self.old.entries.items e.kind e)) }
    {
        if destroys_busy(&self.views, &self.stacks, &e) {
            let cause = Actor {
                ticks: e.ticks,
                line: e.line,
                ..actor
            };
            self.add(
                sites,
                cause.fault(RunFault::DestroyBusy.number(), actor.line),
            )?;
            return Ok(false);
        }
        self.add(sites, e)?;
        Ok(true)
    }

    /// Whether a task that has not ended, or a processor that is not closed, is on a cluster.
    pub(crate) fn is_in_use(&self, cluster: u32) -> bool
        ensures { (sites : List Site) → IsLedger self.now sites →
            result ≡ is_in_use self.now.opts cluster self.now.entries.items }
    {
        !self.schedule.is_empty(u64::from(cluster)) || self.processors.serve(cluster)
    }

    /// How the run ends behind what stands, if it does.
    pub(crate) fn ending(&self) -> Option<EntryKind>
        requires { length self.now.entries.items < 2 ^ 32 }
        ensures verdict { (sites : List Site) → IsLedger self.now sites →
            result ≡ verdict self.now.opts self.now.entries.items }
        ensures kind { IfSome result (λ kind. is_ending kind ≡ true) }
    {
        if self.counts.first_ended {
            return Some(EntryKind::Done);
        }
        let idle = self.schedule.none_running(self.counts.processors);
        if idle && self.schedule.none_ready(self.counts.clusters) {
            return Some(EntryKind::Deadlock);
        }
        if idle && self.schedule.none_served(self.processors.open()) {
            return Some(EntryKind::NoProcessor);
        }
        if self.counts.ticks_left == 0 {
            return Some(EntryKind::Limit);
        }
        None
    }
}
