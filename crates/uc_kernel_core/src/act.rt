//! An act: the entries of a request, and last the ending, or the limit in the place of all.
ghost use Rattle.std.specs.Prelude.{◌≡◌, ◌≤◌, false, length, OnOk, OnErr};
ghost use Rattle.uc_tree.specs.declared.limits.TheConstants.{INPUT_BYTES};
ghost use Rattle.uc_entry.specs.declared.request.Request.TheVariants as ask;
ghost use Rattle.uc_acts.specs.KernelRuns.{Fits, MayAsk};
ghost use Rattle.uc_kernel_core.specs.Mirrors.{Appended, MayAct, rows};
ghost use Rattle.uc_kernel_core.specs.CoreActs.{acts, makes_new, IsReady};

use crate::entries::Actor;
use crate::kernel_core::KernelCore;
use std::alloc::AllocError;
use uc_entry::request::Request;

impl KernelCore {
    /// The act of what a task asks: any request but those for which memory is taken, `make_object` and `spawn`.
    #[inline(always)]
    pub fn act(&mut self, who: Actor, request: &Request)
        requires ready { IsReady self.old }
        requires asks { MayAsk self.old.opts self.old.sites self.old.journal who.processor who.task
            who.ticks request.now }
        requires small { length self.old.input ≤ INPUT_BYTES }
        requires old { makes_new request.now ≡ false }
        ensures { Appended self.old self.new
            (acts self.old who.processor who.task who.ticks who.line request.now) }
    {
        let before = self.journal.len();
        self.request(who, request);
        self.finish(who, before);
    }

    /// The act of a task that makes an object. Where memory is wanting nothing changes.
    pub fn make_object(&mut self, who: Actor, class: u32) -> Result<(), AllocError>
        requires ready { IsReady self.old }
        requires asks { MayAsk self.old.opts self.old.sites self.old.journal who.processor who.task
            who.ticks (ask.Make class) }
        ensures ok { OnOk result (Appended self.old self.new
            (acts self.old who.processor who.task who.ticks who.line (ask.Make class))) }
        ensures err { OnErr result (self.new ≡ self.old) }
    {
        let before = self.journal.len();
        self.make(who, class)?;
        self.finish(who, before);
        Ok(())
    }

    /// The act of a task that makes a task for an object. Where memory is wanting nothing changes.
    pub fn spawn(&mut self, who: Actor, object: u32) -> Result<(), AllocError>
        requires ready { IsReady self.old }
        requires asks { MayAsk self.old.opts self.old.sites self.old.journal who.processor who.task
            who.ticks (ask.Spawn object) }
        ensures ok { OnOk result (Appended self.old self.new
            (acts self.old who.processor who.task who.ticks who.line (ask.Spawn object))) }
        ensures err { OnErr result (self.new ≡ self.old) }
    {
        let before = self.journal.len();
        self.add_child(who, object)?;
        self.finish(who, before);
        Ok(())
    }

    /// The entries of a request.
    #[inline(always)]
    fn request(&mut self, who: Actor, request: &Request)
        requires may { MayAct self.old who.processor who.task }
        requires fits { Fits self.old.opts self.old.sites self.old.journal who.task request.now }
        requires small { length self.old.input ≤ INPUT_BYTES }
        requires old { makes_new request.now ≡ false }
        ensures { Appended self.old self.new
            (rows self.old who.processor who.task who.ticks who.line request.now) }
    {
        match *request {
            Request::Make { .. } => {}
            Request::Spawn { .. } => {}
            Request::Made { object } => self.made(who, object),
            Request::Call { object, member } => self.call(who, object, member),
            Request::Leave { object, failed } => self.leave(who, object, failed),
            Request::Accept { object, site, mask } => self.accept(who, object, site, mask),
            Request::Wait { object, cond, n } => self.wait(who, object, cond, n),
            Request::Signal { object, cond } => self.signal(who, object, cond),
            Request::SignalBlock { object, cond } => self.signal_block(who, object, cond),
            Request::Empty { object, cond } => self.empty(who, object, cond),
            Request::Front { object, cond } => self.front(who, object, cond),
            Request::Raise {
                object,
                event,
                x,
                y,
            } => self.raise(who, object, event, x, y),
            Request::Poll { mask } => self.poll(who, mask),
            Request::Yield => self.yields(who),
            Request::Slice => self.slice(who),
            Request::Print { n, ref items } => self.print(who, n, items),
            Request::Read { form } => self.read(who, form),
            Request::Fail => self.fail(who),
            Request::Cluster => self.cluster(who),
            Request::ClusterEnd { cluster } => self.cluster_end(who, cluster),
            Request::Processor { cluster } => self.processor(who, cluster),
            Request::ProcessorEnd { processor } => self.processor_end(who, processor),
            Request::Migrate { cluster } => self.migrate(who, cluster),
            Request::End => self.end(who),
            Request::Gone { object } => self.gone(who, object),
            Request::Fault { number } => self.fault(who, number),
        }
    }
}
