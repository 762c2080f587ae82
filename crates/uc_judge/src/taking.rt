// The entries that are added where a task asks, one function for each request.

ghost use Rattle.std.specs.Prelude.{◌≡◌, ◌+◌, ◌<◌, ◌≤◌, ◌^◌, ◌∷◌, [], ℕ, pos, List, true, OnOk, length, drop};
ghost use Rattle.uc_tree.specs.Programs.{Site};
ghost use Rattle.uc_tree.specs.declared.limits.TheConstants.{INPUT_BYTES};
ghost use Rattle.uc_entry.specs.declared.entry.Entry.{Entry};
ghost use Rattle.uc_entry.specs.declared.request.Request.TheVariants as ask;
ghost use Rattle.uc_acts.specs.Fit.{IsFit};
ghost use Rattle.uc_acts.specs.Answers.{first_of};
ghost use Rattle.uc_acts.specs.Queues.{is_nobody};
ghost use Rattle.uc_acts.specs.Doors.{site_at, blocked};
ghost use Rattle.uc_acts.specs.Reading.{next_read};
ghost use Rattle.uc_acts.specs.Acts.{fault as fault_entry, admission, clause_by_way, failed_by_way, left_by, met_by, called, took};
ghost use Rattle.uc_entry.specs.Faults.{fault_number};
ghost use Rattle.uc_judge.specs.Actors.{cost_of};
ghost use Rattle.uc_judge.specs.Asking.{IsWhole};
ghost use Rattle.uc_judge.specs.Opened.{opened_of};
ghost use Rattle.uc_judge.specs.Ledgers.{IsLedger, Settles, Takes, is_safe};
ghost use Rattle.uc_judge.specs.Narrow.{IsNarrow};

use crate::accepts::OpenAccept;
use crate::actor::Actor;
use crate::ledger::Ledger;
use crate::offers::{Taken, clause_for, met};
use std::alloc::AllocError;
use uc_acts::got::Got;
use uc_entry::entry::{Entry, EntryKind};
use uc_entry::fault::RunFault;
use uc_entry::request::{Piece, Request};
use uc_input::reading::read_form;
use uc_tree::limits::{CLUSTERS, DESTRUCTOR, OBJECTS, PENDING_EVENTS, PROCESSORS, TASKS};
use uc_tree::site::Site;

impl Ledger {
    /// Adds the entries of what a task asks, up to the first that destroys what is in use.
    pub(crate) fn take_up(
        &mut self,
        sites: &[Site],
        input: &[u8],
        actor: Actor,
        request: &Request,
    ) -> Result<(), AllocError>
        requires ledger { IsLedger self.old sites.now }
        requires few { length self.old.entries.items < 2 ^ 32 }
        requires short { length input.now ≤ INPUT_BYTES }
        requires whole { IsWhole request.now }
        ensures { OnOk result (Takes self.old self.new sites.now input.now actor request.now) }
    {
        match request {
            Request::Make { class } => self.make(sites, actor, *class),
            Request::Made { object } => self.go_out(
                sites,
                actor,
                actor.at(EntryKind::Made, *object),
            ),
            Request::Spawn { object } => self.spawn(sites, actor, *object),
            Request::Call { object, member } => self.call(sites, actor, *object, *member),
            Request::Leave { object, failed } => {
                self.go_out(sites, actor, actor.leave(*object, *failed))
            }
            Request::Accept { object, site, mask } => {
                self.accept(sites, actor, *object, *site, *mask)
            }
            Request::Wait { object, cond, n } => {
                self.go_out(
                    sites,
                    actor,
                    actor.wait(EntryKind::Wait, *object, *cond, *n),
                )
            }
            Request::Signal { object, cond } => self.signal(sites, actor, *object, *cond),
            Request::SignalBlock { object, cond } => self.signal_block(
                sites, actor, *object, *cond,
            ),
            Request::Empty { object, cond } => self.empty(sites, actor, *object, *cond),
            Request::Front { object, cond } => self.front(sites, actor, *object, *cond),
            Request::Raise {
                object,
                event,
                x,
                y,
            } => { self.raise(sites, actor, *object, *event, *x, *y) }
            Request::Poll { mask } => self.poll(sites, actor, *mask),
            Request::Yield => self.one(sites, actor, actor.plain(EntryKind::Yield)),
            Request::Slice => self.one(sites, actor, actor.plain(EntryKind::Slice)),
            Request::Print { n, items } => self.print(sites, actor, *n, items),
            Request::Read { form } => self.read(sites, input, actor, *form),
            Request::Fail => self.one(sites, actor, actor.fail(self.counts.has_failed)),
            Request::Cluster => self.cluster(sites, actor),
            Request::ClusterEnd { cluster } => self.cluster_end(sites, actor, *cluster),
            Request::Processor { cluster } => self.processor(sites, actor, *cluster),
            Request::ProcessorEnd { processor } => self.processor_end(sites, actor, *processor),
            Request::Migrate { cluster } => {
                self.one(sites, actor, actor.cluster(EntryKind::Migrate, *cluster))
            }
            Request::End => self.end(sites, actor),
            Request::Gone { object } => self.gone(sites, actor, *object),
            Request::Fault { number } => self.one(sites, actor, actor.fault(*number, actor.line)),
        }
    }

    // Adds one entry that destroys nothing.
    #[tactic(auto, using(crate::proofs::Narrowing::narrowing))]
    fn one(&mut self, sites: &[Site], actor: Actor, e: Entry) -> Result<(), AllocError>
        requires fit { IsFit e }
        requires ledger { IsLedger self.old sites.now }
        requires safe { is_safe e.kind ≡ true }
        ensures { OnOk result (Settles self.old self.new sites.now actor (e ∷ [])) }
    {
        self.add(sites, e)?;
        Ok(())
    }

    // Adds an entry that destroys nothing, and one behind it.
    #[tactic(auto, using(crate::proofs::Narrowing::narrowing))]
    fn pair(&mut self, sites: &[Site], actor: Actor, e: Entry, f: Entry) -> Result<(), AllocError>
        requires fit { IsFit e }
        requires fit_behind { IsFit f }
        requires narrow_behind { IsNarrow f.kind f }
        requires ledger { IsLedger self.old sites.now }
        requires safe { is_safe e.kind ≡ true }
        ensures { OnOk result (Settles self.old self.new sites.now actor (e ∷ f ∷ [])) }
    {
        self.add(sites, e)?;
        let _going = self.put(sites, actor, f)?;
        Ok(())
    }

    // Adds the run fault of what was asked.
    fn fault(&mut self, sites: &[Site], actor: Actor, fault: RunFault) -> Result<(), AllocError>
        requires ledger { IsLedger self.old sites.now }
        ensures { OnOk result (Settles self.old self.new sites.now actor
            (fault_entry actor.processor actor.task (cost_of actor) (fault_number fault) actor.line
            ∷ [])) }
    {
        self.one(sites, actor, actor.fault(fault.number(), actor.line))?;
        Ok(())
    }

    // Adds the entry by which a task goes out of an object, and the admission of whoever is next there.
    #[tactic(auto, using(crate::proofs::Narrowing::narrowing))]
    fn go_out(&mut self, sites: &[Site], actor: Actor, e: Entry) -> Result<(), AllocError>
        requires fit { IsFit e }
        requires ledger { IsLedger self.old sites.now }
        requires safe { is_safe e.kind ≡ true }
        ensures { OnOk result (Settles self.old self.new sites.now actor
            (left_by sites.now self.old.entries.items actor.processor e.object e)) }
    {
        let object = e.object;
        let next = self.views.next(object);
        self.add(sites, e)?;
        self.admit_next(sites, actor, object, next)?;
        Ok(())
    }

    // Adds the admission of whoever is next.
    fn admit_next(
        &mut self,
        sites: &[Site],
        actor: Actor,
        object: u32,
        next: Option<(u32, u8)>,
    ) -> Result<(), AllocError>
        requires ledger { IsLedger self.old sites.now }
        ensures { OnOk result (Settles self.old self.new sites.now actor
            (admission sites.now actor.processor object self.old.entries.items next)) }
    {
        match next {
            Some(next) => {
                let clause = self.clause_by_way(object, next);
                let failed = self.failed_by_way(object, next);
                let admission = actor.admit(next.0, object, next.1, clause, failed);
                let _going = self.put(sites, actor, admission)?;
                Ok(())
            }
            None => Ok(()),
        }
    }

    // The clause by which the accept of whom a stack gives up was met.
    fn clause_by_way(&self, object: u32, next: (u32, u8)) -> u8
        ensures { (sites : List Site) → IsLedger self.now sites →
            result ≡ clause_by_way sites object self.now.entries.items next }
    {
        if next.1 == 3 {
            self.stacks.clause_of(object, next.0)
        } else {
            0
        }
    }

    // Whether the call that met it has failed.
    fn failed_by_way(&self, object: u32, next: (u32, u8)) -> bool
        ensures { (sites : List Site) → IsLedger self.now sites →
            result ≡ failed_by_way sites object self.now.entries.items next }
    {
        if next.1 == 3 {
            self.stacks.failed_of(object, next.0)
        } else {
            false
        }
    }

    fn make(&mut self, sites: &[Site], actor: Actor, class: u32) -> Result<(), AllocError>
        requires ledger { IsLedger self.old sites.now }
        requires few { length self.old.entries.items < 2 ^ 32 }
        ensures { OnOk result (Takes self.old self.new sites.now [] actor (ask.Make class)) }
    {
        let objects = self.counts.objects;
        if objects < u64::from(OBJECTS) {
            self.one(
                sites,
                actor,
                actor.made(EntryKind::Make, objects as u32, class),
            )?;
            return Ok(());
        }
        self.fault(sites, actor, RunFault::TooManyObjects)?;
        Ok(())
    }

    fn spawn(&mut self, sites: &[Site], actor: Actor, object: u32) -> Result<(), AllocError>
        requires ledger { IsLedger self.old sites.now }
        requires few { length self.old.entries.items < 2 ^ 32 }
        ensures { OnOk result (Takes self.old self.new sites.now [] actor (ask.Spawn object)) }
    {
        let tasks = self.counts.tasks;
        if tasks < u64::from(TASKS) {
            self.one(
                sites,
                actor,
                actor.made(EntryKind::Spawn, object, tasks as u32),
            )?;
            return Ok(());
        }
        self.fault(sites, actor, RunFault::TooManyTasks)?;
        Ok(())
    }

    #[tactic(auto, using(crate::proofs::Narrowing::narrowing))]
    fn call(
        &mut self,
        sites: &[Site],
        actor: Actor,
        object: u32,
        member: u8,
    ) -> Result<(), AllocError>
        requires ledger { IsLedger self.old sites.now }
        ensures { OnOk result (Takes self.old self.new sites.now [] actor (ask.Call object member)) }
    {
        let is_free = self.views.inside(object).is_empty();
        let accept = self.accepts.open_at(object);
        self.add(sites, actor.call(object, member))?;
        self.let_in(sites, actor, object, member, is_free, accept)?;
        Ok(())
    }

    // Lets a caller in where nobody is inside and nothing is open, or by the accept that is open.
    fn let_in(
        &mut self,
        sites: &[Site],
        actor: Actor,
        object: u32,
        member: u8,
        is_free: bool,
        accept: Option<OpenAccept>,
    ) -> Result<(), AllocError>
        requires ledger { IsLedger self.old sites.now }
        ensures { OnOk result ((within : List ℕ) (opened : List Entry) →
            is_free ≡ is_nobody within → accept ≡ opened_of opened →
            Settles self.old self.new sites.now actor
            (called sites.now actor.processor actor.task object member within opened)) }
    {
        match accept {
            Some(accept) => {
                let clause = clause_for(sites, accept.site, accept.mask, member);
                self.meet(sites, actor, object, member, accept.task, clause)?;
                Ok(())
            }
            None => {
                if is_free {
                    let _going = self.put(
                        sites,
                        actor,
                        actor.admit(actor.task, object, 0, 0, false),
                    )?;
                }
                Ok(())
            }
        }
    }

    // A call of a member at an accept of a task that is open, by this clause.
    fn meet(
        &mut self,
        sites: &[Site],
        actor: Actor,
        object: u32,
        member: u8,
        acceptor: u32,
        clause: Option<u8>,
    ) -> Result<(), AllocError>
        requires ledger { IsLedger self.old sites.now }
        ensures { OnOk result (Settles self.old self.new sites.now actor
            (met_by actor.processor actor.task object acceptor member clause)) }
    {
        match clause {
            None => Ok(()),
            Some(clause) => {
                if member == DESTRUCTOR {
                    let admission = actor.admit(acceptor, object, 3, clause, false);
                    if self.put(sites, actor, admission)? {
                        self.one(sites, actor, actor.push(actor.task, object))?;
                    }
                    return Ok(());
                }
                let _going = self.put(sites, actor, actor.admit(actor.task, object, 1, 0, false))?;
                Ok(())
            }
        }
    }

    fn accept(
        &mut self,
        sites: &[Site],
        actor: Actor,
        object: u32,
        site: u32,
        mask: u32,
    ) -> Result<(), AllocError>
        requires ledger { IsLedger self.old sites.now }
        ensures { OnOk result (Takes self.old self.new sites.now [] actor
            (ask.Accept object site mask)) }
    {
        let has_else = has_else(sites, site);
        let waiting = self.views.waiting(object);
        match met(sites, u64::from(site), u64::from(mask), waiting) {
            Some(taken) => {
                self.take_caller(sites, actor, object, site, mask, has_else, taken)?;
                Ok(())
            }
            None => {
                let how = if has_else { 2 } else { 0 };
                self.one(
                    sites,
                    actor,
                    actor.accept(object, site, mask, has_else, how),
                )?;
                Ok(())
            }
        }
    }

    // An accept takes a caller: the destructor's is pushed, any other is let in.
    fn take_caller(
        &mut self,
        sites: &[Site],
        actor: Actor,
        object: u32,
        site: u32,
        mask: u32,
        has_else: bool,
        taken: Taken,
    ) -> Result<(), AllocError>
        requires ledger { IsLedger self.old sites.now }
        ensures { OnOk result (Settles self.old self.new sites.now actor
            (took actor.processor actor.task
            (cost_of actor) object site mask has_else taken.member taken.task)) }
    {
        if taken.member == DESTRUCTOR {
            let e = actor.accept(object, site, mask, has_else, 3);
            self.pair(sites, actor, e, actor.push(taken.task, object))?;
            return Ok(());
        }
        let e = actor.accept(object, site, mask, has_else, 1);
        self.pair(
            sites,
            actor,
            e,
            actor.admit(taken.task, object, 1, 0, false),
        )?;
        Ok(())
    }

    // Who has been blocked on a condition for longest, and the number given.
    fn first_blocked(&self, object: u32, cond: u16) -> Option<(u32, i64)>
        ensures { (sites : List Site) → IsLedger self.now sites →
            result ≡ first_of (blocked object cond self.now.entries.items) }
    {
        match self.views.blocked(object, cond).first() {
            Some(wait) => Some(*wait),
            None => None,
        }
    }

    #[tactic(auto, using(crate::proofs::Narrowing::narrowing))]
    fn signal(
        &mut self,
        sites: &[Site],
        actor: Actor,
        object: u32,
        cond: u16,
    ) -> Result<(), AllocError>
        requires ledger { IsLedger self.old sites.now }
        ensures { OnOk result (Takes self.old self.new sites.now [] actor (ask.Signal object cond)) }
    {
        match self.first_blocked(object, cond) {
            Some(wait) => {
                self.add(sites, actor.signal(EntryKind::Signal, object, cond, true))?;
                self.one(sites, actor, actor.push(wait.0, object))?;
                Ok(())
            }
            None => {
                self.one(
                    sites,
                    actor,
                    actor.signal(EntryKind::Signal, object, cond, false),
                )?;
                Ok(())
            }
        }
    }

    fn signal_block(
        &mut self,
        sites: &[Site],
        actor: Actor,
        object: u32,
        cond: u16,
    ) -> Result<(), AllocError>
        requires ledger { IsLedger self.old sites.now }
        ensures { OnOk result (Takes self.old self.new sites.now [] actor
            (ask.SignalBlock object cond)) }
    {
        match self.first_blocked(object, cond) {
            Some(wait) => {
                let e = actor.signal(EntryKind::SignalBlock, object, cond, true);
                self.pair(sites, actor, e, actor.admit(wait.0, object, 4, 0, false))?;
                Ok(())
            }
            None => {
                self.one(
                    sites,
                    actor,
                    actor.signal(EntryKind::SignalBlock, object, cond, false),
                )?;
                Ok(())
            }
        }
    }

    fn empty(
        &mut self,
        sites: &[Site],
        actor: Actor,
        object: u32,
        cond: u16,
    ) -> Result<(), AllocError>
        requires ledger { IsLedger self.old sites.now }
        ensures { OnOk result (Takes self.old self.new sites.now [] actor (ask.Empty object cond)) }
    {
        let nobody = self.first_blocked(object, cond).is_none();
        self.one(
            sites,
            actor,
            actor.signal(EntryKind::Empty, object, cond, nobody),
        )?;
        Ok(())
    }

    fn front(
        &mut self,
        sites: &[Site],
        actor: Actor,
        object: u32,
        cond: u16,
    ) -> Result<(), AllocError>
        requires ledger { IsLedger self.old sites.now }
        ensures { OnOk result (Takes self.old self.new sites.now [] actor (ask.Front object cond)) }
    {
        match self.first_blocked(object, cond) {
            Some(wait) => {
                self.one(
                    sites,
                    actor,
                    actor.wait(EntryKind::Front, object, cond, wait.1),
                )?;
                Ok(())
            }
            None => {
                self.fault(sites, actor, RunFault::FrontOfEmpty)?;
                Ok(())
            }
        }
    }

    fn raise(
        &mut self,
        sites: &[Site],
        actor: Actor,
        object: u32,
        event: u8,
        x: i64,
        y: i64,
    ) -> Result<(), AllocError>
        requires ledger { IsLedger self.old sites.now }
        ensures { OnOk result (Takes self.old self.new sites.now [] actor
            (ask.Raise object event x y)) }
    {
        let target = self.tasks.owner(object);
        if self.pending.count(target) < PENDING_EVENTS as usize {
            self.one(sites, actor, actor.raise(object, target, event, x, y))?;
            return Ok(());
        }
        self.fault(sites, actor, RunFault::TooManyPending)?;
        Ok(())
    }

    fn poll(&mut self, sites: &[Site], actor: Actor, mask: u64) -> Result<(), AllocError>
        requires ledger { IsLedger self.old sites.now }
        ensures { OnOk result (Takes self.old self.new sites.now [] actor (ask.Poll mask)) }
    {
        let event = self.pending.oldest_in(mask, actor.task);
        let _going = self.put(sites, actor, actor.poll(mask, event))?;
        Ok(())
    }

    #[tactic(auto, using(crate::proofs::Narrowing::narrowing))]
    fn print(
        &mut self,
        sites: &[Site],
        actor: Actor,
        n: u8,
        items: &[Piece],
    ) -> Result<(), AllocError>
        requires ledger { IsLedger self.old sites.now }
        requires within { n ≤ length items.now }
        ensures { OnOk result (Takes self.old self.new sites.now [] actor (ask.Print n items.now)) }
    {
        for i in 0..usize::from(n) {
            let item = items[i];
            self.add(sites, actor.of_item(i).print(item.form, item.value))?;
        }
        Ok(())
    }

    fn read(
        &mut self,
        sites: &[Site],
        input: &[u8],
        actor: Actor,
        form: u8,
    ) -> Result<(), AllocError>
        requires ledger { IsLedger self.old sites.now }
        requires few { length self.old.entries.items < 2 ^ 32 }
        requires short { length input.now ≤ INPUT_BYTES }
        ensures { OnOk result (Takes self.old self.new sites.now input.now actor (ask.Read form)) }
    {
        let got = self.next_read(input, form);
        let used = self.counts.bytes_read;
        self.one(sites, actor, actor.read(form, got, used))?;
        Ok(())
    }

    // What the next read takes.
    fn next_read(&self, input: &[u8], form: u8) -> Got
        requires short { length input.now ≤ INPUT_BYTES }
        ensures got { (sites : List Site) → IsLedger self.now sites →
            length self.now.entries.items < 2 ^ 32 →
            result ≡ next_read form input.now self.now.entries.items }
        ensures within { (n : ℕ) → self.now.counts.bytes_read ≡ pos n →
            n + result.taken ≤ 9223372036854775807 }
    {
        let used = self.counts.bytes_read;
        if self.counts.has_failed {
            return Got {
                value: 0,
                failed: true,
                taken: 0,
            };
        }
        read_form(form, rest_behind(input, used))
    }

    fn cluster(&mut self, sites: &[Site], actor: Actor) -> Result<(), AllocError>
        requires ledger { IsLedger self.old sites.now }
        requires few { length self.old.entries.items < 2 ^ 32 }
        ensures { OnOk result (Takes self.old self.new sites.now [] actor ask.Cluster) }
    {
        let clusters = self.counts.clusters;
        if clusters < u64::from(CLUSTERS) {
            self.one(
                sites,
                actor,
                actor.cluster(EntryKind::Cluster, clusters as u32),
            )?;
            return Ok(());
        }
        self.fault(sites, actor, RunFault::TooManyProcessors)?;
        Ok(())
    }

    fn cluster_end(&mut self, sites: &[Site], actor: Actor, cluster: u32) -> Result<(), AllocError>
        requires ledger { IsLedger self.old sites.now }
        ensures { OnOk result (Takes self.old self.new sites.now [] actor (ask.ClusterEnd cluster)) }
    {
        if self.is_in_use(cluster) {
            self.fault(sites, actor, RunFault::DestroyBusy)?;
            return Ok(());
        }
        self.one(sites, actor, actor.cluster(EntryKind::ClusterEnd, cluster))?;
        Ok(())
    }

    fn processor(&mut self, sites: &[Site], actor: Actor, cluster: u32) -> Result<(), AllocError>
        requires ledger { IsLedger self.old sites.now }
        requires few { length self.old.entries.items < 2 ^ 32 }
        ensures { OnOk result (Takes self.old self.new sites.now [] actor (ask.Processor cluster)) }
    {
        let processors = self.counts.processors;
        if processors < u64::from(PROCESSORS) {
            let e = actor.processor(EntryKind::Processor, processors as u32, cluster);
            self.one(sites, actor, e)?;
            return Ok(());
        }
        self.fault(sites, actor, RunFault::TooManyProcessors)?;
        Ok(())
    }

    fn processor_end(
        &mut self,
        sites: &[Site],
        actor: Actor,
        processor: u32,
    ) -> Result<(), AllocError>
        requires ledger { IsLedger self.old sites.now }
        ensures { OnOk result (Takes self.old self.new sites.now [] actor
            (ask.ProcessorEnd processor)) }
    {
        let cluster = self.processors.cluster_of(processor);
        let e = actor.processor(EntryKind::ProcessorEnd, processor, cluster);
        self.one(sites, actor, e)?;
        Ok(())
    }

    fn end(&mut self, sites: &[Site], actor: Actor) -> Result<(), AllocError>
        requires ledger { IsLedger self.old sites.now }
        ensures { OnOk result (Takes self.old self.new sites.now [] actor ask.End) }
    {
        let object = self.tasks.own_object(actor.task);
        self.go_out(sites, actor, actor.at(EntryKind::End, object))?;
        Ok(())
    }

    #[tactic(auto, using(crate::proofs::Narrowing::narrowing))]
    fn gone(&mut self, sites: &[Site], actor: Actor, object: u32) -> Result<(), AllocError>
        requires ledger { IsLedger self.old sites.now }
        ensures { OnOk result (Takes self.old self.new sites.now [] actor (ask.Gone object)) }
    {
        let _going = self.put(sites, actor, actor.at(EntryKind::Gone, object))?;
        Ok(())
    }
}

// Whether an accept statement has an `_Else`.
fn has_else(sites: &[Site], site: u32) -> bool
    ensures { result ≡ (site_at sites.now site).has_else }
{
    match sites.get(site as usize) {
        Some(site) => site.has_else,
        None => false,
    }
}

// The input behind so many bytes.
fn rest_behind(input: &[u8], used: i64) -> &[u8]
    requires { length input.now ≤ INPUT_BYTES }
    ensures rest { (n : ℕ) → used ≡ pos n → result.now ≡ drop n input.now }
    ensures short { length result.now ≤ INPUT_BYTES }
    ensures within { (n : ℕ) → used ≡ pos n → n + length result.now ≤ 9223372036854775807 }
{
    if used < 0 || used as usize >= input.len() {
        return &[];
    }
    &input[used as usize..]
}
