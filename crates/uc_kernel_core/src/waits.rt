//! Requests about conditions.
ghost use Rattle.std.specs.Prelude.{◌≡◌, ◌<◌, ◌≤◌, ◌+◌, ◌∷◌, [], ℕ, true, false, length, pos};
ghost use Rattle.uc_tree.specs.declared.limits.TheConstants.{TASKS};
ghost use Rattle.uc_acts.specs.Acts.{fault, settled};
ghost use Rattle.uc_acts.specs.Doors.{blocked, open_at};
ghost use Rattle.uc_acts.specs.Journal;
ghost use Rattle.uc_acts.specs.Journal.{cost, inside, is_over, no_cost};
ghost use Rattle.uc_acts.specs.KernelRuns.{IsAt};
ghost use Rattle.uc_acts.specs.Known.{object_count};
ghost use Rattle.uc_acts.specs.Queues.{last_actor, running};
ghost use Rattle.uc_acts.specs.Sound.{At, spot};
ghost use Rattle.uc_acts.specs.Stations.{Stacked};
ghost use Rattle.uc_entry.specs.declared.entry.EntryKind.TheVariants as kind;
ghost use Rattle.uc_entry.specs.declared.request.Request.TheVariants as ask;
ghost use Rattle.uc_kernel_core.specs.Mirrors.{Appended, CanPut, MayAct, rows};
ghost use Rattle.uc_kernel_core.specs.Waiters.{front_admitted, front_pushed};

use crate::entries::{Actor, admit_entry, busy_entry, condition_entry, push_entry, signal_entry};
use crate::kernel_core::{KernelCore, destroys_busy};
use crate::uncounted::push_on;
use uc_entry::entry::EntryKind;

impl KernelCore {
    /// A task waits on a condition of the object that it is inside: it goes out, and off its processor.
    fn put_wait(&mut self, who: Actor, object: u32, cond: u16, n: i64)
        requires can { CanPut self.old
            (Journal.asking kind.Wait who.processor who.task (cost who.ticks who.line) object
            (pos cond) n) }
        requires runs { running who.processor self.old.journal ≡ who.task ∷ [] }
        requires within { inside object self.old.journal ≡ who.task ∷ [] }
        requires known { object < object_count self.old.journal }
        ensures { Appended self.old self.new
            (Journal.asking kind.Wait who.processor who.task (cost who.ticks who.line) object
            (pos cond) n ∷ []) }
    {
        self.journal
            .push(condition_entry(EntryKind::Wait, who, object, cond, n));
        self.entries.leave(object);
        self.conditions.wait(object, cond, who.task, n);
        self.clusters.free(u32::from(who.processor));
        self.marks[who.task as usize] = self.inside_marks[object as usize];
    }

    /// A task waits on a condition.
    pub(crate) fn wait(&mut self, who: Actor, object: u32, cond: u16, n: i64)
        requires may { MayAct self.old who.processor who.task }
        requires at { IsAt who.task object self.old.journal }
        ensures { Appended self.old self.new
            (rows self.old who.processor who.task who.ticks who.line (ask.Wait object cond n)) }
    {
        self.put_wait(who, object, cond, n);
        self.admit_next(who, object);
    }

    /// The front waiter of a condition goes on the stack, if there is one.
    fn push_front(&mut self, who: Actor, object: u32, cond: u16)
        requires going { is_over self.old.journal ≡ false }
        requires known { object < object_count self.old.journal }
        requires room { length self.old.journal < self.old.opts.entries + 40 }
        requires shut { open_at object self.old.journal ≡ [] }
        ensures { Appended self.old self.new
            (front_pushed who.processor object (blocked object cond self.old.journal)) }
    {
        match self.conditions.take(object, cond) {
            None => {}
            Some(task) => {
                self.journal.push(push_entry(who, task, object));
                push_on(&mut self.entries, object, task);
            }
        }
    }

    /// A task signals a condition: the front waiter goes on the stack.
    pub(crate) fn signal(&mut self, who: Actor, object: u32, cond: u16)
        requires may { MayAct self.old who.processor who.task }
        requires at { IsAt who.task object self.old.journal }
        ensures { Appended self.old self.new
            (rows self.old who.processor who.task who.ticks who.line (ask.Signal object cond)) }
    {
        let nobody = self.nobody_on(object, cond);
        self.put_quiet(signal_entry(who, object, cond, nobody));
        self.push_front(who, object, cond);
    }

    /// A signaller that finds nobody goes on.
    fn put_unheard(&mut self, who: Actor, object: u32, cond: u16)
        requires can { CanPut self.old
            (Journal.asking kind.SignalBlock who.processor who.task (cost who.ticks who.line) object
            (pos cond) (pos 0)) }
        requires known { object < object_count self.old.journal }
        ensures { Appended self.old self.new
            (Journal.asking kind.SignalBlock who.processor who.task (cost who.ticks who.line) object
            (pos cond) (pos 0) ∷ []) }
    {
        self.journal.push(condition_entry(EntryKind::SignalBlock, who, object, cond, 0));
    }

    /// A signaller that finds a waiter goes on the stack, and off its processor.
    fn put_signaller(&mut self, who: Actor, object: u32, cond: u16)
        requires can { CanPut self.old
            (Journal.asking kind.SignalBlock who.processor who.task (cost who.ticks who.line) object
            (pos cond) (pos 1)) }
        requires runs { running who.processor self.old.journal ≡ who.task ∷ [] }
        requires within { inside object self.old.journal ≡ who.task ∷ [] }
        requires known { object < object_count self.old.journal }
        ensures { Appended self.old self.new
            (Journal.asking kind.SignalBlock who.processor who.task (cost who.ticks who.line) object
            (pos cond) (pos 1) ∷ []) }
    {
        self.journal.push(condition_entry(EntryKind::SignalBlock, who, object, cond, 1));
        push_on(&mut self.entries, object, who.task);
        self.entries.leave(object);
        self.clusters.free(u32::from(who.processor));
        self.marks[who.task as usize] = self.inside_marks[object as usize];
    }

    /// The front waiter of a condition comes in, if there is one, or the run ends where that would destroy what is in use.
    fn admit_front(&mut self, who: Actor, object: u32, cond: u16)
        requires going { is_over self.old.journal ≡ false }
        requires known { object < object_count self.old.journal }
        requires room { length self.old.journal < self.old.opts.entries + 40 }
        requires empty { inside object self.old.journal ≡ [] }
        requires acts { last_actor 0 self.old.journal ≡ who.task }
        requires stacked { spot who.task self.old.journal ≡ At (Stacked object) }
        requires task { who.task < TASKS }
        ensures { Appended self.old self.new
            (settled (fault who.processor who.task no_cost 10 who.line) self.old.journal
            (front_admitted who.processor object (blocked object cond self.old.journal))) }
    {
        match self.conditions.take(object, cond) {
            None => {}
            Some(task) => {
                let mark = self.marks[task as usize];
                self.entries.enter(object, task);
                if destroys_busy(mark, &self.entries, &self.conditions, object) {
                    self.journal.push(busy_entry(who));
                    return;
                }
                self.journal.push(admit_entry(who, task, object, 4, 0));
                self.clusters.ready(task);
                self.inside_marks[object as usize] = mark;
            }
        }
    }

    /// A task signals a condition, and the front waiter comes in before it.
    pub(crate) fn signal_block(&mut self, who: Actor, object: u32, cond: u16)
        requires may { MayAct self.old who.processor who.task }
        requires at { IsAt who.task object self.old.journal }
        ensures { Appended self.old self.new
            (rows self.old who.processor who.task who.ticks who.line (ask.SignalBlock object cond)) }
    {
        if self.nobody_on(object, cond) {
            self.put_unheard(who, object, cond);
        } else {
            self.put_signaller(who, object, cond);
            self.admit_front(who, object, cond);
        }
    }
}
