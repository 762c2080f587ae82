// Switches between the executions of a task.

ghost use Rattle.std.specs.Prelude.{◌≡◌, None, Some, MatchOption, pos, false};
ghost use Rattle.uc_machine.specs.Executions.{exec_eq, parked_at};
ghost use Rattle.uc_machine.specs.Switches.{ended, set_slot, spread, stopped, switched, unwound_there, woken};
ghost use Rattle.uc_machine.specs.declared.exec.UnwindReason.TheVariants as reason;
ghost use Rattle.uc_tree.specs.declared.limits.TheConstants.{UNHANDLED};

use crate::numbered::{is_same, position};
use crate::parked::ParkedStack;
use crate::work::Work;
use std::mem;
use uc_machine::exec::{Exec, Home, Stage, UnwindReason};
use uc_tree::limits::UNHANDLED;

impl Work {
    /// Who resumed the running execution first, if any did.
    pub fn starter(&self) -> Option<Exec>
        ensures { result ≡ self.now.env.links.starter }
    {
        self.task.running.links.starter
    }

    /// Who resumed the running execution last, if any did.
    pub fn resumer(&self) -> Option<Exec>
        ensures { result ≡ self.now.env.links.resumer }
    {
        self.task.running.links.resumer
    }

    /// Who destroys the coroutine of the running execution, while that is unwound for it.
    pub fn destroyer(&self) -> Option<Exec>
        ensures { result ≡ self.now.env.links.destroyer }
    {
        self.task.running.links.destroyer
    }

    /// Whether this is the execution that runs.
    pub fn runs(&self, exec: Exec) -> bool
        ensures { result ≡ exec_eq exec self.now.env.exec }
    {
        is_same(exec, self.task.parts.exec)
    }

    /// How far an execution in hand is that does not run.
    pub fn stage(&self, exec: Exec) -> Option<Stage>
        ensures { MatchOption result (parked_at exec self.now.env ≡ None) (λ t. (x : _) × (parked_at exec self.now.env ≡ Some x) × (x.links.stage ≡ t)) }
    {
        match self.parked(exec) {
            None => None,
            Some(stack) => Some(stack.stack.links.stage),
        }
    }

    /// The main of the running execution has ended, or was unwound.
    pub fn end(&mut self)
        ensures { self.new ≡ ended self.old }
    {
        self.task.running.links.stage = Stage::Ended;
        self.task.running.links.destroyer = None;
    }

    /// The running execution stops, and one in hand goes on. Nothing is claimed of one that has no `stage`.
    pub fn activate(&mut self, exec: Exec)
        ensures { (x : _) → parked_at exec self.old.env ≡ Some x → self.new ≡ switched exec x self.old }
    {
        if let Some(stack) = self.exchange(exec, None) {
            self.run(exec, stack);
        }
    }

    /// The running execution resumes one in hand. Nothing is claimed of one that has no `stage`.
    pub fn wake(&mut self, exec: Exec)
        ensures { (x : _) → parked_at exec self.old.env ≡ Some x → self.new ≡ switched exec (record x { links = woken self.old.env.exec x.links }) self.old }
    {
        let by = self.task.parts.exec;
        if let Some(mut left) = self.exchange(exec, None) {
            left.stack.links.wake(by);
            self.run(exec, left);
        }
    }

    /// The running execution stops, and one in hand is unwound from where it stands: an event that has left a main is thrown there as
    /// another one. Nothing is claimed of one that has no `stage`.
    pub fn throw_at(&mut self, exec: Exec)
        ensures { (x : _) → parked_at exec self.old.env ≡ Some x → self.new ≡ switched exec (unwound_there (reason.Event UNHANDLED (pos 0) (pos 0)) x) self.old }
    {
        if let Some(mut left) = self.exchange(exec, None) {
            left.stack.unwind(UnwindReason::Event {
                event: UNHANDLED,
                x: 0,
                y: 0,
            });
            self.run(exec, left);
        }
    }

    /// The running execution destroys the coroutine of one in hand, which is unwound from where it stands. Nothing is claimed of one
    /// that has no `stage`.
    pub fn take_down(&mut self, exec: Exec)
        ensures { (x : _) → parked_at exec self.old.env ≡ Some x → self.new
            ≡ switched exec (unwound_there reason.Destroyed (record x { links = record x.links { live = false; destroyer = Some self.old.env.exec } })) self.old }
    {
        let by = self.task.parts.exec;
        if let Some(mut left) = self.exchange(exec, None) {
            left.stack.links.live = false;
            left.stack.links.destroyer = Some(by);
            left.stack.unwind(UnwindReason::Destroyed);
            self.run(exec, left);
        }
    }

    // The running execution stops, and this one, which was taken out, goes on.
    #[inline(never)]
    fn run(&mut self, exec: Exec, stack: ParkedStack)
        ensures { self.new ≡ spread exec stack (set_slot self.old.env.exec (Some (stopped self.old)) self.old.env) }
    {
        let stops = self.task.parts.exec;
        self.task.parts.exec = exec;
        let ParkedStack { stack } = stack;
        let stack = mem::replace(&mut self.task.running, stack);
        let _ = self.exchange(stops, Some(ParkedStack { stack }));
    }

    // An execution in hand is left as this, or runs where it is nothing; what was left of it is handed over.
    #[inline(always)]
    fn exchange(&mut self, exec: Exec, slot: Option<ParkedStack>) -> Option<ParkedStack>
        ensures value { result ≡ parked_at exec self.old.env }
        ensures after { self.new ≡ record self.old { env = set_slot exec slot self.old.env } }
    {
        match exec.home {
            Home::Task(task) => {
                if task == self.task.parts.own {
                    let left = self.task.parts.house.exchange(exec.serial, slot);
                    left
                } else {
                    None
                }
            }
            Home::Object(object) => match position(&self.hand, u64::from(object)) {
                None => None,
                Some(i) => {
                    let members = self.hand.get_mut(i);
                    let left = members.1.house.exchange(exec.serial, slot);
                    left
                }
            },
        }
    }
}
