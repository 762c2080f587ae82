// The coroutines of a task, and what a task may come to while it is in one.

ghost use Rattle.std.specs.Prelude.{◌≡◌, length, None, Some, IfOk, OnOk, OnErr, drop};
ghost use Rattle.std.specs.Option.{is_some};
ghost use Rattle.uc_machine.specs.Executions.{change};
ghost use Rattle.uc_machine.specs.Switches.{born, enlivened, forgotten, gone, home_in as home_of_owner, is_live, live_at, links_changed, new_exec, with_links};
ghost use Rattle.uc_machine.specs.Raising.{home_of};
ghost use Rattle.uc_machine.specs.Insides.{is_own, is_held_up, oldest_enabled};
ghost use Rattle.uc_frames.specs.Machine.{top, exec_at, own_exec, resumed, home_at, set_up, lively};
ghost use Rattle.uc_frames.specs.Unwinding.{delivered};

use crate::cell::{Cell, exec_in};
use crate::event::event_of;
use crate::links::drop_enabled;
use crate::numbered::{is_same_home, position};
use crate::parked::ParkedStack;
use crate::work::Work;
use std::alloc::AllocError;
use uc_code::rows::RoutineCode;
use uc_machine::exec::{Exec, Home, Owner};

impl Work {
    /// The execution of the coroutine at hand, which its first cell names.
    pub fn own_exec(&self) -> Option<Exec>
        ensures { result ≡ own_exec self.now }
    {
        self.exec_at(&self.task.running.run.head.this)
    }

    // The execution of the coroutine at a place, which its first cell names.
    fn exec_at(&self, place: &Cell) -> Option<Exec>
        ensures { result ≡ exec_at place.now self.now.env }
    {
        match self.find(place) {
            None => None,
            Some(cell) => exec_in(*cell),
        }
    }

    /// The execution that a `resume` resumes: a main runs in that of its own, and so does a handler that stands in it.
    pub fn resumed(&self) -> Option<Exec>
        ensures { result ≡ resumed self.now }
    {
        if self.home() == 0 {
            Some(self.task.parts.exec)
        } else {
            self.own_exec()
        }
    }

    // How many activations are below that of the routine to which the running one belongs.
    fn home(&self) -> u32
        ensures { result ≡ home_of self.now.run.handles (length self.now.callers) }
    {
        match self.handles() {
            None => self.level(),
            Some(visited) => visited.home,
        }
    }

    /// Whether the coroutine is live whose place lies below so many of the newest operands.
    pub fn is_live(&self, count: u32) -> bool
        ensures { result ≡ is_live (exec_at (top (drop count self.now.run.operands)) self.now.env) self.now.env }
    {
        match self.exec_at(&self.below(count)) {
            None => false,
            Some(exec) => self.is_live_at(exec),
        }
    }

    /// Whether the coroutine of an execution in hand is live.
    pub fn is_live_at(&self, exec: Exec) -> bool
        ensures { result ≡ live_at exec self.now.env }
    {
        if self.runs(exec) {
            return self.task.running.links.live;
        }
        match self.parked(exec) {
            None => false,
            Some(stack) => stack.stack.links.live,
        }
    }

    /// The object at hand gets an execution, whose main is this routine and has not begun; its first cell names it.
    pub fn set_up(&mut self, routine: RoutineCode) -> Result<(), AllocError>
        ensures ok { OnOk result (self.new ≡ record self.old { env = set_up routine self.old }) }
        ensures err { OnErr result (self.new ≡ self.old) }
    {
        let this = self.this();
        let stack = ParkedStack::fresh(self.task.parts.alloc, routine, this)?;
        let home = self.home_at(this);
        let exec = self.new_exec(home);
        self.add(home, stack)?;
        self.write(this, Cell::Running(exec));
        Ok(())
    }

    // Where the coroutine at a place is at home.
    fn home_at(&self, place: Cell) -> Home
        ensures { result ≡ home_at place self.now.env }
    {
        match place {
            Cell::Number(_) => self.task.parts.exec.home,
            Cell::Place(owner, _) => home_in(owner),
            Cell::Running(_) => self.task.parts.exec.home,
            Cell::Object(object) => Home::Object(object),
            Cell::Nothing => self.task.parts.exec.home,
        }
    }

    // The name of the next execution at a home.
    fn new_exec(&self, home: Home) -> Exec
        ensures { result ≡ new_exec home self.now.env }
    {
        match self.members(home) {
            None => Exec { home, serial: 0 },
            Some(members) => Exec {
                home,
                serial: members.serial(),
            },
        }
    }

    fn add(&mut self, home: Home, stack: ParkedStack) -> Result<(), AllocError>
        ensures ok { OnOk result (self.new ≡ record self.old { env = born home stack self.old.env }) }
        ensures err { OnErr result (self.new ≡ self.old) }
    {
        match home {
            Home::Task(task) => {
                if task == self.task.parts.own {
                    self.task.parts.house.add(stack)?;
                }
                Ok(())
            }
            Home::Object(object) => {
                if let Some(i) = position(&self.hand, u64::from(object)) {
                    let members = self.hand.get_mut(i);
                    members.1.house.add(stack)?;
                }
                Ok(())
            }
        }
    }

    /// The coroutine at hand is live.
    pub fn enliven(&mut self)
        ensures { self.new ≡ record self.old { env = enlivened (own_exec self.old) self.old.env } }
    {
        if let Some(exec) = self.own_exec() {
            self.set_live(exec, true);
        }
    }

    /// The coroutine of an execution in hand is live; or it is no more, and its main does not begin, or go on, any more.
    pub fn set_live(&mut self, exec: Exec, live: bool)
        ensures { self.new ≡ record self.old { env = with_links (lively live) exec self.old.env } }
    {
        if self.runs(exec) {
            self.task.running.links.set_live(live);
        } else {
            self.set_parked_live(exec, live);
        }
    }

    fn set_parked_live(&mut self, exec: Exec, live: bool)
        ensures { self.new ≡ record self.old { env = change exec.home (links_changed (lively live) exec.serial) self.old.env } }
    {
        match exec.home {
            Home::Task(task) => {
                if task == self.task.parts.own {
                    self.task.parts.house.set_live(exec.serial, live);
                }
            }
            Home::Object(object) => {
                if let Some(i) = position(&self.hand, u64::from(object)) {
                    let members = self.hand.get_mut(i);
                    members.1.house.set_live(exec.serial, live);
                }
            }
        }
    }

    /// The task's own object.
    pub fn own(&self) -> u32
        ensures { result ≡ self.now.env.own }
    {
        self.task.parts.own
    }

    /// Whether the task's own execution runs, and not that of a coroutine.
    pub fn is_own(&self) -> bool
        ensures { result ≡ is_own self.now.env }
    {
        self.runs(Exec {
            home: Home::Task(self.own()),
            serial: 0,
        })
    }

    /// Whether the task is held up in an object: the running execution is at home there, or one that is and does not run has a mutex call
    /// that has not ended, or builds a mutex object.
    pub fn is_held_up(&self, object: u32) -> bool
        ensures { result ≡ is_held_up object self.now.env }
    {
        if is_same_home(self.task.parts.exec.home, Home::Object(object)) {
            return true;
        }
        match self.members(Home::Object(object)) {
            None => false,
            Some(members) => members.has_engaged(),
        }
    }

    /// The events that are enabled at the running execution, by their numbers as bits.
    pub fn enabled(&self) -> u64
        ensures { result ≡ self.now.env.links.enabled }
    {
        self.task.running.links.enabled
    }

    /// The oldest event that is pending and enabled at the running execution, if there is one, is delivered: it goes, and its number and its
    /// fields are the newest operands, the last field on top. The answer is whether there is one.
    pub fn deliver(&mut self) -> Result<bool, AllocError>
        ensures there { IfOk result (λ there. there ≡ is_some (oldest_enabled self.old.env.links)) }
        ensures after { OnOk result (self.new ≡ delivered (oldest_enabled self.old.env.links) self.old) }
        ensures err { OnErr result (self.new ≡ self.old) }
    {
        let running = &mut *self.task.running;
        match running.links.oldest_enabled() {
            None => Ok(false),
            Some(pending) => {
                running.block.push_event(event_of(pending))?;
                drop_enabled(&mut running.links.pending, running.links.enabled);
                Ok(true)
            }
        }
    }

    /// The execution of the coroutine at hand is no more.
    pub fn forget(&mut self)
        ensures { self.new ≡ record self.old { env = forgotten (own_exec self.old) self.old.env } }
    {
        if let Some(exec) = self.own_exec() {
            self.remove(exec);
        }
    }

    fn remove(&mut self, exec: Exec)
        ensures { self.new ≡ record self.old { env = gone exec self.old.env } }
    {
        match exec.home {
            Home::Task(task) => {
                if task == self.task.parts.own {
                    self.task.parts.house.remove(exec.serial);
                }
            }
            Home::Object(object) => {
                if let Some(i) = position(&self.hand, u64::from(object)) {
                    let members = self.hand.get_mut(i);
                    members.1.house.remove(exec.serial);
                }
            }
        }
    }
}

// Where a coroutine is at home that is held by this.
fn home_in(owner: Owner) -> Home
    ensures { result ≡ home_of_owner owner }
{
    match owner {
        Owner::Frame { exec, depth: _ } => exec.home,
        Owner::Fields(object) => Home::Object(object),
    }
}
