// The events that are enabled at the executions of a task, and those that are pending there.

ghost use Rattle.std.specs.Prelude.{◌≡◌, length, OnOk, OnErr};
ghost use Rattle.uc_entry.specs.Keyed.{signed_64};
ghost use Rattle.uc_machine.specs.Executions.{change};
ghost use Rattle.uc_machine.specs.Switches.{links_changed};
ghost use Rattle.uc_machine.specs.Insides.{events_in, pending_at, raised_at, with_enabled};
ghost use Rattle.uc_frames.specs.Machine.{below, cell_number, loaded, pended, shifted, this_frame, written};
ghost use Rattle.uc_frames.specs.Unwinding.{event_at};

use crate::cell::{Cell, number_in};
use crate::event::{Event, event_number};
use crate::numbered::position;
use crate::work::Work;
use std::alloc::AllocError;
use uc_machine::exec::{Exec, Home, Pending};

impl Work {
    /// Only these events are enabled at the running execution. A cell of the frame of the running activation keeps which were.
    pub fn enable(&mut self, events: u64, cell: u32)
        ensures { self.new ≡ record self.old { env = with_enabled events (written (shifted cell (Cell.Place (this_frame self.old) 0)) (Cell.Number (signed_64 self.old.env.links.enabled)) self.old.env) } }
    {
        let before = signed(self.enabled());
        self.set(cell, Cell::Number(before));
        self.task.running.links.enabled = events;
    }

    /// Only those events are enabled there that such a cell keeps.
    pub fn restore(&mut self, cell: u32)
        ensures { self.new ≡ record self.old { env = with_enabled (events_in (cell_number (loaded (shifted cell (Cell.Place (this_frame self.old) 0)) self.old.env))) self.old.env } }
    {
        let kept = number_in(self.get(cell));
        self.task.running.links.enabled = unsigned(kept);
    }

    /// The event that stands below the newest operand.
    pub fn event_below(&self) -> Event
        ensures { result ≡ event_at (below self.now.run.operands) }
    {
        Event {
            number: event_number(self.below(3)),
            x: number_in(self.below(2)),
            y: number_in(self.below(1)),
        }
    }

    /// How many events are pending at an execution; none at one that is not in hand.
    pub fn pending_count(&self, exec: Exec) -> usize
        ensures { result ≡ length (pending_at exec self.now.env) }
    {
        if self.runs(exec) {
            return self.task.running.links.pending.len();
        }
        match self.parked(exec) {
            None => 0,
            Some(stack) => stack.stack.links.pending.len(),
        }
    }

    /// One more event is pending at an execution, if that is in hand.
    pub fn raise_at(&mut self, exec: Exec, event: Pending) -> Result<(), AllocError>
        ensures ok { OnOk result (self.new ≡ record self.old { env = raised_at exec event self.old.env }) }
        ensures err { OnErr result (self.new ≡ self.old) }
    {
        if self.runs(exec) {
            self.task.running.links.pending.push(event)?;
        } else {
            self.add_pending(exec, event)?;
        }
        Ok(())
    }

    fn add_pending(&mut self, exec: Exec, event: Pending) -> Result<(), AllocError>
        ensures ok { OnOk result (self.new ≡ record self.old { env = change exec.home (links_changed (pended event) exec.serial) self.old.env }) }
        ensures err { OnErr result (self.new ≡ self.old) }
    {
        match exec.home {
            Home::Task(task) => {
                if task == self.task.parts.own {
                    self.task.parts.house.add_pending(exec.serial, event)?;
                }
                Ok(())
            }
            Home::Object(object) => {
                if let Some(i) = position(&self.hand, u64::from(object)) {
                    let members = self.hand.get_mut(i);
                    members.1.house.add_pending(exec.serial, event)?;
                }
                Ok(())
            }
        }
    }
}

// A pattern of 64 bits as a number with a sign.
fn signed(bits: u64) -> i64
    ensures { result ≡ signed_64 bits }
{
    if bits < 9223372036854775808 {
        return bits as i64;
    }
    -((18446744073709551615 - bits) as i64) - 1
}

// The pattern of 64 bits that such a number is.
fn unsigned(number: i64) -> u64
    ensures { result ≡ events_in number }
{
    if number >= 0 {
        return number as u64;
    }
    18446744073709551615 - (-(number + 1)) as u64
}
