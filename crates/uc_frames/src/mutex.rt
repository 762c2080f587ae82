// A task at mutex objects: its calls, what it builds, and the new objects that come into its hand.

ghost use Rattle.std.specs.Prelude.{◌≡◌, ◌≤◌, ◌++◌, [], drop, IfOk, OnOk, OnErr, false};
ghost use Rattle.uc_machine.specs.Executions.{take_operands};
ghost use Rattle.uc_machine.specs.Pieces.{is_zero};
ghost use Rattle.uc_entry.specs.Keyed.{find};
ghost use Rattle.uc_machine.specs.Insides.{build_begun, build_ended, call_begun, call_ended, call_gone};
ghost use Rattle.uc_frames.specs.Machine.{first_machine, top, below, cell_number};
ghost use Rattle.uc_frames.specs.Objects.{bound, guard_bit, mask_of, with_object};
ghost use Rattle.uc_frames.specs.Unwinding.{failure, operands_of};

use crate::cell::{Cell, number_in};
use crate::members::Members;
use crate::task::Task;
use crate::work::Work;
use std::alloc::AllocError;
use uc_code::rows::RoutineCode;
use uc_tree::limits::FAILURE;

impl Work {
    /// A new task whose object is `own`, as its main begins, inside its object alone.
    pub fn child(&self, main: RoutineCode, own: u32) -> Result<Task, AllocError>
        ensures { IfOk result (λ t. t ≡ first_machine main own) }
    {
        let child = Task::first(self.task.parts.alloc, main, own)?;
        Ok(child)
    }

    /// How deep the task is in an object, if it is inside.
    pub fn depth(&self, object: u32) -> Option<u32>
        ensures { result ≡ find object self.now.env.depths }
    {
        self.task.parts.depths.at(object)
    }

    /// A mutex call of an object begins. Counts at their most have want of memory.
    pub fn begin_call(&mut self, object: u32) -> Result<(), AllocError>
        ensures ok { OnOk result (self.new ≡ record self.old { env = call_begun object self.old.env }) }
        ensures err { OnErr result (self.new ≡ self.old) }
    {
        let task = &mut self.task;
        if task.running.links.mutex_calls == u32::MAX {
            return Err(AllocError);
        }
        task.parts.depths.deepen(object)?;
        task.running.links.mutex_calls += 1;
        Ok(())
    }

    /// A mutex call of an object ends.
    pub fn end_call(&mut self, object: u32)
        ensures { self.new ≡ record self.old { env = call_ended object self.old.env } }
    {
        let task = &mut self.task;
        task.parts.depths.lessen(object);
        task.running.links.mutex_calls = task.running.links.mutex_calls.saturating_sub(1);
    }

    /// The mutex call in which an object is destroyed ends.
    pub fn end_gone(&mut self, object: u32)
        ensures { self.new ≡ record self.old { env = call_gone object self.old.env } }
    {
        self.task.parts.depths.leave(object);
        let links = &mut self.task.running.links;
        links.mutex_calls = links.mutex_calls.saturating_sub(1);
    }

    /// The building of a mutex object begins. Counts at their most have want of memory.
    pub fn begin_build(&mut self) -> Result<(), AllocError>
        ensures ok { OnOk result (self.new ≡ record self.old { env = build_begun self.old.env }) }
        ensures err { OnErr result (self.new ≡ self.old) }
    {
        let links = &mut self.task.running.links;
        if links.builds == u32::MAX {
            return Err(AllocError);
        }
        links.builds += 1;
        Ok(())
    }

    /// The building of an object ends.
    pub fn end_build(&mut self, object: u32)
        ensures { self.new ≡ record self.old { env = build_ended object self.old.env } }
    {
        let task = &mut self.task;
        task.parts.depths.leave(object);
        task.running.links.builds = task.running.links.builds.saturating_sub(1);
    }

    /// The place below the arguments of a routine is bound to the newest operand, which goes and stands there.
    pub fn bind_made(&mut self, routine: RoutineCode)
        ensures { self.new ≡ bound routine self.old }
    {
        let made = self.pop();
        let place = self.below(routine.params);
        self.task.running.block.put_below(routine.params, made);
        self.write(place, made);
    }

    /// A new object with so many cells is the last in hand, and the task is inside it.
    pub fn add_object(&mut self, cells: u32, object: u32) -> Result<(), AllocError>
        ensures ok { OnOk result (self.new ≡ with_object cells object self.old) }
        ensures err { OnErr result (self.new ≡ self.old) }
    {
        self.hand.room()?;
        let members = Members::new(self.task.parts.alloc, cells)?;
        self.task.parts.depths.enter(object)?;
        self.hand.push((u64::from(object), members));
        Ok(())
    }

    /// So many guards of an accept statement, the newest operand the last one, as bits: the first one is lowest.
    pub fn guards(&self, count: u32) -> u32
        requires { count ≤ 32 }
        ensures { result ≡ mask_of (take_operands Cell.Nothing count self.now.run.operands []) }
    {
        let mut mask = 0;
        for i in 0..count {
            mask = mask * 2 + guard_bit(self.below(i));
        }
        mask
    }

    /// The event of a failed call is the newest operands in the place of the newest one, which tells that it has failed.
    pub fn put_failure(&mut self) -> Result<(), AllocError>
        requires { is_zero (cell_number (top self.old.run.operands)) ≡ false }
        ensures ok { OnOk result (self.new ≡ record self.old { run = record self.old.run { operands = operands_of failure ++ below self.old.run.operands } }) }
        ensures err { OnErr result (self.new ≡ self.old) }
    {
        self.push_all(&[Cell::Number(0), Cell::Number(0)])?;
        let failure = Cell::Number(i64::from(FAILURE));
        self.task.running.block.put_below(2, failure);
        Ok(())
    }
}

// 1 of a true guard, else 0.
fn guard_bit(guard: Cell) -> u32
    ensures { result ≡ guard_bit guard }
{
    if number_in(guard) == 0 { 0 } else { 1 }
}
