// An execution that does not run.

ghost use Rattle.std.specs.Prelude.{◌≡◌, IfOk, OnOk, OnErr, MatchOption, slice_index_or};
ghost use Rattle.uc_machine.specs.Executions.{at_depth, list_in, frame_changed};
ghost use Rattle.uc_frames.specs.Machine.{nought, cell_written, fresh_execution, lively, pended};

use crate::cell::Cell;
use crate::stack::Stack;
use std::alloc::{AllocError, Global};
use std::marker::Model;
use uc_code::rows::RoutineCode;
use uc_machine::exec::{Pending, Stage};

/// A stack in a place of its own, so that it is handed on without being moved. Contracts see the stack.
#[derive(Drop)]
pub struct ParkedStack {
    pub(crate) stack: Box<Stack>,
}

impl Model for ParkedStack {
    ghost use Rattle.std.specs.Prelude.{ℕ};
    ghost use Rattle.uc_machine.specs.Executions.{Execution};
    ghost use Rattle.uc_frames.specs.declared.cell.Cell.{Cell};

    ghost Value = { Execution ℕ Cell };

    ghost view = { λ p. p.stack.value };
}

impl ParkedStack {
    // An execution for this object, whose main has not begun.
    pub(crate) fn fresh(
        alloc: Global,
        routine: RoutineCode,
        this: Cell,
    ) -> Result<ParkedStack, AllocError>
        ensures { IfOk result (λ p. p ≡ fresh_execution routine this) }
    {
        let mut stack = Stack::first(alloc, routine, this)?;
        stack.links.stage = Stage::Fresh;
        let stack = Box::new(alloc, stack)?;
        Ok(ParkedStack { stack })
    }

    // The cell at a place of a frame, if there is one. The oldest frame has depth 0.
    pub(crate) fn cell(&self, depth: u32, at: u64) -> Option<&Cell>
        ensures { MatchOption result (slice_index_or (list_in (at_depth self.now.frames depth)) at nought ≡ nought) (λ c. slice_index_or (list_in (at_depth self.now.frames depth)) at nought ≡ c.now) }
    {
        self.stack.block.cell(depth, at)
    }

    // A cell is written at a place of a frame; a binding stays.
    pub(crate) fn write(&mut self, depth: u32, at: u64, cell: Cell)
        ensures { self.new ≡ record self.old { frames = frame_changed depth (cell_written at cell) self.old.frames } }
    {
        self.stack.block.write(depth, at, cell);
    }

    // Its coroutine is live; or it is no more, and its main does not begin, or go on, any more.
    pub(crate) fn set_live(&mut self, live: bool)
        ensures { self.new ≡ record self.old { links = lively live self.old.links } }
    {
        self.stack.links.set_live(live);
    }

    // One more event is pending.
    pub(crate) fn add_pending(&mut self, event: Pending) -> Result<(), AllocError>
        ensures ok { OnOk result (self.new ≡ record self.old { links = pended event self.old.links }) }
        ensures err { OnErr result (self.new ≡ self.old) }
    {
        self.stack.links.pending.push(event)?;
        Ok(())
    }
}
