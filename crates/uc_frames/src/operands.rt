// The operands of the running activation.

ghost use Rattle.std.specs.Prelude.{◌≡◌, ◌∷◌, ◌++◌, drop, reverse, OnOk, OnErr};
ghost use Rattle.uc_frames.specs.Machine.{top, below};
ghost use Rattle.uc_frames.specs.Unwinding.{event_at};

use crate::cell::{Cell, number_in};
use crate::event::{Event, event_number};
use crate::work::Work;
use std::alloc::AllocError;

impl Work {
    /// One more operand.
    #[inline(always)]
    pub fn push(&mut self, cell: Cell) -> Result<(), AllocError>
        ensures ok { OnOk result (self.new ≡ record self.old { run = record self.old.run { operands = cell ∷ self.old.run.operands } }) }
        ensures err { OnErr result (self.new ≡ self.old) }
    {
        self.task.running.block.push(cell)?;
        Ok(())
    }

    /// These operands are the newest, the last one on top.
    pub fn push_all(&mut self, cells: &[Cell]) -> Result<(), AllocError>
        ensures ok { OnOk result (self.new ≡ record self.old { run = record self.old.run { operands = reverse cells.now ++ self.old.run.operands } }) }
        ensures err { OnErr result (self.new ≡ self.old) }
    {
        self.task.running.block.push_all(cells)?;
        Ok(())
    }

    /// Takes the newest operand; nothing where there is none.
    #[inline(always)]
    pub fn pop(&mut self) -> Cell
        ensures value { result ≡ top self.old.run.operands }
        ensures after { self.new ≡ record self.old { run = record self.old.run { operands = below self.old.run.operands } } }
    {
        let cell = self.task.running.block.pop();
        cell
    }

    /// Takes the event that the three newest operands are.
    pub fn pop_event(&mut self) -> Event
        ensures value { result ≡ event_at self.old.run.operands }
        ensures after { self.new ≡ record self.old { run = record self.old.run { operands = below (below (below self.old.run.operands)) } } }
    {
        let y = number_in(self.pop());
        let x = number_in(self.pop());
        let number = event_number(self.pop());
        Event { number, x, y }
    }

    /// The newest operand; nothing where there is none.
    #[inline(always)]
    pub fn top(&self) -> Cell
        ensures { result ≡ top self.now.run.operands }
    {
        self.below(0)
    }

    /// The operand below the newest one; nothing where there is none.
    #[inline(always)]
    pub fn second(&self) -> Cell
        ensures { result ≡ top (below self.now.run.operands) }
    {
        self.below(1)
    }

    /// The operand below so many of the newest ones; nothing where there is none.
    #[inline(always)]
    pub fn below(&self, count: u32) -> Cell
        ensures { result ≡ top (drop count self.now.run.operands) }
    {
        self.task.running.block.below(count)
    }

    /// Another operand in the place of the newest one, if there is one.
    #[inline(always)]
    pub fn replace(&mut self, cell: Cell) -> Result<(), AllocError>
        ensures ok { OnOk result (self.new ≡ record self.old { run = record self.old.run { operands = cell ∷ below self.old.run.operands } }) }
        ensures err { OnErr result (self.new ≡ self.old) }
    {
        self.task.running.block.replace(cell)?;
        Ok(())
    }

    /// Another operand in the place of the two newest ones, as far as there are any.
    #[inline(always)]
    pub fn replace_two(&mut self, cell: Cell) -> Result<(), AllocError>
        ensures ok { OnOk result (self.new ≡ record self.old { run = record self.old.run { operands = cell ∷ below (below self.old.run.operands) } }) }
        ensures err { OnErr result (self.new ≡ self.old) }
    {
        self.task.running.block.replace_two(cell)?;
        Ok(())
    }

    /// Another operand in the place of so many of the newest ones, as far as there are any.
    pub fn replace_many(&mut self, count: u32, cell: Cell) -> Result<(), AllocError>
        ensures ok { OnOk result (self.new ≡ record self.old { run = record self.old.run { operands = cell ∷ drop count self.old.run.operands } }) }
        ensures err { OnErr result (self.new ≡ self.old) }
    {
        self.task.running.block.replace_many(count, cell)?;
        Ok(())
    }
}
