// The cells of an execution in one block.

ghost use Rattle.std.specs.Prelude.{◌≡◌, ◌∷◌, ◌++◌, ◌+◌, ◌-◌, ◌≤◌, [], length, drop, replicate, reverse, slice_index_or, slice_set, max, vec_capacity, IfOk, OnOk, OnErr, MatchOption, true, false};
ghost use Rattle.uc_machine.specs.Executions.{at_depth, frame_changed, list_in, values_cleared};
ghost use Rattle.uc_frames.specs.CellNumbers.{number_within};
ghost use Rattle.uc_frames.specs.declared.cell.Cell.{Cell};
ghost use Rattle.uc_frames.specs.Block.{frame_of, with_call, with_frame, with_return, without_call};
ghost use Rattle.uc_frames.specs.Calls.{call_frame};
ghost use Rattle.uc_frames.specs.Machine.{below, cell_written, nought, top};
ghost use Rattle.uc_frames.specs.Unwinding.{operands_of};

use crate::cell::{Cell, is_writable, number_in_place, write_over};
use crate::event::Event;
use crate::frames::{clear, zeros};
use std::alloc::{AllocError, Global};
use std::marker::Model;
use uc_code::rows::RoutineCode;

/// Where the cells of an activation lie: its frame from `base` up to `start`, its operands from there on. What lies below `floor`
/// is of older ones.
#[derive(Clone, Copy)]
pub struct Extent {
    pub floor: usize,
    pub base: usize,
    pub start: usize,
}

/// The frames and the operands of all activations of an execution, so that a call has its parameters where its caller put them.
#[derive(Drop)]
pub struct Block {
    alloc: Global,
    cells: Vec<Cell>,
    newest: Extent,
    older: Vec<Extent>,
}

impl Model for Block {
    ghost use Rattle.std.specs.Prelude.{◌∷◌, length, reverse};
    ghost use Rattle.uc_frames.specs.Block.{Adjoin, Contents, contents};

    ghost Value = { Contents };

    ghost view = { λ b. contents b.newest (reverse b.older.items) b.cells.items };

    ghost invariant = { λ b. Adjoin (b.newest ∷ reverse b.older.items) (length b.cells.items) };
}

impl Block {
    // One activation with a frame of so many cells that are 0.
    pub(crate) fn first(alloc: Global, cells: u32) -> Result<Block, AllocError>
        ensures { IfOk result (λ b. b ≡ record { operands = []; waiting = []; frames = replicate cells nought ∷ [] }) }
    {
        let zeros = zeros(alloc, cells)?;
        Ok(Block {
            alloc,
            cells: zeros,
            newest: Extent {
                floor: 0,
                base: 0,
                start: cells as usize,
            },
            older: Vec::new(alloc),
        })
    }

    // One more operand. What makes room stands apart and is handed no cell, so that this is small wherever it is used.
    #[inline(always)]
    pub(crate) fn push(&mut self, cell: Cell) -> Result<(), AllocError>
        ensures ok { OnOk result (self.new ≡ record self.old { operands = cell ∷ self.old.operands }) }
        ensures err { OnErr result (self.new ≡ self.old) }
    {
        have_room(&mut self.cells)?;
        self.cells.push_reserved(cell);
        Ok(())
    }

    // These operands are the newest, the last one on top.
    pub(crate) fn push_all(&mut self, cells: &[Cell]) -> Result<(), AllocError>
        ensures ok { OnOk result (self.new ≡ record self.old { operands = reverse cells.now ++ self.old.operands }) }
        ensures err { OnErr result (self.new ≡ self.old) }
    {
        self.cells.extend_from_slice(cells)?;
        Ok(())
    }

    // An event is the newest operands.
    pub(crate) fn push_event(&mut self, event: Event) -> Result<(), AllocError>
        ensures ok { OnOk result (self.new ≡ record self.old { operands = operands_of event ++ self.old.operands }) }
        ensures err { OnErr result (self.new ≡ self.old) }
    {
        self.cells.reserve(3)?;
        add_event(&mut self.cells, event);
        Ok(())
    }

    // Takes the newest operand; nothing where there is none.
    #[inline(always)]
    pub(crate) fn pop(&mut self) -> Cell
        ensures value { result ≡ top self.old.operands }
        ensures after { self.new ≡ record self.old { operands = below self.old.operands } }
    {
        let length = self.cells.len();
        if 0 < length - self.newest.start {
            let cell = self.cells[length - 1];
            self.cells.truncate(length - 1);
            cell
        } else {
            Cell::Nothing
        }
    }

    // The operand below so many of the newest ones; nothing where there is none.
    #[inline(always)]
    pub(crate) fn below(&self, count: u32) -> Cell
        ensures { result ≡ top (drop count self.now.operands) }
    {
        let count = count as usize;
        let length = self.cells.len();
        if count < length - self.newest.start {
            self.cells[length - 1 - count]
        } else {
            Cell::Nothing
        }
    }

    // The newest operand, if there is one.
    #[inline(always)]
    pub(crate) fn newest_operand(&self) -> Option<&Cell>
        ensures { MatchOption result (self.now.operands ≡ []) (λ c. top self.now.operands ≡ c.now) }
    {
        let length = self.cells.len();
        if 0 < length - self.newest.start {
            Some(&self.cells[length - 1])
        } else {
            None
        }
    }

    // All operands go.
    pub(crate) fn drop_all(&mut self)
        ensures { self.new ≡ record self.old { operands = [] } }
    {
        self.cells.truncate(self.newest.start);
    }

    // One operand in the place of all.
    #[inline(always)]
    pub(crate) fn replace_all(&mut self, cell: Cell) -> Result<(), AllocError>
        ensures ok { OnOk result (self.new ≡ record self.old { operands = cell ∷ [] }) }
        ensures err { OnErr result (self.new ≡ self.old) }
    {
        self.cells.reserve(1)?;
        self.cells.truncate(self.newest.start);
        self.cells.push_reserved(cell);
        Ok(())
    }

    // An event in the place of all operands.
    pub(crate) fn put_event(&mut self, event: Event) -> Result<(), AllocError>
        ensures ok { OnOk result (self.new ≡ record self.old { operands = operands_of event }) }
        ensures err { OnErr result (self.new ≡ self.old) }
    {
        self.cells.reserve(3)?;
        self.cells.truncate(self.newest.start);
        add_event(&mut self.cells, event);
        Ok(())
    }

    // One operand in the place of so many of the newest ones, as far as there are any.
    #[inline(never)]
    pub(crate) fn replace_many(&mut self, count: u32, cell: Cell) -> Result<(), AllocError>
        ensures ok { OnOk result (self.new ≡ record self.old { operands = cell ∷ drop count self.old.operands }) }
        ensures err { OnErr result (self.new ≡ self.old) }
    {
        let left = left_of(self.cells.len(), self.newest.start, count);
        self.cells.reserve(1)?;
        self.cells.truncate(left);
        self.cells.push_reserved(cell);
        Ok(())
    }

    // One operand in the place of the newest one, if there is one.
    #[inline(always)]
    pub(crate) fn replace(&mut self, cell: Cell) -> Result<(), AllocError>
        ensures ok { OnOk result (self.new ≡ record self.old { operands = cell ∷ below self.old.operands }) }
        ensures err { OnErr result (self.new ≡ self.old) }
    {
        let length = self.cells.len();
        if 0 < length - self.newest.start {
            self.cells[length - 1] = cell;
        } else {
            self.cells.push(cell)?;
        }
        Ok(())
    }

    // One operand in the place of the two newest ones, as far as there are any.
    #[inline(always)]
    pub(crate) fn replace_two(&mut self, cell: Cell) -> Result<(), AllocError>
        ensures ok { OnOk result (self.new ≡ record self.old { operands = cell ∷ below (below self.old.operands) }) }
        ensures err { OnErr result (self.new ≡ self.old) }
    {
        let length = self.cells.len();
        if 1 < length - self.newest.start {
            self.cells.truncate(length - 1);
            self.cells[length - 2] = cell;
        } else {
            self.replace_all(cell)?;
        }
        Ok(())
    }

    // Another operand below so many of the newest, if there is one.
    pub(crate) fn put_below(&mut self, count: u32, cell: Cell)
        ensures { self.new ≡ record self.old { operands = slice_set self.old.operands count cell } }
    {
        let count = count as usize;
        let length = self.cells.len();
        if count < length - self.newest.start {
            self.cells[length - 1 - count] = cell;
        }
    }

    // How many activations wait for the newest one.
    #[inline(always)]
    pub(crate) fn waiting(&self) -> usize
        ensures { result ≡ length self.now.waiting }
    {
        self.older.len()
    }

    // How many frames there are.
    #[inline(always)]
    pub(crate) fn depth(&self) -> usize
        ensures frames { result ≡ length self.now.frames }
        ensures waiting { result ≡ length self.now.waiting + 1 }
    {
        self.older.len() + 1
    }

    // The cell at a place of a frame, 0 where there is none. The oldest frame has depth 0.
    #[inline(always)]
    pub(crate) fn read(&self, depth: u32, at: u64) -> Cell
        ensures { result ≡ slice_index_or (list_in (at_depth self.now.frames depth)) at nought }
    {
        if depth as usize == self.older.len() {
            return cell_in(&self.cells, self.newest, at);
        }
        self.read_older(depth, at)
    }

    // The same where the frame is not the newest one. It stands apart, so that what reads the newest one stays small.
    #[inline(never)]
    fn read_older(&self, depth: u32, at: u64) -> Cell
        ensures { result ≡ slice_index_or (list_in (at_depth self.now.frames depth)) at nought }
    {
        self.read_at(depth, at)
    }

    // The number in a cell of a frame, if one is there; 0 where there is no cell.
    #[inline(always)]
    pub(crate) fn number(&self, depth: u32, at: u64) -> Option<i64>
        ensures { result ≡ number_within (slice_index_or (list_in (at_depth self.now.frames depth)) at nought) }
    {
        if depth as usize == self.older.len() {
            return number_at(&self.cells, self.newest, at);
        }
        self.number_older(depth, at)
    }

    // The same where the frame is not the newest one.
    #[inline(never)]
    fn number_older(&self, depth: u32, at: u64) -> Option<i64>
        ensures { result ≡ number_within (slice_index_or (list_in (at_depth self.now.frames depth)) at nought) }
    {
        self.number_of(depth, at)
    }

    // The same where the frame is most likely an older one.
    #[inline(always)]
    pub(crate) fn number_behind(&self, depth: u32, at: u64) -> Option<i64>
        ensures { result ≡ number_within (slice_index_or (list_in (at_depth self.now.frames depth)) at nought) }
    {
        let place = depth as usize;
        if place < self.older.len() {
            return number_at(&self.cells, self.older[place], at);
        }
        self.number_older(depth, at)
    }

    // The same where it may be either.
    #[inline(always)]
    fn number_of(&self, depth: u32, at: u64) -> Option<i64>
        ensures { result ≡ number_within (slice_index_or (list_in (at_depth self.now.frames depth)) at nought) }
    {
        match extent_at(self.newest, &self.older, depth) {
            None => Some(0),
            Some(extent) => number_at(&self.cells, extent, at),
        }
    }

    // What a cell of a frame holds, where the frame is as likely an older one.
    #[inline(always)]
    fn read_at(&self, depth: u32, at: u64) -> Cell
        ensures { result ≡ slice_index_or (list_in (at_depth self.now.frames depth)) at nought }
    {
        match self.cell(depth, at) {
            None => Cell::Number(0),
            Some(cell) => *cell,
        }
    }

    // The cell at a place of a frame, if there is one.
    #[inline(always)]
    pub(crate) fn cell(&self, depth: u32, at: u64) -> Option<&Cell>
        ensures { MatchOption result (slice_index_or (list_in (at_depth self.now.frames depth)) at nought ≡ nought) (λ c. slice_index_or (list_in (at_depth self.now.frames depth)) at nought ≡ c.now) }
    {
        match extent_at(self.newest, &self.older, depth) {
            None => None,
            Some(extent) => place_in(&self.cells, extent, at),
        }
    }

    // A cell is written at a place of a frame; a binding stays.
    #[inline(always)]
    pub(crate) fn write(&mut self, depth: u32, at: u64, cell: Cell)
        ensures { self.new ≡ record self.old { frames = frame_changed depth (cell_written at cell) self.old.frames } }
    {
        if let Some(extent) = extent_at(self.newest, &self.older, depth) {
            put_in(&mut self.cells, extent, at, cell);
        }
    }

    // A number is written at a place of a frame; a binding stays.
    #[inline(always)]
    pub(crate) fn write_number(&mut self, depth: u32, at: u64, number: i64)
        ensures { self.new ≡ record self.old { frames = frame_changed depth (cell_written at (Cell.Number number)) self.old.frames } }
    {
        if let Some(extent) = extent_at(self.newest, &self.older, depth) {
            put_number_in(&mut self.cells, extent, at, number);
        }
    }

    // The same, where the frame is most likely the newest one.
    #[inline(always)]
    pub(crate) fn write_newest(&mut self, depth: u32, at: u64, number: i64)
        ensures { self.new ≡ record self.old { frames = frame_changed depth (cell_written at (Cell.Number number)) self.old.frames } }
    {
        if depth as usize == self.older.len() {
            put_number_in(&mut self.cells, self.newest, at, number);
        } else {
            self.write_older(depth, at, number);
        }
    }

    // The same, where the frame is most likely an older one.
    #[inline(always)]
    pub(crate) fn write_behind(&mut self, depth: u32, at: u64, number: i64)
        ensures { self.new ≡ record self.old { frames = frame_changed depth (cell_written at (Cell.Number number)) self.old.frames } }
    {
        let place = depth as usize;
        if place < self.older.len() {
            let extent = self.older[place];
            put_number_in(&mut self.cells, extent, at, number);
        } else {
            self.write_older(depth, at, number);
        }
    }

    #[inline(never)]
    fn write_older(&mut self, depth: u32, at: u64, number: i64)
        ensures { self.new ≡ record self.old { frames = frame_changed depth (cell_written at (Cell.Number number)) self.old.frames } }
    {
        self.write_number(depth, at, number);
    }

    // So many cells of a frame are 0, from this one on.
    #[inline(always)]
    pub(crate) fn clear(&mut self, depth: u32, from: u32, count: u32)
        ensures { self.new ≡ record self.old { frames = frame_changed depth (values_cleared from count nought) self.old.frames } }
    {
        if let Some(extent) = extent_at(self.newest, &self.older, depth) {
            clear_in(&mut self.cells, extent, from, count);
        }
    }

    // A call of a routine that takes its parameters, the newest operands, where that needs no more room. The answer is whether it does not; else
    // all stays as it is.
    #[inline(always)]
    pub(crate) fn enter_bare(&mut self, routine: RoutineCode) -> bool
        ensures made { result ≡ true → self.new ≡ with_call routine.params (call_frame routine self.old.operands) self.old }
        ensures stays { result ≡ false → self.new ≡ self.old }
    {
        let params = routine.params as usize;
        let length = self.cells.len();
        if length - self.newest.start < params {
            return false;
        }
        if self.older.len() >= self.older.capacity() {
            return false;
        }
        let others = routine.cells.saturating_sub(routine.params);
        if !zeros_in_place(&mut self.cells, others) {
            return false;
        }
        self.older.push_reserved(self.newest);
        self.newest.floor = length - params;
        self.newest.base = length - params;
        self.newest.start = length + others as usize;
        true
    }

    // The same of a call that takes the object below its parameters too, which is put here.
    #[inline(always)]
    pub(crate) fn enter_on(&mut self, routine: RoutineCode, this: &mut Cell) -> bool
        ensures made { result ≡ true → self.new ≡ with_call (routine.params + 1) (call_frame routine self.old.operands) self.old }
        ensures object { result ≡ true → this.new ≡ top (drop routine.params self.old.operands) }
        ensures stays { result ≡ false → self.new ≡ self.old }
        ensures kept { result ≡ false → this.new ≡ this.old }
    {
        let params = routine.params as usize;
        let length = self.cells.len();
        if length - self.newest.start <= params {
            return false;
        }
        if self.older.len() >= self.older.capacity() {
            return false;
        }
        let others = routine.cells.saturating_sub(routine.params);
        if !zeros_in_place(&mut self.cells, others) {
            return false;
        }
        *this = self.cells[length - 1 - params];
        self.older.push_reserved(self.newest);
        self.newest.floor = length - 1 - params;
        self.newest.base = length - params;
        self.newest.start = length + others as usize;
        true
    }

    // A call of a routine that takes so many of the newest operands, its parameters among them.
    #[inline(always)]
    pub(crate) fn enter(&mut self, routine: RoutineCode, taken: u64) -> Result<(), AllocError>
        ensures ok { OnOk result (self.new ≡ with_call taken (call_frame routine self.old.operands) self.old) }
        ensures err { OnErr result (self.new ≡ self.old) }
    {
        let taken = taken as usize;
        let params = routine.params as usize;
        let length = self.cells.len();
        if length - self.newest.start < taken || taken < params {
            self.enter_with_copies(routine, taken)?;
            return Ok(());
        }
        let others = routine.cells.saturating_sub(routine.params);
        have_room(&mut self.older)?;
        add_zeros(&mut self.cells, others)?;
        self.older.push_reserved(self.newest);
        self.newest.floor = length - taken;
        self.newest.base = length - params;
        self.newest.start = length + others as usize;
        Ok(())
    }

    // The same where it takes fewer operands than it has parameters, or there are fewer.
    #[cold]
    #[inline(never)]
    fn enter_with_copies(&mut self, routine: RoutineCode, taken: usize) -> Result<(), AllocError>
        ensures ok { OnOk result (self.new ≡ with_call taken (call_frame routine self.old.operands) self.old) }
        ensures err { OnErr result (self.new ≡ self.old) }
    {
        let length = self.cells.len();
        let frame = new_frame(self.alloc, &self.cells[self.newest.start..], routine)?;
        self.older.reserve(1)?;
        self.cells.extend_from_slice(&frame)?;
        self.older.push_reserved(self.newest);
        self.newest = Extent {
            floor: length.saturating_sub(taken).max(self.newest.start),
            base: length,
            start: length + frame.len(),
        };
        Ok(())
    }

    // A handler begins with an event, and with an empty frame.
    pub(crate) fn enter_handler(&mut self, event: Event) -> Result<(), AllocError>
        ensures ok { OnOk result (self.new ≡ record (with_call 0 [] self.old) { operands = operands_of event }) }
        ensures err { OnErr result (self.new ≡ self.old) }
    {
        let length = self.cells.len();
        self.older.reserve(1)?;
        self.cells.reserve(3)?;
        add_event(&mut self.cells, event);
        self.older.push_reserved(self.newest);
        self.newest = Extent {
            floor: length,
            base: length,
            start: length,
        };
        Ok(())
    }

    // The newest activation is left, if another waits, which is handed this.
    pub(crate) fn leave(&mut self, given: Cell) -> Result<(), AllocError>
        ensures ok { OnOk result (self.new ≡ with_return (given ∷ []) self.old.waiting self.old) }
        ensures err { OnErr result (self.new ≡ self.old) }
    {
        have_room(&mut self.cells)?;
        if let Some(extent) = self.older.pop() {
            self.cells.truncate(self.newest.floor);
            self.cells.push_reserved(given);
            self.newest = extent;
        }
        Ok(())
    }

    // The same, where that one is handed nothing.
    #[inline(always)]
    pub(crate) fn leave_bare(&mut self)
        ensures { self.new ≡ with_return [] self.old.waiting self.old }
    {
        let waiting = self.older.len();
        if waiting > 0 {
            self.cells.truncate(self.newest.floor);
            self.newest = self.older[waiting - 1];
            self.older.truncate(waiting - 1);
        }
    }

    // The newest activation is left, if another waits, whose operands go.
    pub(crate) fn leave_unwinding(&mut self)
        ensures { self.new ≡ without_call self.old.waiting self.old }
    {
        if let Some(extent) = self.older.pop() {
            self.cells.truncate(extent.start);
            self.newest = extent;
        }
    }
}

// There is room for one more.
#[inline(always)]
fn have_room<X>(list: &mut Vec<X>) -> Result<(), AllocError>
    ensures items { list.new.items ≡ list.old.items }
    ensures room { OnOk result (length list.new.items + 1 ≤ vec_capacity list.new) }
{
    if list.len() < list.capacity() {
        return Ok(());
    }
    make_room(list)?;
    Ok(())
}

// Room is made for one more. It stands apart, since it is seldom needed.
#[cold]
#[inline(never)]
fn make_room<X>(list: &mut Vec<X>) -> Result<(), AllocError>
    ensures items { list.new.items ≡ list.old.items }
    ensures room { OnOk result (length list.new.items + 1 ≤ vec_capacity list.new) }
{
    list.reserve(1)?;
    Ok(())
}

// So many cells more that are 0, where there is room for them. The answer is whether there is; else they stay as they are.
#[inline(always)]
fn zeros_in_place(cells: &mut Vec<Cell>, count: u32) -> bool
    ensures made { result ≡ true → cells.new.items ≡ cells.old.items ++ replicate count nought }
    ensures stays { result ≡ false → cells.new.items ≡ cells.old.items }
{
    if count == 0 {
        return true;
    }
    zeros_within(cells, count)
}

#[inline(never)]
fn zeros_within(cells: &mut Vec<Cell>, count: u32) -> bool
    ensures made { result ≡ true → cells.new.items ≡ cells.old.items ++ replicate count nought }
    ensures stays { result ≡ false → cells.new.items ≡ cells.old.items }
{
    if cells.capacity() < cells.len() + count as usize {
        return false;
    }
    for _ in 0..count {
        cells.push_reserved(Cell::Number(0));
    }
    true
}

// So many cells more that are 0; most calls need none.
#[inline(always)]
fn add_zeros(cells: &mut Vec<Cell>, count: u32) -> Result<(), AllocError>
    ensures ok { OnOk result (cells.new.items ≡ cells.old.items ++ replicate count nought) }
    ensures err { OnErr result (cells.new.items ≡ cells.old.items) }
{
    if count == 0 {
        return Ok(());
    }
    grow(cells, count)?;
    Ok(())
}

#[inline(never)]
fn grow(cells: &mut Vec<Cell>, count: u32) -> Result<(), AllocError>
    ensures ok { OnOk result (cells.new.items ≡ cells.old.items ++ replicate count nought) }
    ensures err { OnErr result (cells.new.items ≡ cells.old.items) }
{
    cells.resize(cells.len() + count as usize, Cell::Number(0))?;
    Ok(())
}

// How many of so many cells are left without so many of those from `start` on.
#[inline(always)]
fn left_of(length: usize, start: usize, count: u32) -> usize
    ensures { result ≡ max (length - count) start }
{
    length.saturating_sub(count as usize).max(start)
}

// The extent of an activation.
#[inline(always)]
fn extent_at(newest: Extent, older: &Vec<Extent>, depth: u32) -> Option<Extent>
    ensures { result ≡ at_depth (newest ∷ reverse older.now.items) depth }
{
    let depth = depth as usize;
    let waiting = older.len();
    if depth == waiting {
        return Some(newest);
    }
    if depth < waiting {
        return Some(older[depth]);
    }
    None
}

// The cell at a place of the frame of an activation, 0 where there is none.
#[inline(always)]
fn cell_in(cells: &Vec<Cell>, extent: Extent, at: u64) -> Cell
    requires { (extent.base ≤ extent.start) × (extent.start ≤ length cells.now.items) }
    ensures { result ≡ slice_index_or (frame_of extent cells.now.items) at nought }
{
    let at = at as usize;
    if at < extent.start - extent.base {
        cells[extent.base + at]
    } else {
        Cell::Number(0)
    }
}

// The cell itself, if there is one.
#[inline(always)]
fn place_in(cells: &Vec<Cell>, extent: Extent, at: u64) -> Option<&Cell>
    requires { (extent.base ≤ extent.start) × (extent.start ≤ length cells.now.items) }
    ensures { MatchOption result (slice_index_or (frame_of extent cells.now.items) at nought ≡ nought) (λ c. slice_index_or (frame_of extent cells.now.items) at nought ≡ c.now) }
{
    let at = at as usize;
    if at < extent.start - extent.base {
        Some(&cells[extent.base + at])
    } else {
        None
    }
}

// The number in a cell of the frame of an activation, if one is there; 0 where there is no cell.
#[inline(always)]
fn number_at(cells: &Vec<Cell>, extent: Extent, at: u64) -> Option<i64>
    requires { (extent.base ≤ extent.start) × (extent.start ≤ length cells.now.items) }
    ensures { result ≡ number_within (slice_index_or (frame_of extent cells.now.items) at nought) }
{
    let at = at as usize;
    if at < extent.start - extent.base {
        number_in_place(&cells[extent.base + at])
    } else {
        Some(0)
    }
}

// A cell is written at a place of the frame of an activation, if there is one; a binding stays.
#[inline(always)]
fn put_in(cells: &mut Vec<Cell>, extent: Extent, at: u64, cell: Cell)
    requires { (extent.base ≤ extent.start) × (extent.start ≤ length cells.old.items) }
    ensures items { cells.new.items ≡ with_frame extent (cell_written at cell (frame_of extent cells.old.items)) cells.old.items }
    ensures len { length cells.new.items ≡ length cells.old.items }
{
    let at = at as usize;
    if at < extent.start - extent.base {
        let at = extent.base + at;
        if is_writable(&cells[at]) {
            cells[at] = cell;
        }
    }
}

// The same of a number.
#[inline(always)]
fn put_number_in(cells: &mut Vec<Cell>, extent: Extent, at: u64, number: i64)
    requires { (extent.base ≤ extent.start) × (extent.start ≤ length cells.old.items) }
    ensures items { cells.new.items ≡ with_frame extent (cell_written at (Cell.Number number) (frame_of extent cells.old.items)) cells.old.items }
    ensures len { length cells.new.items ≡ length cells.old.items }
{
    let at = at as usize;
    if at < extent.start - extent.base {
        write_over(&mut cells[extent.base + at], number);
    }
}

// The cells of the frame of an activation from a place on, so many of them as far as there are any, are 0.
#[inline(always)]
fn clear_in(cells: &mut Vec<Cell>, extent: Extent, from: u32, count: u32)
    requires { (extent.base ≤ extent.start) × (extent.start ≤ length cells.old.items) }
    ensures items { cells.new.items ≡ with_frame extent (values_cleared from count nought (frame_of extent cells.old.items)) cells.old.items }
    ensures len { length cells.new.items ≡ length cells.old.items }
{
    clear(&mut cells[extent.base..extent.start], from, count);
}

// An event behind these cells, where there is room for it.
fn add_event(cells: &mut Vec<Cell>, event: Event)
    requires { length cells.old.items + 3 ≤ vec_capacity cells.old }
    ensures { cells.new.items ≡ cells.old.items ++ reverse (operands_of event) }
{
    cells.push_reserved(Cell::Number(event.number as i64));
    cells.push_reserved(Cell::Number(event.x));
    cells.push_reserved(Cell::Number(event.y));
}

// The frame of a call: the newest of these operands are its parameters, nothing where there are none, and its other cells are 0.
fn new_frame(
    alloc: Global,
    operands: &[Cell],
    routine: RoutineCode,
) -> Result<Vec<Cell>, AllocError>
    ensures { IfOk result (λ cells. cells.items ≡ call_frame routine (reverse operands.now)) }
{
    let params = routine.params as usize;
    let others = routine.cells.saturating_sub(routine.params) as usize;
    let mut cells = Vec::new(alloc);
    cells.resize(params.saturating_sub(operands.len()), Cell::Nothing)?;
    cells.extend_from_slice(&operands[operands.len().saturating_sub(params)..])?;
    cells.resize(cells.len() + others, Cell::Number(0))?;
    Ok(cells)
}
