// What a cell holds.

ghost use Rattle.std.specs.Prelude.{◌≡◌, if◌then◌else◌, true};
ghost use Rattle.uc_frames.specs.CellNumbers.{number_within};
ghost use Rattle.uc_frames.specs.declared.cell.Cell.{Cell};
ghost use Rattle.uc_frames.specs.Machine.{cell_number, exec_in as exec_named, shifted, stored};

use uc_machine::exec::{Exec, Owner};

/// A number; a place, by what holds it and the cells before it there; an execution; a mutex object; or nothing.
#[derive(Clone, Copy)]
pub enum Cell {
    Number(i64),
    Place(Owner, u64),
    Running(Exec),
    Object(u32),
    Nothing,
}

/// A cell as a number; 0 where it holds none.
pub fn number_in(cell: Cell) -> i64
    ensures { result ≡ cell_number cell }
{
    match cell {
        Cell::Number(n) => n,
        Cell::Place(_, _) => 0,
        Cell::Running(_) => 0,
        Cell::Object(_) => 0,
        Cell::Nothing => 0,
    }
}

/// The execution that a cell names, if it names one.
#[inline(always)]
pub fn exec_in(cell: Cell) -> Option<Exec>
    ensures { result ≡ exec_named cell }
{
    match cell {
        Cell::Number(_) => None,
        Cell::Place(_, _) => None,
        Cell::Running(exec) => Some(exec),
        Cell::Object(_) => None,
        Cell::Nothing => None,
    }
}

/// The place so many cells on, at most the last address; in a mutex object that of its fields. Nothing where the cell is no place.
pub fn further_on(by: u64, cell: Cell) -> Cell
    ensures { result ≡ shifted by cell }
{
    match cell {
        Cell::Number(_) => Cell::Nothing,
        Cell::Place(owner, at) => Cell::Place(owner, at.saturating_add(by)),
        Cell::Running(_) => Cell::Nothing,
        Cell::Object(object) => Cell::Place(Owner::Fields(object), by),
        Cell::Nothing => Cell::Nothing,
    }
}

// The number that a cell holds, if it holds one.
#[inline(always)]
pub(crate) fn number_in_place(cell: &Cell) -> Option<i64>
    ensures { result ≡ number_within cell.now }
{
    match cell {
        Cell::Number(n) => Some(*n),
        _ => None,
    }
}

// Whether a cell holds nothing.
#[inline(always)]
pub(crate) fn is_nothing(cell: &Cell) -> bool
    ensures { result ≡ true → cell.now ≡ Cell.Nothing }
{
    match cell {
        Cell::Nothing => true,
        _ => false,
    }
}

// Whether another cell may be written over this one: a binding stays.
#[inline(always)]
pub(crate) fn is_writable(old: &Cell) -> bool
    ensures { (cell : Cell) → stored cell old.now ≡ (if result then cell else old.now) }
{
    match old {
        Cell::Number(_) => true,
        Cell::Place(_, _) => false,
        Cell::Running(_) => false,
        Cell::Object(_) => false,
        Cell::Nothing => true,
    }
}

// A number is written over a cell; a binding stays. Over a number it is most likely.
#[inline(always)]
pub(crate) fn write_over(cell: &mut Cell, number: i64)
    ensures { cell.new ≡ stored (Cell.Number number) cell.old }
{
    match cell {
        Cell::Number(n) => *n = number,
        _ => write_seldom(cell, number),
    }
}

#[cold]
#[inline(never)]
fn write_seldom(cell: &mut Cell, number: i64)
    ensures { cell.new ≡ stored (Cell.Number number) cell.old }
{
    if is_writable(cell) {
        *cell = Cell::Number(number);
    }
}
