// Classes settled one after another, each behind those of its fields, with their cells. In a program that breaks no rule all
// classes are settled, each looked at once; what has itself in its fields, or leads to such a class, stays unsettled.

ghost use Rattle.std.specs.Prelude.{◌≡◌, ◌<◌, IfOk, IsTrue, length, replicate, false, true};
ghost use Rattle.std.specs.List.{list_all};
ghost use Rattle.uc_layout.specs.ContainmentProgress.{flag_at};
ghost use Rattle.uc_layout.specs.SettledClasses.{Settled, held_settled};

use crate::cells::row_cells;
use std::alloc::{AllocError, Global};
use uc_tree::rows::{ClassLayout, FieldLayout};

/// Which classes are settled, and their cells.
#[derive(Drop)]
pub struct Settlement {
    pub flags: Vec<bool>,
    pub cells: Vec<u64>,
}

fn is_settled(flags: &[bool], held: &FieldLayout) -> bool
    ensures { result ≡ held_settled (flag_at flags.now) held.now }
{
    match held.object {
        Some(object) => object.class < flags.len() && flags[object.class],
        None => true,
    }
}

fn are_settled(flags: &[bool], held: &[FieldLayout]) -> bool
    ensures { result ≡ list_all (held_settled (flag_at flags.now)) held.now }
{
    held.iter().all(|h| is_settled(flags, h))
}

// Settles a class, where those of its fields are settled; says whether it did.
fn settle(rows: &[ClassLayout], flags: &mut [bool], cells: &mut [u64], place: usize) -> bool
    requires inside { place < length rows.now }
    requires full { length flags.old ≡ length rows.now }
    requires room { length cells.old ≡ length rows.now }
    requires settled { Settled rows.now flags.old cells.old }
    ensures settled { Settled rows.now flags.new cells.new }
{
    if flags[place] {
        return false;
    }
    let row = &rows[place];
    if are_settled(flags, &row.held) {
        cells[place] = row_cells(cells, row);
        flags[place] = true;
        return true;
    }
    false
}

// For each class how many of its fields hold a class.
fn counts_of(alloc: Global, rows: &[ClassLayout]) -> Result<Vec<usize>, AllocError> {
    let mut counts = Vec::new(alloc);
    for row in rows {
        let mut count = 0_usize;
        for held in &row.held {
            if held.object.is_some() {
                count = count.saturating_add(1);
            }
        }
        counts.push(count)?;
    }
    Ok(counts)
}

// Takes one from the count of each of these, and adds those of which none is left to the work.
fn count_down(
    counts: &mut [usize],
    holders: &[usize],
    work: &mut Vec<usize>,
) -> Result<(), AllocError> {
    for holder in holders {
        if let Some(count) = counts.get_mut(*holder) {
            *count = count.saturating_sub(1);
            if *count == 0 {
                work.push(*holder)?;
            }
        }
    }
    Ok(())
}

// The classes that hold none.
fn first_work(alloc: Global, counts: &[usize]) -> Result<Vec<usize>, AllocError> {
    let mut work = Vec::new(alloc);
    for (place, count) in counts.iter().enumerate() {
        if *count == 0 {
            work.push(place)?;
        }
    }
    Ok(work)
}

// Settles what can be: each class once those of its fields are settled.
fn settle_all(
    alloc: Global,
    rows: &[ClassLayout],
    holders: &[Vec<usize>],
    flags: &mut [bool],
    cells: &mut [u64],
) -> Result<(), AllocError>
    requires full { length flags.old ≡ length rows.now }
    requires room { length cells.old ≡ length rows.now }
    requires settled { Settled rows.now flags.old cells.old }
    ensures settled { Settled rows.now flags.new cells.new }
{
    let mut counts = counts_of(alloc, rows)?;
    let mut work = first_work(alloc, &counts)?;
    for _step in 0..rows.len() {
        let class = match work.pop() {
            Some(class) => class,
            None => return Ok(()),
        };
        if class < rows.len() && settle(rows, flags, cells, class) {
            if let Some(list) = holders.get(class) {
                count_down(&mut counts, list, &mut work)?;
            }
        }
    }
    Ok(())
}

/// What can be settled of these classes.
pub fn settle_classes(
    alloc: Global,
    rows: &[ClassLayout],
    holders: &[Vec<usize>],
) -> Result<Settlement, AllocError>
    ensures full { IfOk result (λ s. length s.flags.items ≡ length rows.now) }
    ensures room { IfOk result (λ s. length s.cells.items ≡ length rows.now) }
    ensures settled { IfOk result (λ s. Settled rows.now s.flags.items s.cells.items) }
{
    let mut flags = vec![in alloc; false; rows.len()]?;
    let mut cells = vec![in alloc; 0; rows.len()]?;
    settle_all(alloc, rows, holders, &mut flags, &mut cells)?;
    Ok(Settlement { flags, cells })
}
