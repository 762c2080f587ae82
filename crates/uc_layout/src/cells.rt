// The cells of classes. Sums stand still at the greatest number.

ghost use Rattle.std.specs.Prelude.{◌≡◌, ◌<◌, ◌↔◌, ℕ, IfOk, IsTrue, length, true};
ghost use Rattle.uc_tree.specs.Capped.{capped};
ghost use Rattle.uc_tree.specs.Rows.{element_cells, held_cells, row_cells};
ghost use Rattle.uc_layout.specs.ContainmentProgress.{AreCircles, flag_at};
ghost use Rattle.uc_layout.specs.SettledClasses.{Settled};
ghost use Rattle.uc_layout.specs.CellTables.{cell_at, Follows, Counted};

use crate::settle::Settlement;
use std::alloc::{AllocError, Global};
use uc_tree::rows::{ClassLayout, FieldClass, FieldLayout};

/// The cells of one element, by a table of the cells of classes.
pub fn element_cells(cells: &[u64], object: Option<FieldClass>) -> u64
    ensures { result ≡ element_cells (cell_at cells.now) object }
{
    match object {
        Some(object) => {
            if !object.plain {
                1
            } else if object.class < cells.len() {
                cells[object.class]
            } else {
                0
            }
        }
        None => 1,
    }
}

fn held_cells(cells: &[u64], held: &FieldLayout) -> u64
    ensures { result ≡ capped (held_cells (cell_at cells.now) held.now) }
{
    u64::from(held.count).saturating_mul(element_cells(cells, held.object))
}

/// The cells of a class, by a table of those of the classes of its fields.
pub fn row_cells(cells: &[u64], row: &ClassLayout) -> u64
    ensures { result ≡ capped (row_cells (cell_at cells.now) row.now) }
{
    let mut sum = u64::from(row.leading);
    for held in &row.held {
        sum = sum.saturating_add(held_cells(cells, held));
    }
    sum
}

fn next_cells(
    alloc: Global,
    rows: &[ClassLayout],
    circles: &[bool],
    cells: &[u64],
) -> Result<Vec<u64>, AllocError>
    requires full { length circles.now ≡ length rows.now }
    ensures full { IfOk result (λ v. length v.items ≡ length rows.now) }
    ensures follows { IfOk result (λ v. Follows rows.now circles.now cells.now v.items
        (length rows.now)) }
{
    let mut next = Vec::new(alloc);
    for (place, row) in rows.iter().enumerate() {
        let sum = if circles[place] {
            0
        } else {
            row_cells(cells, row)
        };
        next.push(sum)?;
    }
    Ok(next)
}

fn is_same(a: &[u64], b: &[u64]) -> bool
    ensures { IsTrue result ↔ (a.now ≡ b.now) }
{
    a == b
}

// The cells of each class, of which these have themselves in their fields, counted deeper and deeper.
fn counted_cells(
    alloc: Global,
    rows: &[ClassLayout],
    circles: &[bool],
) -> Result<Vec<u64>, AllocError>
    requires full { length circles.now ≡ length rows.now }
    requires flags { AreCircles rows.now circles.now (length rows.now) }
    ensures { IfOk result (λ v. Counted (length rows.now) rows.now v.items) }
{
    let mut cells = vec![in alloc; 0; rows.len()]?;
    for _depth in 0..rows.len() {
        let next = next_cells(alloc, rows, circles, &cells)?;
        if is_same(&next, &cells) {
            return Ok(next);
        }
        cells = next;
    }
    Ok(cells)
}

fn are_all(flags: &[bool]) -> bool
    ensures { IsTrue result → (i : ℕ) → i < length flags.now → flag_at flags.now i ≡ true }
{
    for flag in flags {
        if !*flag {
            return false;
        }
    }
    true
}

/// The cells of each class, of which these have themselves in their fields.
pub fn cells_of(
    alloc: Global,
    rows: &[ClassLayout],
    circles: &[bool],
    settled: Settlement,
) -> Result<Vec<u64>, AllocError>
    requires full { length circles.now ≡ length rows.now }
    requires flags { AreCircles rows.now circles.now (length rows.now) }
    requires settled { Settled rows.now settled.flags.items settled.cells.items }
    requires settled_flags { length settled.flags.items ≡ length rows.now }
    requires settled_cells { length settled.cells.items ≡ length rows.now }
    ensures { IfOk result (λ v. Counted (length rows.now) rows.now v.items) }
{
    if are_all(&settled.flags) {
        return Ok(settled.cells);
    }
    let cells = counted_cells(alloc, rows, circles)?;
    Ok(cells)
}
