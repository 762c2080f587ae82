// Cells of a frame, or of the fields of an object.

ghost use Rattle.std.specs.Prelude.{◌≡◌, length, replicate, IfOk, slice_index_or};
ghost use Rattle.uc_machine.specs.Executions.{values_cleared};
ghost use Rattle.uc_frames.specs.Machine.{nought, cell_written};

use crate::cell::{Cell, is_writable};
use std::alloc::{AllocError, Global};

// So many cells that are 0.
pub(crate) fn zeros(alloc: Global, cells: u32) -> Result<Vec<Cell>, AllocError>
    ensures { IfOk result (λ cs. cs.items ≡ replicate cells nought) }
{
    let mut all = Vec::new(alloc);
    all.resize(cells as usize, Cell::Number(0))?;
    Ok(all)
}

// A cell is written at a place, if there is one.
pub(crate) fn put(cells: &mut [Cell], at: u64, cell: Cell)
    ensures { cells.new ≡ cell_written at cell cells.old }
{
    let at = at as usize;
    if at < cells.len() {
        if is_writable(&cells[at]) {
            cells[at] = cell;
        }
    }
}

// The cells from a place on, so many of them as far as there are any, are 0.
#[inline(always)]
pub(crate) fn clear(cells: &mut [Cell], from: u32, count: u32)
    ensures { cells.new ≡ values_cleared from count nought cells.old }
{
    let from = cells.len().min(from as usize);
    let to = cells.len().min(from + count as usize);
    zero(&mut cells[from..to]);
}

#[inline(always)]
fn zero(cells: &mut [Cell])
    ensures { cells.new ≡ replicate (length cells.old) nought }
{
    for i in 0..cells.len() {
        cells[i] = Cell::Number(0);
    }
}
