// Which row covers the op before each place.

ghost use Rattle.std.specs.Prelude.{◌≡◌, ◌≤◌, ◌<◌, ◌^◌, length, IfOk};
ghost use Rattle.uc_code.specs.Layout.{covers as covers_by};
ghost use Rattle.uc_code.specs.RowTable.{covering_from, IsTable, IsFree, Filled, FirstFree};
ghost use Rattle.uc_code.specs.declared.rows.TheConstants.{OPEN_END};

use crate::rows::HandlerRow;
use std::alloc::{AllocError, Global};

/// For each of so many places the newest row that covers the op before it, by its number plus 1, or 0 where none does.
pub(crate) fn rows_by_place(
    alloc: Global,
    rows: &[HandlerRow],
    places: u32,
) -> Result<Vec<u32>, AllocError>
    requires { length rows.now ≤ OPEN_END }
    ensures { IfOk result (λ table. IsTable rows.now table.items) }
{
    let mut table = Vec::new(alloc);
    table.resize(places as usize, 0)?;
    // for each place the first one from there on of which no row is known
    let mut free = Vec::new(alloc);
    for place in 0..places {
        free.push(place)?;
    }
    let mut name = rows.len();
    while 0 < name {
        fill(&mut table, &mut free, rows[name - 1], name as u32);
        name -= 1;
    }
    Ok(table)
}

// A row is that of all places that it covers and of which none is known.
fn fill(table: &mut Vec<u32>, free: &mut Vec<u32>, row: HandlerRow, name: u32)
    requires free { IsFree table.old.items free.old.items }
    requires named { 0 < name }
    requires few { length table.old.items ≤ OPEN_END }
    ensures free { IsFree table.new.items free.new.items }
    ensures filled { Filled row name table.old.items table.new.items }
{
    let mut place = first_free(free, row.from as usize + 1);
    while place < table.len() && place <= row.to as usize {
        table[place] = name;
        free[place] = place as u32 + 1;
        place = first_free(free, place + 1);
    }
}

// The first place from this one on of which no row is known.
fn first_free(free: &mut Vec<u32>, from: usize) -> usize
    ensures { FirstFree from free.old.items free.new.items result }
{
    let mut at = from;
    while at < free.len() {
        let next = free[at] as usize;
        if next <= at {
            return at;
        }
        if next < free.len() {
            free[at] = free[next];
        }
        at = next;
    }
    at
}

/// The newest row that covers the op before a place, by its number plus 1, or 0.
pub(crate) fn covering(rows: &[HandlerRow], next: u32) -> u32
    requires { length rows.now ≤ OPEN_END }
    ensures { result ≡ covering_from 0 rows.now next }
{
    let mut name = rows.len();
    while 0 < name {
        if covers(rows[name - 1], next) {
            return name as u32;
        }
        name -= 1;
    }
    0
}

fn covers(row: HandlerRow, next: u32) -> bool
    ensures { result ≡ covers_by row next }
{
    row.from < next && next <= row.to
}
