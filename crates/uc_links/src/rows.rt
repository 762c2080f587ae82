//! The ends of members' entries, in rows: an object has one as long as it has entries.
ghost use Rattle.std.specs.Prelude.{◌≡◌};
ghost use Rattle.std.specs.Vec.{vec_capacity};
ghost use Rattle.uc_links.specs.Rows.{no_row, MayTake, Took};

use crate::chain::Ends;
use std::alloc::Global;

/// The members of an object are numbered below this.
pub const MEMBERS: usize = 32;

/// The ends of each member's entries.
#[derive(Drop)]
pub struct Row {
    pub(crate) members: [Ends; MEMBERS],
    // Of a free row, the next free one.
    pub(crate) next: Option<u32>,
}

/// All rows. A free one has no ends.
#[derive(Drop)]
pub struct Rows {
    pub(crate) list: Vec<Row, Global>,
    pub(crate) free: Option<u32>,
}

fn blank_row() -> Row
    ensures { result ≡ no_row }
{
    let none = Ends {
        first: None,
        last: None,
    };
    Row {
        members: [none; MEMBERS],
        next: None,
    }
}

/// Takes the first free row, or a new one where none is free, and returns its number.
pub(crate) fn take(rows: &mut Rows) -> u32
    requires { MayTake rows.old rows.old.free }
    ensures took { Took rows.old.free rows.old rows.new result }
    ensures capacity { vec_capacity rows.new.list ≡ vec_capacity rows.old.list }
{
    match rows.free {
        Some(row) => {
            rows.free = rows.list[row as usize].next;
            row
        }
        None => {
            let row = rows.list.len() as u32;
            rows.list.push_reserved(blank_row());
            row
        }
    }
}
