// The accepts that are open.

ghost use Rattle.std.specs.Prelude.{◌≡◌, ◌++◌, ◌∷◌, [], OnOk, None, unwrap_or};
ghost use Rattle.std.specs.Ordering.{nat_cmp};
ghost use Rattle.std.specs.BTreeMap.{get};
ghost use Rattle.uc_acts.specs.Journal.{Journal};
ghost use Rattle.uc_acts.specs.Doors.{open_at};
ghost use Rattle.uc_judge.specs.Opened.{AreAccepts, opened_of, opened_by};

use crate::effects::number;
use std::alloc::{AllocError, Global};
use std::collections::BTreeMap;
use uc_entry::entry::{Entry, EntryKind};

/// An accept that is open: the task that accepts, the number of the accept statement, and its true clauses.
#[derive(Clone, Copy)]
pub struct OpenAccept {
    pub task: u32,
    pub site: u64,
    pub mask: u64,
}

/// The accepts that are open behind the entries that were added.
#[derive(Drop)]
pub struct Accepts {
    opened: BTreeMap<u32, Option<OpenAccept>>,
}

impl Accepts {
    /// Of a journal without entries.
    pub fn new(alloc: Global) -> Accepts
        ensures { AreAccepts result [] }
    {
        Accepts {
            opened: BTreeMap::new(alloc),
        }
    }

    /// Adds the next entry of the journal. After want of memory it is spent.
    pub fn add(&mut self, e: &Entry) -> Result<(), AllocError>
        ensures { OnOk result ((j : Journal) → AreAccepts self.old j →
            AreAccepts self.new (j ++ e.now ∷ [])) }
    {
        let behind = opened_behind(e, value_at(&self.opened, e.object));
        let _before = self.opened.insert(e.object, behind)?;
        Ok(())
    }

    /// The accept that is open at an object.
    pub fn open_at(&self, object: u32) -> Option<OpenAccept>
        ensures { (j : Journal) → AreAccepts self.now j → result ≡ opened_of (open_at object j) }
    {
        value_at(&self.opened, object)
    }
}

fn value_at(opened: &BTreeMap<u32, Option<OpenAccept>>, object: u32) -> Option<OpenAccept>
    ensures { result ≡ unwrap_or (get nat_cmp opened.now object) None }
{
    match opened.get(&object) {
        Some(accept) => *accept,
        None => None,
    }
}

// The accept that is open at the object of an entry behind it, where this one was before.
fn opened_behind(e: &Entry, before: Option<OpenAccept>) -> Option<OpenAccept>
    ensures { result ≡ opened_by e.now.kind e.now before }
{
    match e.kind {
        EntryKind::Accept => {
            if e.d == 0 {
                return Some(OpenAccept {
                    task: e.task,
                    site: number(e.a),
                    mask: number(e.b),
                });
            }
            before
        }
        EntryKind::Admit => None,
        _ => before,
    }
}
