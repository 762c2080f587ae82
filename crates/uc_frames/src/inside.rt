// How deep a task is in each object that it is inside.

ghost use Rattle.std.specs.Prelude.{◌≡◌, ◌∷◌, [], reverse, None, IfOk, OnOk, OnErr, MatchOption};
ghost use Rattle.uc_entry.specs.Keyed.{find};
ghost use Rattle.uc_machine.specs.Insides.{deeper, shallower};
ghost use Rattle.uc_machine.specs.Switches.{without};
ghost use Rattle.uc_frames.specs.Numbered.{IsNewest};

use std::alloc::{AllocError, Global};
use std::marker::Model;

/// The objects that a task is inside with its depth in each, the newest last, since objects are left in the reverse of the order of their
/// entering. Contracts see the newest first.
#[derive(Drop)]
pub struct Depths {
    rows: Vec<(u32, u32)>,
}

impl Model for Depths {
    ghost use Rattle.std.specs.Prelude.{ℕ, List, reverse};

    ghost Value = { List (ℕ × ℕ) };

    ghost view = { λ d. reverse d.rows.items };
}

impl Depths {
    /// Inside this object alone, once.
    pub fn first(alloc: Global, object: u32) -> Result<Depths, AllocError>
        ensures { IfOk result (λ d. d ≡ (object, 1) ∷ []) }
    {
        let mut rows = Vec::new(alloc);
        rows.push((object, 1))?;
        Ok(Depths { rows })
    }

    /// The depth in an object, if the task is inside it.
    pub fn at(&self, object: u32) -> Option<u32>
        ensures { result ≡ find object self.now }
    {
        let at = newest(&self.rows, object)?;
        Some(self.rows[at].1)
    }

    /// One deeper in an object. A depth of `u32::MAX` has no next.
    pub fn deepen(&mut self, object: u32) -> Result<(), AllocError>
        ensures ok { OnOk result (self.new ≡ deeper (find object self.old) object self.old) }
        ensures err { OnErr result (self.new ≡ self.old) }
    {
        match newest(&self.rows, object) {
            None => {
                self.enter(object)?;
                Ok(())
            }
            Some(at) => {
                let depth = self.rows[at].1;
                if depth == u32::MAX {
                    return Err(AllocError);
                }
                self.rows[at] = (object, depth + 1);
                Ok(())
            }
        }
    }

    /// Inside a new object, once.
    pub fn enter(&mut self, object: u32) -> Result<(), AllocError>
        ensures ok { OnOk result (self.new ≡ (object, 1) ∷ self.old) }
        ensures err { OnErr result (self.new ≡ self.old) }
    {
        self.rows.push((object, 1))?;
        Ok(())
    }

    /// One less deep in an object; at the last call it is left.
    pub fn lessen(&mut self, object: u32)
        ensures { self.new ≡ shallower (find object self.old) object self.old }
    {
        if let Some(at) = newest(&self.rows, object) {
            let depth = self.rows[at].1;
            if depth > 1 {
                self.rows[at] = (object, depth - 1);
            } else {
                let _ = self.rows.remove(at);
            }
        }
    }

    /// An object is left, however deep the task is in it.
    pub fn leave(&mut self, object: u32)
        ensures { self.new ≡ without object self.old }
    {
        if let Some(at) = newest(&self.rows, object) {
            let _ = self.rows.remove(at);
        }
    }
}

// Where the newest row of an object stands.
fn newest(rows: &[(u32, u32)], object: u32) -> Option<usize>
    ensures { MatchOption result (find object (reverse rows.now) ≡ None) (λ i. IsNewest object rows.now i) }
{
    let mut at = rows.len();
    while at > 0 {
        at -= 1;
        if rows[at].0 == object {
            return Some(at);
        }
    }
    None
}
