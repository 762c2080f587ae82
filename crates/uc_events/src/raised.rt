//! The events that are pending at one task.
ghost use Rattle.std.specs.Prelude.{◌≡◌, [], IfOk};
ghost use Rattle.uc_acts.specs.Pending.{oldest_in};
ghost use Rattle.uc_tree.specs.SiteOffers.{has_bit};
ghost use Rattle.uc_events.specs.Pending.{without_oldest, has_room, raised};

use std::alloc::{AllocError, Global};
use std::marker::Model;
use uc_tree::limits::{EVENTS, PENDING_EVENTS};

/// The events that are pending at one task, oldest first, with room for the most that may be.
#[derive(Drop)]
pub(crate) struct Raised {
    events: Vec<(u8, i64, i64)>,
}

impl Model for Raised {
    ghost use Rattle.std.specs.Prelude.{List, length, ◌≤◌, vec_capacity};
    ghost use Rattle.uc_events.specs.Pending.{Event};
    ghost use Rattle.uc_tree.specs.declared.limits.TheConstants.{PENDING_EVENTS};

    ghost Value = { List Event };

    ghost view = { λ r. r.events.items };

    ghost invariant = { λ r. PENDING_EVENTS ≤ vec_capacity r.events };
}

impl Raised {
    /// Nothing is pending.
    pub fn new(alloc: Global) -> Result<Raised, AllocError>
        ensures { IfOk result (λ r. r ≡ []) }
    {
        Ok(Raised {
            events: Vec::with_capacity(alloc, PENDING_EVENTS as usize)?,
        })
    }

    /// Puts an event behind the others, where there is room. Tells whether there was.
    pub fn push(&mut self, event: u8, x: i64, y: i64) -> bool
        ensures value { result ≡ has_room self.old }
        ensures events { self.new ≡ raised (event, x, y) self.old }
    {
        if self.events.len() < PENDING_EVENTS as usize {
            self.events.push_reserved((event, x, y));
            return true;
        }
        false
    }

    /// Takes out the oldest event in the mask.
    pub fn take(&mut self, mask: u64) -> Option<(u8, i64, i64)>
        ensures value { result ≡ oldest_in mask self.old }
        ensures events { self.new ≡ without_oldest mask self.old }
    {
        for at in 0..self.events.len() {
            if has_event(mask, self.events[at].0) {
                return Some(self.events.remove(at));
            }
        }
        None
    }
}

/// Whether a mask has an event.
fn has_event(mask: u64, event: u8) -> bool
    ensures { result ≡ has_bit event mask }
{
    event < EVENTS && (mask >> event) % 2 == 1
}
