//! Calls of the parts that count their moves, for a caller that counts none.
ghost use Rattle.std.specs.Prelude.{◌≡◌, ◌<◌, length, Some};
ghost use Rattle.uc_tree.specs.SiteOffers.{met};
ghost use Rattle.uc_accept.specs.Accepting.{answer_of, doors_of, unpulled};
ghost use Rattle.uc_mutex.specs.Doors.{IsFree, door_at, on_top, unmarked, with_door};
ghost use Rattle.uc_mutex.specs.Offers.{IsKnownSite, offers_by};

use std::marker::Brand;
use std::sync::ledger::{Blank, Ledger};
use uc_accept::{Accepted, accept};
use uc_links::Steps;
use uc_mutex::Entries;
use uc_tree::site::Site;

/// A task goes on top of the stack of an object.
pub(crate) fn push_on(entries: &mut Entries, object: u32, task: u32)
    requires object { object < length entries.old.doors }
    requires task { task < entries.old.tasks }
    requires free { IsFree task entries.old }
    ensures { entries.new ≡ with_door entries.old object
        (on_top (task, unmarked) (door_at entries.old object)) }
{
    push_by::<Brand>(Blank::new(1), entries, object, task)
}

fn push_by<L: Ledger>(blank: Blank, entries: &mut Entries, object: u32, task: u32)
    requires ledger { (blank.name ≡ L.name) × (blank.parts ≡ L.parts) × (0 < L.parts) }
    requires object { object < length entries.old.doors }
    requires task { task < entries.old.tasks }
    requires free { IsFree task entries.old }
    ensures { entries.new ≡ with_door entries.old object
        (on_top (task, unmarked) (door_at entries.old object)) }
{
    let mut moves = Steps::<L>::new(blank);
    entries.push(object, task, &mut moves);
}

/// The task inside an object accepts at a statement, with a mask of its true clauses.
pub(crate) fn accept_at(
    entries: &mut Entries,
    object: u32,
    task: u32,
    site: &Site,
    mask: u32,
) -> Accepted
    requires object { object < length entries.old.doors }
    requires task { task < entries.old.tasks }
    requires free { IsFree task entries.old }
    requires inside { (door_at entries.old object).inside ≡ Some task }
    requires site { IsKnownSite site.now }
    ensures value { result ≡ answer_of site.now.has_else
        (met (offers_by site.now mask) (door_at entries.old object).waiting) }
    ensures doors { unpulled entries.new
        ≡ doors_of entries.old object task site.now.has_else (offers_by site.now mask)
        (met (offers_by site.now mask) (door_at entries.old object).waiting) }
{
    accept_by::<Brand>(Blank::new(1), entries, object, task, site, mask)
}

fn accept_by<L: Ledger>(
    blank: Blank,
    entries: &mut Entries,
    object: u32,
    task: u32,
    site: &Site,
    mask: u32,
) -> Accepted
    requires ledger { (blank.name ≡ L.name) × (blank.parts ≡ L.parts) × (0 < L.parts) }
    requires object { object < length entries.old.doors }
    requires task { task < entries.old.tasks }
    requires free { IsFree task entries.old }
    requires inside { (door_at entries.old object).inside ≡ Some task }
    requires site { IsKnownSite site.now }
    ensures value { result ≡ answer_of site.now.has_else
        (met (offers_by site.now mask) (door_at entries.old object).waiting) }
    ensures doors { unpulled entries.new
        ≡ doors_of entries.old object task site.now.has_else (offers_by site.now mask)
        (met (offers_by site.now mask) (door_at entries.old object).waiting) }
{
    let mut moves = Steps::<L>::new(blank);
    accept(entries, object, task, site, mask, &mut moves)
}
