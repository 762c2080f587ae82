// The events of a program, by their names.

ghost use Rattle.std.specs.Prelude.{◌≡◌, ◌+◌, List, IfOk, OnOk, length, map};
ghost use Rattle.uc_tree.specs.Cells.{classes_of};
ghost use Rattle.uc_tree.specs.Numbering.{Defined, event_names, is_event};
ghost use Rattle.uc_tree.specs.Objects.{is_constructor};
ghost use Rattle.uc_layout.specs.Places.{IsPlaces};
ghost use Rattle.uc_lower_expr.specs.Events.{AreBuilders, NotesEvent, builds_event, event_by, noted_builder};

use crate::program_names::{name_of, sig_of};
use std::alloc::{AllocError, Global};
use uc_layout::places::{no_places, note_place};
use uc_layout::sizes::Sizes;
use uc_names::scope::Scope;
use uc_tree::class::{Class, Routine, Sig};
use uc_tree::kinds::{Kind, Role};
use uc_tree::limits::{FIRST_EVENT, LAST_EVENT};

/// Whether this is the kind of an event.
pub fn is_event(kind: Kind) -> bool
    ensures { result ≡ is_event kind }
{
    match kind {
        Kind::Class => false,
        Kind::Coroutine => false,
        Kind::Monitor => false,
        Kind::Cormonitor => false,
        Kind::Task => false,
        Kind::Event => true,
    }
}

fn is_constructor(role: Role) -> bool
    ensures { result ≡ is_constructor role }
{
    match role {
        Role::Plain => false,
        Role::Constructor => true,
        Role::Destructor => false,
    }
}

/// Whether a routine builds an event: a constructor whose class, `owner`, has no number.
pub fn builds_event(owner: u32, sig: &Sig) -> bool
    ensures { result ≡ builds_event owner sig.now }
{
    owner == 0 && is_constructor(sig.role)
}

// One more routine, with this number and that of its class. Memory is wanting where its own is not below 2^32.
fn note_builder(
    builders: &mut Scope,
    owner: u32,
    routine: &Routine,
    number: usize,
) -> Result<(), AllocError>
    requires { length builders.old ≡ 1 }
    ensures { OnOk result (builders.new ≡ noted_builder owner routine.now.sig number builders.old) }
{
    let sig = sig_of(routine);
    if !builds_event(owner, sig) {
        return Ok(());
    }
    match u32::try_from(number) {
        Ok(id) => {
            builders.declare(name_of(sig).bytes(), id)?;
            Ok(())
        }
        Err(_) => Err(AllocError),
    }
}

/// The numbers of those of these routines that build events, by the names of the events. `owners` are the numbers of their classes.
pub fn builders_of(
    alloc: Global,
    routines: &[&Routine],
    owners: &[u32],
) -> Result<Scope, AllocError>
    requires { length owners.now ≡ length routines.now }
    ensures { IfOk result (λ builders. (ds : List Defined) →
        map (λ d. d.routine) ds ≡ map (λ r. r.now) routines.now →
        map (λ d. d.number) ds ≡ owners.now → AreBuilders ds builders) }
{
    let mut builders = no_places(alloc)?;
    for place in 0..routines.len() {
        note_builder(&mut builders, owners[place], routines[place], place)?;
    }
    Ok(builders)
}

// One more class, behind so many events. The result is how many there are then.
fn note_event(events: &mut Scope, class: &Class, count: usize) -> Result<usize, AllocError>
    requires { length events.old ≡ 1 }
    ensures { IfOk result (λ next. NotesEvent class.now count next events.old events.new) }
{
    if !is_event(class.kind) {
        return Ok(count);
    }
    match count.checked_add(1) {
        Some(next) => {
            note_place(events, &class.name, count)?;
            Ok(next)
        }
        None => Err(AllocError),
    }
}

/// The places of the events of a program among its events, by name.
pub fn events_of(alloc: Global, sizes: &Sizes, count: usize) -> Result<Scope, AllocError>
    requires { count ≡ length (classes_of sizes.now.items) }
    ensures { IfOk result (λ events. IsPlaces (event_names (classes_of sizes.now.items)) events) }
{
    let mut events = no_places(alloc)?;
    let mut known: usize = 0;
    for place in 0..count {
        match sizes.class(place) {
            Some(class) => known = note_event(&mut events, class, known)?,
            None => return Err(AllocError),
        }
    }
    Ok(events)
}

/// The number of the event with this place among the events; one beyond the last number, and one that is not there, counts as 0.
pub fn number_of(place: Option<usize>) -> u8
    ensures { result ≡ event_by place }
{
    match place {
        Some(place) => {
            if place <= LAST_EVENT as usize - FIRST_EVENT as usize {
                FIRST_EVENT + place as u8
            } else {
                0
            }
        }
        None => 0,
    }
}
