// The numbers of classes and events.

ghost use Rattle.std.specs.Prelude.{◌≡◌, map, option_and_then};
ghost use Rattle.uc_tree.specs.Numbering.{at_most, is_event, place_from, class_names, event_names};
ghost use Rattle.uc_numbering.specs.Events.{event_named};
ghost use Rattle.uc_tree.specs.declared.limits.TheConstants.{LAST_CLASS, LAST_EVENT, FIRST_EVENT};

use uc_tree::class::Class;
use uc_tree::kinds::Kind;
use uc_tree::limits::{FAILURE, FIRST_EVENT, LAST_CLASS, LAST_EVENT, UNHANDLED};
use uc_tree::name::Name;

/// Whether this is the kind of an event.
pub fn is_event(kind: Kind) -> bool
    ensures { result ≡ is_event kind }
{
    match kind {
        Kind::Class => false,
        Kind::Coroutine => false,
        Kind::Monitor => false,
        Kind::Cormonitor => false,
        Kind::Task => false,
        Kind::Event => true,
    }
}

fn class_at(number: usize) -> Option<u32>
    ensures { result ≡ at_most LAST_CLASS number }
{
    if number <= LAST_CLASS as usize {
        Some(number as u32)
    } else {
        None
    }
}

/// The number of the class of this name among these classes of a program, none for an event.
pub fn class_number(classes: &[&Class], name: &Name) -> Option<u32>
    ensures { result ≡ option_and_then (at_most LAST_CLASS)
        (place_from 1 (class_names (map (λ c. c.now) classes.now)) name.now) }
{
    let mut number: usize = 1;
    for class in classes {
        if !is_event(class.kind) {
            if class.name.is(name.bytes()) {
                return class_at(number);
            }
            number += 1;
        }
    }
    None
}

fn event_at(number: usize) -> Option<u8>
    ensures { result ≡ at_most LAST_EVENT number }
{
    if number <= LAST_EVENT as usize {
        Some(number as u8)
    } else {
        None
    }
}

fn declared_event(classes: &[&Class], name: &Name) -> Option<u8>
    ensures { result ≡ option_and_then (at_most LAST_EVENT)
        (place_from FIRST_EVENT (event_names (map (λ c. c.now) classes.now)) name.now) }
{
    let mut number = FIRST_EVENT as usize;
    for class in classes {
        if is_event(class.kind) {
            if class.name.is(name.bytes()) {
                return event_at(number);
            }
            number += 1;
        }
    }
    None
}

/// The number of the event of this name among these classes of a program.
pub fn event_number(classes: &[&Class], name: &Name) -> Option<u8>
    ensures { result ≡ event_named (map (λ c. c.now) classes.now) name.now }
{
    if name.is(b"uUnhandled") {
        return Some(UNHANDLED);
    }
    if name.is(b"RendezvousFailure") {
        return Some(FAILURE);
    }
    let number = declared_event(classes, name);
    number
}
