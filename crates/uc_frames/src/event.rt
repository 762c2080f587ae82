// Events, and the handlers that begin with them.

ghost use Rattle.std.specs.Prelude.{◌≡◌};
ghost use Rattle.uc_frames.specs.Machine.{cell_number};
ghost use Rattle.uc_frames.specs.Unwinding.{byte_of, pending_event};

use crate::cell::{Cell, number_in};
use uc_machine::exec::{Pending, Visited};

/// An event by its number, with its fields.
#[derive(Clone, Copy)]
pub struct Event {
    pub number: u8,
    pub x: i64,
    pub y: i64,
}

/// A resumption handler that begins: its first op, the object and the depth of the frame that it uses, how far the search for it
/// came, and its event.
#[derive(Clone, Copy)]
pub struct HandlerStart {
    pub entry: u32,
    pub this: Cell,
    pub frame: u32,
    pub visited: Visited,
    pub event: Event,
}

// A pending event.
pub(crate) fn event_of(pending: Pending) -> Event
    ensures { result ≡ pending_event pending }
{
    Event {
        number: pending.event,
        x: pending.x,
        y: pending.y,
    }
}

// The number of an event in a cell; 0 where it holds none.
pub(crate) fn event_number(cell: Cell) -> u8
    ensures { result ≡ byte_of (cell_number cell) }
{
    u8::try_from(number_in(cell)).unwrap_or(0)
}
