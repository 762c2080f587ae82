//! A ticket lock round a value that has a journal: a list of items, each with the number of the seat that made it.
//! Whoever takes the value finds a journal that begins with all that its seat had seen, and in which just its own items are its own.
#![tactic(auto)]

ghost use Rattle.std.specs.Prelude.{ℕ, List};

mod plays;
mod seat;
mod shared;
mod table;
mod view;

pub use seat::{Held, Seat};
pub use shared::Shared;
pub use view::Terms;

/// A value that a lock can hold. Contracts see its key, which no holder may change, and its journal, which a holder may only append to.
/// The journal is a list of pairs of an item and its maker, the number of the seat that made it.
pub trait Journaled {
    /// What of a value no holder may change.
    type Key;

    /// An entry of a value's journal.
    type Item;

    ghost key_of: { Self → Self.Key };

    ghost journal_of: { Self → List (Self.Item × ℕ) };
}

fn is_send<T: Send>() {}

fn is_sync<T: Sync>() {}

/// A lock may be shared among threads, and its seats and its value may go to them. This call does nothing: it shows that the types allow it.
pub fn crosses_threads<V: Journaled + Send>() {
    is_send::<Shared<V>>();
    is_sync::<Shared<V>>();
    is_send::<Seat<V>>();
    is_send::<Held<V>>();
}
