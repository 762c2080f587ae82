// The lock: each call checks the condition of one or two moves and makes them.
ghost use Rattle.std.specs.Prelude.{◌≡◌, ℕ, ◌<◌, ◌≤◌, [], true, false, Some, IfOk, length, slice_get};
ghost use Rattle.std.specs.List.{All};
ghost use Rattle.uc_lock.specs.Journals.{Begins, Extends, GrownBelow, made_by};
ghost use Rattle.uc_lock.specs.Rule.{most_seats, opened};
ghost use Rattle.uc_lock.specs.Meanings.{IsSeatOf, fresh, taken, given};

use crate::Journaled;
use crate::seat::{Held, Seat};
use crate::table::LockTable;
use crate::view::{Setup, Token};
use atomic_table::{Refused, Table};
use std::alloc::{AllocError, Global};
use std::marker::Model;
use std::snapshot::Snapshot;
use std::sync::Wait;

/// The lock. Contracts see which one it is and the terms that it was made on: the key and the journal of the value, and the number of seats.
#[derive(Drop)]
pub struct Shared<V: Journaled> {
    pub(crate) inner: LockTable<V>,
}

impl<V: Journaled> Model for Shared<V> {
    ghost use Rattle.std.specs.Prelude.{◌<◌};
    ghost use Rattle.uc_lock.specs.Meanings.{Lock};

    ghost Value = { Lock V.Key V.Item };

    ghost view = { λ s. record { id = s.inner.table.shared.table_id; terms = record { key = V.key_of s.inner.table.shared.key.start.value; seats = s.inner.table.shared.key.seats; opening = V.journal_of s.inner.table.shared.key.start.value } } };

    ghost invariant = { λ s. 0 < s.inner.table.shared.key.seats };
}

impl<V: Journaled> Shared<V> {
    /// A lock round the value, and its seats, 1 to 64. The seat at each place of the list has that place as its number;
    /// the value's journal holds no item of these seats.
    /// On `AllocError` the value is gone.
    pub fn new(alloc: Global, v: V, seats: u32) -> Result<(Shared<V>, Vec<Seat<V>>), AllocError>
    where
        V: Drop,
        requires seats { (1 ≤ seats) × (seats ≤ most_seats) }
        requires makers { All (λ e. seats ≤ e.1) (V.journal_of v) }
        ensures terms { IfOk result (λ r. r.0.terms
            ≡ record { key = V.key_of v; seats = seats; opening = V.journal_of v }) }
        ensures count { IfOk result (λ r. length r.1.items ≡ seats) }
        ensures each { IfOk result (λ r. (i : ℕ) → i < seats →
            slice_get r.1.items i ≡ Some (fresh r.0 i)) }
    {
        let setup = Setup {
            start: Snapshot::of(&v),
            seats,
        };
        let mut slots = Vec::with_capacity(alloc, 1)?;
        slots.push_reserved(Some(v));
        match Table::new(alloc, &[0, 0], slots, &setup) {
            Ok((table, first)) => {
                let shared = Shared {
                    inner: LockTable { table },
                };
                let dealt = shared.deal(alloc, first, seats)?;
                Ok((shared, dealt))
            }
            Err(Refused { slots: _ }) => Err(AllocError),
        }
    }

    // Splits off all other seats from the first, and lists them in the order of their numbers.
    fn deal(&self, alloc: Global, first: Token<V>, seats: u32) -> Result<Vec<Seat<V>>, AllocError>
    where
        V: Drop,
        requires first { (first.table_id ≡ self.now.id) × (first.me ≡ (opened self.now.terms, [])) }
        requires seats { (seats ≡ self.now.terms.seats) × (1 ≤ seats) × (seats ≤ most_seats) }
        ensures count { IfOk result (λ v. length v.items ≡ seats) }
        ensures each { IfOk result (λ v. (i : ℕ) → i < seats →
            slice_get v.items i ≡ Some (fresh self.now i)) }
    {
        let mut dealt = Vec::with_capacity(alloc, seats as usize)?;
        let mut kept = first;
        for number in 1..seats {
            let token = self.inner.split(&mut kept);
            dealt.push_reserved(Seat::of(token, number));
        }
        dealt.push_reserved(Seat::of(kept, 0));
        dealt.rotate_right(1);
        Ok(dealt)
    }

    /// Waits for the seat's turn and takes the value. A call that returns gives a value with the key that the lock was made with.
    /// Its journal is the first one and then items of this lock's seats. It begins with what the seat had seen, and this seat's items in it are just its own.
    pub fn take<R: Wait>(&self, rt: &R, seat: &mut Seat<V>) -> Held<V>
        requires seat { IsSeatOf self.now seat.old }
        requires free { seat.old.holds ≡ false }
        ensures seat { seat.new ≡ taken (V.journal_of result) seat.old }
        ensures key { V.key_of result ≡ self.now.terms.key }
        ensures makers { GrownBelow self.now.terms.seats self.now.terms.opening
            (V.journal_of result) }
        ensures seen { Begins seat.old.seen (V.journal_of result) }
        ensures own { made_by seat.old.number (V.journal_of result) ≡ seat.old.own }
    {
        let (ticket, inner) = self.inner.take(rt, &mut seat.token);
        seat.ticket = ticket;
        Held { inner }
    }

    /// Gives the value back and lets the next seat have its turn. The key must be unchanged, and the journal only appended to, by this seat.
    /// The seat has then seen all of it.
    pub fn give<R>(&self, _rt: &R, seat: &mut Seat<V>, held: Held<V>)
        requires seat { IsSeatOf self.now seat.old }
        requires holds { seat.old.holds ≡ true }
        requires key { V.key_of held ≡ self.now.terms.key }
        requires journal { Extends seat.old.number seat.old.seen (V.journal_of held) }
        ensures seat { seat.new ≡ given (V.journal_of held) seat.old }
    {
        let Held { inner } = held;
        let ticket = seat.ticket;
        self.inner.give(&mut seat.token, ticket, inner);
    }

    /// Ends the lock and gives the value, with all that its seats did. It needs all seats of the lock, in any order.
    pub fn close(self, mut seats: Vec<Seat<V>>) -> V
    where
        V: Drop,
        requires count { length seats.items ≡ self.terms.seats }
        requires seats { All (λ s. IsSeatOf self s × (s.holds ≡ false)) seats.items }
        ensures key { V.key_of result ≡ self.terms.key }
        ensures makers { GrownBelow self.terms.seats self.terms.opening (V.journal_of result) }
        ensures seen { All (λ s. Begins s.seen (V.journal_of result)) seats.items }
        ensures own { All (λ s. made_by s.number (V.journal_of result) ≡ s.own) seats.items }
    {
        let Some(last) = seats.pop() else {
            unreachable!()
        };
        let mut kept = last.into_token();
        while let Some(other) = seats.pop() {
            self.inner.join(&mut kept, other.into_token());
        }
        let Shared { inner } = self;
        inner.finish(kept)
    }
}
