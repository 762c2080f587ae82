// The moves of the lock, over plain seats of its table: two words, the tickets drawn and the ticket served, and one slot for the value.
ghost use Rattle.std.specs.Prelude.{◌≡◌, ℕ, ◌%◌, ◌<◌, ◌≤◌, [], ◌∷◌, true, false, Some, None};
ghost use Rattle.uc_lock.specs.Journals.{Extends, made_by};
ghost use Rattle.uc_lock.specs.Rule.{wraps, most_seats, with_stage, Takes, Finds, kept_part, new_part, joined_with, HasAll, Ends};
ghost use Rattle.uc_lock.specs.declared.view.Stage.TheVariants.{Idle, Waiting, Turn};

use crate::Journaled;
use crate::plays::{Draw, Give, Look, Merge, Part};
use crate::view::{LockRule, Setup, Token, View};
use atomic_table::Table;
use std::alloc::Global;
use std::sync::Wait;
use std::thread::yield_now;

const TICKET: usize = 0;

const SERVING: usize = 1;

const VALUE: usize = 0;

/// The table of a lock.
#[derive(Drop)]
pub struct LockTable<V: Journaled> {
    pub(crate) table: Table<Option<V>, View<V::Key, V::Item>, Setup<V>, LockRule<V>, Global>,
    ghost sized: { (table.shared.table_id.words ≡ 2) × (table.shared.table_id.slots ≡ 1) },
}

impl<V: Journaled> LockTable<V> {
    fn draw(&self, seat: &mut Token<V>) -> u64
        requires seat { seat.old.table_id ≡ self.now.table.shared.table_id }
        requires idle { (seat.old.me.0.stage ≡ Idle) × (seat.old.me.0.spent ≡ false) }
        ensures same { (seat.new.table_id ≡ seat.old.table_id) × (seat.new.id ≡ seat.old.id) }
        ensures drawn { (t : ℕ) × (result ≡ t % wraps)
            × (seat.new.me ≡ (with_stage (Waiting t) seat.old.me.0, seat.old.me.1)) }
    {
        self.table.shared.fetch_add::<Draw>(seat, TICKET, 1)
    }

    // True where the ticket's turn has come. Then the seat has the slot.
    fn look(&self, seat: &mut Token<V>, ticket: u64) -> bool
        requires seat { seat.old.table_id ≡ self.now.table.shared.table_id }
        requires waits { (t : ℕ) × (ticket ≡ t % wraps) × (seat.old.me.0.stage ≡ Waiting t) }
        requires unspent { seat.old.me.0.spent ≡ false }
        ensures same { (seat.new.table_id ≡ seat.old.table_id) × (seat.new.id ≡ seat.old.id) }
        ensures came { result ≡ true →
            (t : ℕ) × (seat.old.me.0.stage ≡ Waiting t)
            × Takes V.key_of V.journal_of t seat.old.me seat.new.me }
        ensures not_yet { result ≡ false → seat.new.me ≡ seat.old.me }
    {
        self.table.shared.load::<Look>(seat, SERVING) == ticket
    }

    fn wait_turn<R: Wait>(&self, rt: &R, seat: &mut Token<V>, ticket: u64)
        requires seat { seat.old.table_id ≡ self.now.table.shared.table_id }
        requires waits { (t : ℕ) × (ticket ≡ t % wraps) × (seat.old.me.0.stage ≡ Waiting t) }
        requires unspent { seat.old.me.0.spent ≡ false }
        ensures same { (seat.new.table_id ≡ seat.old.table_id) × (seat.new.id ≡ seat.old.id) }
        ensures came { (t : ℕ) × (seat.old.me.0.stage ≡ Waiting t)
            × Takes V.key_of V.journal_of t seat.old.me seat.new.me }
    {
        for _ in rt.forever() {
            if self.look(seat, ticket) {
                return;
            }
            yield_now();
        }
        unreachable!()
    }

    /// Waits for the turn and takes the value out. The number is the ticket's.
    pub(crate) fn take<R: Wait>(&self, rt: &R, seat: &mut Token<V>) -> (u64, V)
        requires seat { (seat.old.table_id ≡ self.now.table.shared.table_id)
            × (seat.old.me.1 ≡ []) }
        requires idle { (seat.old.me.0.stage ≡ Idle) × (seat.old.me.0.spent ≡ false) }
        ensures seat { seat.new.table_id ≡ seat.old.table_id }
        ensures turn { (t : ℕ) × (result.0 ≡ t % wraps)
            × (seat.new.me
            ≡ (
              record seat.old.me.0 { stage = Turn t; seen = V.journal_of result.1 },
              (0, None)
                  ∷ [],
            )) }
        ensures value { Finds V.key_of V.journal_of seat.old.me.0 result.1 }
    {
        let ticket = self.draw(seat);
        self.wait_turn(rt, seat, ticket);
        let value = self.table.shared.exchange(seat, VALUE, None);
        (ticket, value.unwrap())
    }

    /// Puts the value back and serves the next ticket.
    pub(crate) fn give(&self, seat: &mut Token<V>, ticket: u64, value: V)
        requires seat { (seat.old.table_id ≡ self.now.table.shared.table_id)
            × (seat.old.me.1 ≡ (0, None) ∷ []) }
        requires turn { (t : ℕ) × (seat.old.me.0.stage ≡ Turn t) × (ticket ≡ t % wraps) }
        requires unspent { seat.old.me.0.spent ≡ false }
        requires key { V.key_of value ≡ V.key_of self.now.table.shared.key.start.value }
        requires journal { Extends seat.old.me.0.number seat.old.me.0.seen (V.journal_of value) }
        ensures seat { seat.new.table_id ≡ seat.old.table_id }
        ensures gave { seat.new.me ≡ (
          record seat.old.me.0 {
            stage = Idle;
            seen = V.journal_of value;
            own = made_by seat.old.me.0.number
                (V.journal_of value);
          },
          [],
        ) }
    {
        let empty = self.table.shared.exchange(seat, VALUE, Some(value));
        let None = empty else { unreachable!() };
        self.table
            .shared
            .store::<Give>(seat, SERVING, ticket.wrapping_add(1));
    }

    pub(crate) fn split(&self, seat: &mut Token<V>) -> Token<V>
        requires seat { seat.old.table_id ≡ self.now.table.shared.table_id }
        requires idle { (seat.old.me.0.stage ≡ Idle) × (seat.old.me.0.spent ≡ false) }
        requires room { (0 < seat.old.me.0.made)
            × (seat.old.me.0.made < self.now.table.shared.key.seats)
            × (self.now.table.shared.key.seats ≤ most_seats) }
        ensures kept { (seat.new.table_id ≡ seat.old.table_id)
            × (seat.new.me ≡ (kept_part seat.old.me.0, seat.old.me.1)) }
        ensures new { (result.table_id ≡ seat.old.table_id)
            × (result.me ≡ (new_part seat.old.me.0, [])) }
    {
        self.table.shared.split_seat::<Part>(seat)
    }

    pub(crate) fn join(&self, seat: &mut Token<V>, other: Token<V>)
        requires seat { (seat.old.table_id ≡ self.now.table.shared.table_id)
            × (other.table_id ≡ self.now.table.shared.table_id) × (other.me.1 ≡ []) }
        requires idle { (seat.old.me.0.stage ≡ Idle) × (seat.old.me.0.spent ≡ false)
            × (other.me.0.stage ≡ Idle) × (other.me.0.spent ≡ false) }
        ensures { (seat.new.table_id ≡ seat.old.table_id)
            × (seat.new.me ≡ (joined_with seat.old.me.0 other.me.0, seat.old.me.1)) }
    {
        self.table.shared.join_seat::<Merge>(seat, other);
    }

    /// The value, once every other seat is joined to this one.
    pub(crate) fn finish(self, seat: Token<V>) -> V
        requires seat { seat.table_id ≡ self.table.shared.table_id }
        requires idle { (seat.me.0.stage ≡ Idle) × (seat.me.0.spent ≡ false) }
        requires all { HasAll self.table.shared.key.seats seat.me.0 }
        ensures { Ends V.key_of V.journal_of seat.me.0 result }
    {
        let LockTable { table } = self;
        let mut closed = table.close_with(seat);
        let value = closed.take(VALUE).unwrap();
        closed.free();
        value
    }
}
