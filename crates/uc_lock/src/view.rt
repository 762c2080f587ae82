// What a lock is made with, what its seats know, and the rule over both. Of these types only a `Setup` is ever made: the rest exist in proofs.

use crate::Journaled;
use atomic_table::TableRule;
use std::collections::LinkedList;
use std::marker::PhantomData;
use std::snapshot::Snapshot;

/// What a seat is doing. A ticket's number counts on past 2^64.
pub enum Stage {
    Idle,
    Waiting(u64),
    Turn(u64),
}

/// What a lock was made with: the key and the journal of its value, and the number of its seats.
pub struct Terms<K, I> {
    pub key: K,
    pub seats: u64,
    pub opening: LinkedList<(I, u64)>,
}

/// What is kept of a seat that was joined to another: its number, the journal that it had seen, and its own items.
pub struct Joined<I> {
    pub number: u64,
    pub seen: LinkedList<(I, u64)>,
    pub own: LinkedList<(I, u64)>,
}

/// What a seat knows. Where `made` is not 0 the seat splits off others, and `made` is how many there are.
pub struct View<K, I> {
    pub stage: Stage,
    pub number: u64,
    pub terms: Option<Terms<K, I>>,
    pub seen: LinkedList<(I, u64)>,
    pub own: LinkedList<(I, u64)>,
    pub made: u64,
    pub spent: bool,
    pub joined: LinkedList<Joined<I>>,
}

/// A seat of the lock's table.
pub(crate) type Token<V> = atomic_table::Seat<
    Option<V>,
    View<<V as Journaled>::Key, <V as Journaled>::Item>,
>;

/// What the table of a lock is told when it is made.
#[derive(Drop)]
pub struct Setup<V> {
    pub start: Snapshot<V>,
    pub seats: u32,
}

pub struct LockRule<V> {
    value: PhantomData<V>,
}

impl<V: Journaled> TableRule<Option<V>, View<V::Key, V::Item>, Setup<V>> for LockRule<V> {
    ghost use Rattle.uc_lock.specs.Rule.{Kept, opened};

    ghost holds = { λ k. Kept V.key_of V.journal_of (record { key = V.key_of k.start.value; seats = k.seats; opening = V.journal_of k.start.value }) };

    ghost first = { λ k. opened (record { key = V.key_of k.start.value; seats = k.seats; opening = V.journal_of k.start.value }) };
}
