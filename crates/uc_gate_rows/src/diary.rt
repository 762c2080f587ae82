// Threads that write into one diary behind a lock, each with a seat of its own.

ghost use Rattle.std.specs.Prelude.{◌≡◌, ◌<◌, ◌≤◌, false, IfOk, All, length};
ghost use Rattle.uc_lock.specs.Journals.{Extends};
ghost use Rattle.uc_lock.specs.Meanings.{IsSeatOf};

use std::alloc::{AllocError, Global};
use std::sync::Wait;
use std::thread;
use std::thread::Threads;
use uc_lock::{Journaled, Seat, Shared};

// Entries with their makers, up to the room that was taken at first.
#[derive(Drop)]
struct Diary {
    entries: Vec<(u32, u32)>,
    owner: u32,
}

impl Journaled for Diary {
    type Key = u32;

    type Item = u32;

    ghost key_of = { λ d. d.owner };

    ghost journal_of = { λ d. d.entries.items };
}

impl Diary {
    fn note(&mut self, entry: u32, maker: u32)
        ensures owner { self.new.owner ≡ self.old.owner }
        ensures entries { Extends maker self.old.entries.items self.new.entries.items }
    {
        if self.entries.len() < self.entries.capacity() {
            self.entries.push_reserved((entry, maker));
        }
    }

    // The maker's entries are the numbers from 0 in order, and there are so many.
    fn count(&self, maker: u32) -> Option<u32> {
        let mut found = 0;
        for entry in self.entries.as_slice() {
            if entry.1 == maker {
                if entry.0 != found {
                    return None;
                }
                found = found.wrapping_add(1);
            }
        }
        Some(found)
    }
}

fn write<R: Wait>(rt: &R, lock: &Shared<Diary>, seat: Seat<Diary>, times: u32) -> Seat<Diary>
    requires { IsSeatOf lock.now seat × (seat.holds ≡ false) }
    ensures { IsSeatOf lock.now result × (result.holds ≡ false) }
{
    let mut seat = seat;
    let number = seat.number();
    for entry in 0..times {
        let mut held = lock.take(rt, &mut seat);
        held.value().note(entry, number);
        lock.give(rt, &mut seat, held);
    }
    seat
}

fn write_all<R: Threads + Wait + Sync>(
    rt: &R,
    lock: &Shared<Diary>,
    seats: Vec<Seat<Diary>>,
    times: u32,
) -> Result<Vec<Seat<Diary>>, AllocError>
    requires { All (λ s. IsSeatOf lock.now s × (s.holds ≡ false)) seats.items }
    ensures len { IfOk result (λ v. length v.items ≡ length seats.items) }
    ensures each { IfOk result (λ v. All (λ s. IsSeatOf lock.now s × (s.holds ≡ false)) v.items) }
{
    thread::map_vec(
        rt,
        seats,
        &|seat: Seat<Diary>| -> Seat<Diary>
            requires { IsSeatOf lock.now seat × (seat.holds ≡ false) }
            ensures { IsSeatOf lock.entry.now result × (result.holds ≡ false) }
        { write(rt, lock, seat, times) },
    )
}

// The diary after each thread wrote so often. The seats come back in another order.
fn filled<R: Threads + Wait + Sync>(
    rt: &R,
    alloc: Global,
    threads: u32,
    times: u32,
) -> Result<Diary, AllocError>
    requires { (1 ≤ threads) × (threads ≤ 8) × (times ≤ 1000) }
{
    let room = threads * times;
    let diary = Diary {
        entries: Vec::with_capacity(alloc, room as usize)?,
        owner: 7,
    };
    let (lock, seats) = Shared::new(alloc, diary, threads)?;
    let mut seats = write_all(rt, &lock, seats, times)?;
    seats.reverse();
    Ok(lock.close(seats))
}

/// What a diary holds when so many threads, 1 to 8, wrote a thousand entries each: its owner, its entries, and of how many threads all
/// stand in order.
pub fn written<R: Threads + Wait + Sync>(
    rt: &R,
    alloc: Global,
    threads: u32,
) -> Result<String, AllocError>
    requires { (1 ≤ threads) × (threads ≤ 8) }
{
    let diary = filled(rt, alloc, threads, 1000)?;
    let ordered = (0..threads)
        .filter(|maker| diary.count(*maker) == Some(1000))
        .count();
    format!(in alloc;
        "threads {} owner {} entries {} in order {}\n",
        threads,
        diary.owner,
        diary.entries.len(),
        ordered
    )
}
