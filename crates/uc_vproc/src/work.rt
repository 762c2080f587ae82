// A worker.
ghost use Rattle.std.specs.Prelude.{◌≡◌, ◌≤◌, Some, IfOk, All, length};
ghost use Rattle.uc_code.specs.Layout.{laid_of};
ghost use Rattle.uc_code.specs.Pace.{IsPaced};
ghost use Rattle.uc_fused.specs.Fusing.{IsFused};
ghost use Rattle.uc_frames.specs.Machine.{with_hand};
ghost use Rattle.uc_step.specs.WeightFalls.{Keeps};
ghost use Rattle.uc_kernel.specs.KernelState.{with_asked};
ghost use Rattle.uc_lock.specs.Journals.{made_by};
ghost use Rattle.std.specs.Option.{is_some, option_map};
ghost use Rattle.uc_vproc.specs.Makers.{given_in};
ghost use Rattle.uc_vproc.specs.declared.step.Step.TheVariants.{Going};
ghost use Rattle.uc_vproc.specs.Desks.{Brings, IsRide, value_after};
ghost use Rattle.uc_vproc.specs.Rest as rest;
ghost use Rattle.uc_vproc.specs.Workers.{IsReady, IsSame, HasCome};

use crate::bell::Bell;
use crate::desk::Locked;
use crate::step::Step;
use std::alloc::{AllocError, Global};
use std::sync::Wait;
use std::thread;
use std::thread::Threads;
use uc_code::code::Code;
use uc_entry::request::Request;
use uc_frames::members::Members;
use uc_frames::task::Task;
use uc_frames::work::Work;
use uc_fused::table::Table;
use uc_kernel::given::{Back, Given};
use uc_lock::{Seat, Shared};
use uc_outside::Gate;
use uc_ride::ride::{Ridden, ride};
use uc_step::slot::Slot;

// Takes the kernel for a task to go on with.
fn begin<R: Wait>(rt: &R, lock: &Shared<Locked>, seat: &mut Seat<Locked>) -> Step
    requires { IsReady lock.now seat.old }
    ensures same { IsReady lock.now seat.new × IsSame seat.old seat.new }
    ensures came { HasCome lock.now seat.new result }
{
    let number = seat.number();
    let mut held = lock.take(rt, seat);
    let step = held.value().desk.begin(number);
    lock.give(rt, seat, held);
    step
}

// Takes the kernel for the act of what a ride brings. Where it makes work for another worker, that is told.
#[inline(always)]
fn bring<R: Wait>(
    rt: &R,
    lock: &Shared<Locked>,
    bell: &Bell,
    seat: &mut Seat<Locked>,
    back: Back<Option<Task>, Members>,
    asked: &Slot,
) -> Step
    requires ready { IsReady lock.now seat.old }
    requires own { seat.old.own ≡ made_by seat.old.number seat.old.seen }
    requires brings { Brings lock.now.terms.key.code seat.old.number seat.old.seen
        (with_asked back asked.now) }
    ensures same { IsReady lock.now seat.new × IsSame seat.old seat.new }
    ensures came { HasCome lock.now seat.new result }
{
    let number = seat.number();
    let what = asked.get();
    let mut held = lock.take(rt, seat);
    let step = held.value().desk.act(number, back, what);
    lock.give(rt, seat, held);
    if makes_work(&what.request) {
        bell.ring();
    }
    step
}

// Whether a task or a processor is made, so that one more worker may find something to do.
fn makes_work(request: &Request) -> bool {
    matches!(request, Request::Spawn { .. } | Request::Processor { .. })
}

// Takes the kernel to say that memory is wanting.
fn give_up<R: Wait>(rt: &R, lock: &Shared<Locked>, seat: &mut Seat<Locked>)
    requires { IsReady lock.now seat.old }
    ensures same { IsReady lock.now seat.new × IsSame seat.old seat.new }
    ensures own { seat.new.own ≡ made_by seat.new.number seat.new.seen }
{
    let mut held = lock.take(rt, seat);
    held.value().desk.abandon();
    lock.give(rt, seat, held);
}

// A ride of what was given, outside the lock, up to a request, which is written where it is lent. A task that does not go on behind it
// is given up.
#[inline(always)]
fn go<G: Gate>(
    alloc: Global,
    code: &Code,
    table: &Table,
    gate: &G,
    dispatches: u64,
    given: Given<Task, Members>,
    asked: &mut Slot,
) -> Result<Back<Option<Task>, Members>, AllocError>
    requires fused { IsFused code.now.ops table.now }
    requires paced { IsPaced (laid_of code.now) code.now.routines }
    requires some { 1 ≤ given.left }
    requires kept { Keeps code.now (with_hand given.members.items given.task) }
    ensures { IfOk result (λ b. IsRide code.now given (with_asked b asked.new)) }
{
    let Given {
        processor,
        task,
        members,
        answer,
        left,
    } = given;
    let work = Work::new(task, members);
    let entries = table.entries();
    let ridden = ride(
        code, entries, work, answer, left, asked, gate, processor, dispatches,
    )?;
    let Ridden { work, child, ticks } = ridden;
    let (task, mut members) = work.into_parts();
    members.room()?;
    let task = going_on(asked, task);
    let child = boxed(child);
    Ok(Back {
        processor,
        task,
        members,
        child,
        ticks,
    })
}

// A task that goes on behind a request.
fn going_on(asked: &Slot, task: Task) -> Option<Task>
    ensures { result ≡ value_after asked.now.request task }
{
    if stops(&asked.get().request) {
        return None;
    }
    Some(task)
}

// A new task has not ended.
fn boxed(child: Option<Task>) -> Option<Option<Task>>
    ensures { result ≡ option_map Some child }
{
    match child {
        None => None,
        Some(task) => Some(Some(task)),
    }
}

// Whether the task does not go on behind a request.
fn stops(request: &Request) -> bool
    ensures { result ≡ rest.stops request.now }
{
    matches!(request, Request::End | Request::Fault { .. })
}

// A ride and its act. What is asked is written where it is lent.
#[inline(always)]
fn turn<R: Wait, G: Gate>(
    rt: &R,
    alloc: Global,
    lock: &Shared<Locked>,
    bell: &Bell,
    code: &Code,
    table: &Table,
    gate: &G,
    dispatches: u64,
    seat: &mut Seat<Locked>,
    given: Given<Task, Members>,
    asked: &mut Slot,
) -> Step
    requires ready { IsReady lock.now seat.old }
    requires code { lock.now.terms.key.code ≡ code.now }
    requires fused { IsFused code.now.ops table.now }
    requires paced { IsPaced (laid_of code.now) code.now.routines }
    requires came { HasCome lock.now seat.old (Going given) }
    ensures same { IsReady lock.now seat.new × IsSame seat.old seat.new }
    ensures came { HasCome lock.now seat.new result }
{
    match go(alloc, code, table, gate, dispatches, given, asked) {
        Ok(back) => bring(rt, lock, bell, seat, back, asked),
        Err(_) => {
            give_up(rt, lock, seat);
            Step::Over
        }
    }
}

/// Serves the kernel under a lock until its run is over, or was abandoned.
pub fn work<R: Wait, G: Gate>(
    rt: &R,
    alloc: Global,
    lock: &Shared<Locked>,
    bell: &Bell,
    code: &Code,
    table: &Table,
    gate: &G,
    seat: Seat<Locked>,
) -> Seat<Locked>
    requires ready { IsReady lock.now seat }
    requires code { lock.now.terms.key.code ≡ code.now }
    requires fused { IsFused code.now.ops table.now }
    requires paced { IsPaced (laid_of code.now) code.now.routines }
    ensures { IsReady lock.now result × IsSame seat result }
{
    let mut seat = seat;
    let mut asked = Slot::new();
    let mut step = Step::Idle;
    let mut dispatches: u64 = 0;
    let mut told: u64 = 0;
    let mut vain: u32 = 0;
    for _ in rt.forever() {
        step = match step {
            Step::Going(given) => {
                let first = told;
                told = 0;
                turn(
                    rt, alloc, lock, bell, code, table, gate, first, &mut seat, given, &mut asked,
                )
            }
            Step::Idle => {
                let heard = bell.heard();
                let next = begin(rt, lock, &mut seat);
                match &next {
                    Step::Going(_) => {
                        dispatches = dispatches.wrapping_add(1);
                        told = dispatches;
                        vain = 0;
                    }
                    Step::Idle => {
                        bell.wait(rt, heard, vain);
                        vain = vain.saturating_add(1);
                    }
                    Step::Over => {}
                }
                next
            }
            Step::Over => {
                bell.ring_all();
                return seat;
            }
        };
    }
    unreachable!()
}

fn is_send<T: Send>() {}

fn is_sync<T: Sync>() {}

fn seat_crosses() {
    is_send::<Seat<Locked>>();
}

fn lock_crosses() {
    is_sync::<Shared<Locked>>();
}

/// Each seat's worker on a thread of its own, where threads can be made. A worker alone stays on this thread.
pub fn work_all<R: Threads + Wait + Sync, G: Gate + Sync>(
    rt: &R,
    alloc: Global,
    lock: &Shared<Locked>,
    code: &Code,
    table: &Table,
    gate: &G,
    seats: Vec<Seat<Locked>>,
) -> Result<Vec<Seat<Locked>>, AllocError>
    requires ready { All (λ s. IsReady lock.now s) seats.items }
    requires code { lock.now.terms.key.code ≡ code.now }
    requires fused { IsFused code.now.ops table.now }
    requires paced { IsPaced (laid_of code.now) code.now.routines }
    ensures len { IfOk result (λ v. length v.items ≡ length seats.items) }
    ensures each { IfOk result (λ v. All (λ s. IsReady lock.now s) v.items) }
{
    let bell = Bell::new();
    thread::map_vec(
        rt,
        seats,
        &|seat: Seat<Locked>| -> Seat<Locked>
            requires { IsReady lock.now seat × (lock.now.terms.key.code ≡ code.now)
                × IsFused code.now.ops table.now
                × IsPaced (laid_of code.now) code.now.routines }
            ensures { IsReady lock.entry.now result }
        { work(rt, alloc, lock, &bell, code, table, gate, seat) },
    )
}
