// Rides of a task.

ghost use Rattle.std.specs.Prelude.{◌≡◌, ◌≤◌, ◌<◌, ◌-◌, IfOk, slice_get};
ghost use Rattle.uc_tree.specs.Source.{Source};
ghost use Rattle.uc_entry.specs.declared.request.Request.TheVariants as ask;
ghost use Rattle.uc_machine.specs.Quiet.{State};
ghost use Rattle.uc_machine.specs.Answering as answering;
ghost use Rattle.uc_code.specs.Layout.{laid_of};
ghost use Rattle.uc_code.specs.Lowered.{Lowered};
ghost use Rattle.uc_code.specs.Pace.{IsPaced};
ghost use Rattle.uc_fused.specs.Fusing.{IsFused};
ghost use Rattle.uc_frames.specs.Stands.{Rests};
ghost use Rattle.uc_step.specs.WeightFalls.{Keeps};
ghost use Rattle.uc_step.specs.Simulation.{behind_line, StandsAfter};
ghost use Rattle.uc_ride.specs.UnwindingFalls.{KeepsAfter, ChildKeeps};
ghost use Rattle.uc_ride.specs.RideStands.{spawned_by, main_at, main_behind, BornAs, Rode, HasRidden};

use crate::events::{OpEnd, settle};
use std::alloc::AllocError;
use uc_code::code::Code;
use uc_code::op::Op;
use uc_code::rows::RoutineCode;
use uc_entry::request::{Answer, Request};
use uc_frames::task::Task;
use uc_frames::work::Work;
use uc_fused::fused::Fused;
use uc_outside::Gate;
use uc_step::effect::Stop;
use uc_step::slot::Slot;
use uc_step::step::{answer as give, run};

/// How a ride ended: the task with its hand, the new task where one is spawned, and the ticks.
#[derive(Drop)]
pub struct Ridden {
    pub work: Work,
    pub child: Option<Task>,
    pub ticks: u32,
}

/// Goes on with an answer up to a request, or up to so many ticks, and then asks for a slice. The second argument is what ops do together,
/// as far as that is told. What is asked is written where it is
/// lent. Where `dispatches` is not 0 it tells the gate first. No answer depends on the last three arguments. A new task has its
/// memory before it is asked for. Without memory the task is lost, and so it is where one is spawned whose main the code does not
/// have.
#[inline(always)]
pub fn ride<G: Gate>(
    code: &Code,
    fused: &[Fused],
    work: Work,
    answer: Answer,
    quantum: u32,
    asked: &mut Slot,
    gate: &G,
    processor: u32,
    dispatches: u64,
) -> Result<Ridden, AllocError>
    requires fused { IsFused code.now.ops fused.now }
    requires some { 1 ≤ quantum }
    requires paced { IsPaced (laid_of code.now) code.now.routines }
    requires kept { Keeps code.now work }
    ensures rides { IfOk result (λ r. (source : Source) (s : State) → Lowered source code.now →
        Rests (laid_of code.now) work s →
        Rode source (laid_of code.now)
        (answering.answered source answer s) quantum r.ticks asked.new r.work r.child) }
    ensures few { IfOk result (λ r. r.ticks ≤ quantum) }
    ensures early { IfOk result (λ r. (asked.new.request ≡ ask.Slice → ⊥) → r.ticks < quantum) }
    ensures kept { IfOk result (λ r. KeepsAfter code.now asked.new.request r.work) }
    ensures born { IfOk result (λ r. ChildKeeps code.now r.child) }
{
    if dispatches != 0 {
        gate.ride(processor, dispatches);
    }
    let mut work = work;
    give(code, &mut work, answer)?;
    let ticks = go_on(code, fused, &mut work, quantum, asked)?;
    let child = spawn(code, &work, &asked.get().request)?;
    Ok(Ridden { work, child, ticks })
}

// The task that is spawned, where one is: its main is that of the op before the next one.
fn spawn(code: &Code, work: &Work, request: &Request) -> Result<Option<Task>, AllocError>
    ensures born { IfOk result (λ child. (source : Source) (s : State) → Lowered source code.now →
        StandsAfter (laid_of code.now) request.now work.now s →
        BornAs source (laid_of code.now) request.now child s) }
    ensures kept { IfOk result (λ child. ChildKeeps code.now child) }
{
    match spawned(request) {
        None => Ok(None),
        Some(object) => match main_of(code, work) {
            None => Err(AllocError),
            Some(main) => {
                let child = work.child(main, object)?;
                Ok(Some(child))
            }
        },
    }
}

// The object of the task that is spawned, if one is.
fn spawned(request: &Request) -> Option<u32>
    ensures { result ≡ spawned_by request.now }
{
    match *request {
        Request::Spawn { object } => Some(object),
        _ => None,
    }
}

// The code of the main that the op before the next one names.
fn main_of(code: &Code, work: &Work) -> Option<RoutineCode>
    ensures { result ≡ main_behind code.now work.now }
{
    match main_before(code, work.next().saturating_sub(1)) {
        None => None,
        Some(main) => code.routine(main),
    }
}

// The main that the op at this place names, if it names one.
fn main_before(code: &Code, at: u32) -> Option<u32>
    ensures { result ≡ main_at (slice_get code.now.ops at) }
{
    let instruction = code.ops().get(at as usize)?;
    match instruction.op {
        Op::Spawn(main) => Some(main),
        _ => None,
    }
}

// Ops up to a request, or up to so many ticks. The last ones ask for a slice. Where ops stop, others go on from there.
fn go_on(
    code: &Code,
    fused: &[Fused],
    work: &mut Work,
    quantum: u32,
    asked: &mut Slot,
) -> Result<u32, AllocError>
    requires fused { IsFused code.now.ops fused.now }
    requires some { 1 ≤ quantum }
    requires paced { IsPaced (laid_of code.now) code.now.routines }
    requires kept { Keeps code.now work.old }
    ensures rides { IfOk result (λ ticks. HasRidden code.now quantum work.old ticks asked.new
        work.new) }
    ensures few { IfOk result (λ ticks. ticks ≤ quantum) }
    ensures early { IfOk result (λ ticks. (asked.new.request ≡ ask.Slice → ⊥) → ticks < quantum) }
    ensures kept { IfOk result (λ ticks. KeepsAfter code.now asked.new.request work.new) }
{
    let mut left = quantum;
    // As most rides end.
    let mut stop = Stop::Ask;
    'ticks: loop {
        let before = left;
        'stops: loop {
            let last = run(code, fused, work, &mut left, &mut stop, asked)?;
            if last {
                slice(code, work, asked);
                return Ok(quantum);
            }
            let after = settle(code, work, &stop, asked)?;
            match after {
                OpEnd::On => {}
                OpEnd::Asks => return Ok(quantum - left),
            }
            if left < before {
                break 'stops;
            }
        }
    }
}

// A slice is asked, in the line of the tick. It stands apart, so that a ride has no room for another request.
#[inline(never)]
fn slice(code: &Code, work: &Work, asked: &mut Slot)
    ensures { asked.new ≡ record {
      request = ask.Slice;
      line = behind_line
          (laid_of code.now) work.now;
    } }
{
    asked.put(Request::Slice, work.line_behind(code));
}
