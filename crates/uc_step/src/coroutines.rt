// The ops of coroutines, but for those that switch.

ghost use Rattle.std.specs.Prelude.{◌≡◌, ℕ, true, slice_get};
ghost use Rattle.uc_step.specs.Effects.{ended, Quiet};
ghost use Rattle.uc_step.specs.OpEffects.{at_op, lives_below, Does, DoesAlone};

use crate::effect::{QuietResult, Stop, put_end, put_fault};
use crate::jumps::unwind;
use crate::slot::Slot;
use uc_code::code::Code;
use uc_code::op::Op;
use uc_entry::fault::RunFault;
use uc_entry::request::Asked;
use uc_frames::work::Work;

// The coroutine below the arguments of a routine must be live.
pub(crate) fn alive(
    code: &Code,
    line: u32,
    work: &mut Work,
    stop: &mut Stop,
    asked: &mut Slot,
    number: u32,
) -> QuietResult
    ensures { Does code.now line (Op.Alive number) work.old (ended result stop.new asked.new) work.new }
{
    match code.routine(number) {
        None => { put_end(code, line, work, stop, asked) }
        Some(routine) => {
            if work.is_live(routine.params) {
                QuietResult::Quiet
            } else {
                put_fault(code, line, work, stop, asked, RunFault::NotLive)
            }
        }
    }
}

// Whether the coroutine below the arguments of a routine is live.
pub(crate) fn lives(code: &Code, number: u32, work: &Work) -> bool
    ensures live { result ≡ true → (line at : ℕ) →
        Does code.now line (Op.Alive number) (at_op at work.now) Quiet (at_op at work.now) }
    ensures tells { result ≡ lives_below (slice_get code.now.routines number) work.now }
{
    match code.routine(number) {
        None => false,
        Some(routine) => work.is_live(routine.params),
    }
}

// Where an execution stopped it goes on, or is unwound.
pub(crate) fn land(work: &mut Work, stop: &mut Stop) -> QuietResult
    ensures { (asked : Asked) → DoesAlone Op.Land work.old (ended result stop.new asked) work.new }
{
    match work.raised() {
        None => QuietResult::Quiet,
        Some(_) => unwind(work, stop),
    }
}
