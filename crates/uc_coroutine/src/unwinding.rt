// The unwinding of the running execution.

ghost use Rattle.std.specs.Prelude.{◌≡◌, nat_eq, if◌then◌else◌, slice_get};
ghost use Rattle.uc_frames.specs.Searches.{is_named as is_named_by};
ghost use Rattle.uc_tree.specs.Source.{Source};
ghost use Rattle.uc_machine.specs.Quiet.{State};
ghost use Rattle.uc_code.specs.Layout.{laid_of};
ghost use Rattle.uc_frames.specs.UnwindingStands.{Unwinds};
ghost use Rattle.uc_coroutine.specs.UnwindingSteps.{IsOwn, UnwoundTo};
ghost use Rattle.uc_coroutine.specs.Unwinding.{point_in, cleaned_by, passed_on, step_of, Made};

use uc_code::code::Code;
use uc_frames::search::{HandlerQuery, first_handler};
use uc_frames::work::Work;
use uc_machine::exec::UnwindReason;

/// One step of unwinding the running execution down to an activation, by how many are below it, and to a row there, or else to its end:
/// the next clean-up of the running activation begins, or where none is left, that activation is left with its frame, and the one that
/// waits for it is unwound in its turn for the same reason, or still by the destruction of its coroutine. Where that point is reached,
/// all stays as it is, and the answer is false.
pub fn unwind(code: &Code, work: &mut Work, frame: u32, row: Option<u32>) -> bool
    ensures step { Made (step_of code.now.rows frame row work.old) work.old result work.new }
    ensures source { (source : Source) (s : State) → Unwinds (laid_of code.now) work.old s →
        IsOwn (laid_of code.now) frame row work.old →
        UnwoundTo source (laid_of code.now) result row work.new s }
{
    let made = step(code, work, frame, row);
    made
}

fn step(code: &Code, work: &mut Work, frame: u32, row: Option<u32>) -> bool
    ensures { Made (step_of code.now.rows frame row work.old) work.old result work.new }
{
    let level = work.level();
    let point = point_of(level, frame, row);
    match first_handler(code, work.next(), HandlerQuery::Stop(point)) {
        Some(number) => {
            if is_point(point, number) {
                return false;
            }
            clean_up(code, work, number);
            true
        }
        None => {
            if level == frame {
                return false;
            }
            let made = pass_on(work);
            made
        }
    }
}

// The row at which the unwinding ends in the activation with so many below it.
fn point_of(level: u32, frame: u32, row: Option<u32>) -> Option<u32>
    ensures { result ≡ point_in frame row level }
{
    if level == frame { row } else { None }
}

fn is_point(point: Option<u32>, number: u32) -> bool
    ensures { result ≡ is_named_by point number }
{
    match point {
        None => false,
        Some(point) => point == number,
    }
}

// The clean-up of a row begins.
fn clean_up(code: &Code, work: &mut Work, number: u32)
    ensures { work.new ≡ cleaned_by (slice_get code.now.rows number) work.old }
{
    let rows = code.rows();
    if let Some(row) = rows.get(number as usize).copied() {
        work.begin_clean_up(row.entry);
    }
}

// The running activation is left, where it is unwound and one waits.
pub(crate) fn pass_on(work: &mut Work) -> bool
    ensures { Made (passed_on work.old.run.raised work.old.callers work.old) work.old result
        work.new }
{
    match work.raised() {
        None => false,
        Some(_) => match work.caller() {
            None => false,
            Some(waits) => match waits {
                None => {
                    let made = work.pass_unwinding();
                    made
                }
                Some(why) => match why {
                    UnwindReason::Event { .. } | UnwindReason::ReturnTo(_) => {
                        let made = work.pass_unwinding();
                        made
                    }
                    // Nothing within a destruction ends it.
                    UnwindReason::Destroyed => {
                        let given = work.result();
                        let made = work.leave_unwinding(UnwindReason::Destroyed, given);
                        made
                    }
                },
            },
        },
    }
}
