// A task as its main begins.

ghost use Rattle.std.specs.Prelude.{◌≡◌, IfOk, None, Some, MatchOption, slice_get};
ghost use Rattle.uc_code.specs.declared.rows.RoutineCode.{RoutineCode};
ghost use Rattle.uc_frames.specs.Machine.{first_machine};
ghost use Rattle.uc_step.specs.Starts.{Starts};

use std::alloc::{AllocError, Global};
use uc_code::code::Code;
use uc_frames::work::Work;

/// The task whose object is `own`, as its main begins: the routine of this number. There is none where the code has no
/// such routine.
pub fn begin(alloc: Global, code: &Code, main: u32, own: u32) -> Result<Option<Work>, AllocError>
    ensures machine { IfOk result (λ task. MatchOption task (slice_get code.now.routines main
        ≡ None) (λ w. (c : RoutineCode) × (slice_get code.now.routines main ≡ Some c)
        × (w ≡ first_machine c own))) }
    ensures source { IfOk result (λ task. Starts code.now main own task) }
{
    match code.routine(main) {
        None => Ok(None),
        Some(routine) => {
            let work = Work::first(alloc, routine, own)?;
            Ok(Some(work))
        }
    }
}
