// The ops that compute with the newest operands.

ghost use Rattle.std.specs.Prelude.{◌≡◌, IfOk, OnErr};
ghost use Rattle.uc_frames.specs.Machine.{top, below, cell_number};
ghost use Rattle.uc_step.specs.Effects.{ended};
ghost use Rattle.uc_step.specs.OpEffects.{act_operator, Does, Ends};
ghost use Rattle.uc_step.specs.OperatorResults.{operator_of};

use crate::effect::{QuietResult, Stop, put_fault};
use crate::numbers::{Computed, Operator, in_range};
use crate::slot::Slot;
use std::alloc::AllocError;
use uc_code::code::Code;
use uc_code::op::Op;
use uc_frames::cell::{Cell, number_in};
use uc_frames::work::Work;
use uc_tree::int::negated;

// What was given takes the place of the two newest operands, or is a fault.
#[inline(never)]
pub(crate) fn two(
    code: &Code,
    line: u32,
    work: &mut Work,
    stop: &mut Stop,
    asked: &mut Slot,
    operator: Operator,
) -> Result<QuietResult, AllocError>
    ensures ok { IfOk result (λ how. Ends
        (act_operator code.now line (operator_of operator) work.old) (ended how stop.new asked.new) work.new) }
    ensures err { OnErr result (work.new ≡ work.old) }
{
    match operator.given(number_in(work.second()), number_in(work.top())) {
        Computed::Number(number) => {
            work.replace_two(Cell::Number(number))?;
            Ok(QuietResult::Quiet)
        }
        Computed::Fault(fault) => {
            work.pop();
            work.pop();
            Ok(put_fault(code, line, work, stop, asked, fault))
        }
    }
}

// The newest operand is negated, or that is a fault.
pub(crate) fn negate(
    code: &Code,
    line: u32,
    work: &mut Work,
    stop: &mut Stop,
    asked: &mut Slot,
) -> Result<QuietResult, AllocError>
    ensures ok { IfOk result (λ how. Does code.now line Op.Negate work.old
        (ended how stop.new asked.new) work.new) }
    ensures err { OnErr result (work.new ≡ work.old) }
{
    match in_range(negated(number_in(work.top()))) {
        Computed::Number(number) => {
            work.replace(Cell::Number(number))?;
            Ok(QuietResult::Quiet)
        }
        Computed::Fault(fault) => {
            work.pop();
            Ok(put_fault(code, line, work, stop, asked, fault))
        }
    }
}
