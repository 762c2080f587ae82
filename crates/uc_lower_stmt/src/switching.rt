// The code of statements that switch to another execution of the task.

ghost use Rattle.std.specs.Prelude.{◌+◌, ◌≤◌, length, OnOk};
ghost use Rattle.uc_tree.specs.declared.limits.TheConstants.{PROGRAM_OPS};
ghost use Rattle.uc_code.specs.Emits.{Puts};
ghost use Rattle.uc_code.specs.CodeShapes.{Both, One, PollAt, Risk};

use std::alloc::AllocError;
use uc_code::draft::Draft;
use uc_code::op::Op;
use uc_code::raising::put_poll;
use uc_lower_expr::put::{put, put_at_risk};

/// Adds an op that switches to another execution, that at which this one goes on, and what is delivered events then. After want of
/// memory the draft is spent.
pub(crate) fn put_switch(op: Op, line: u32, out: &mut Draft) -> Result<(), AllocError>
    requires { length out.old.ops + 6 ≤ PROGRAM_OPS }
    ensures { OnOk result (Puts 0 6 (λ code. Both (One code op line)
        (Both (Risk code out.old.marks Op.Land line) (PollAt code out.old.marks line))) out.old
        out.new) }
{
    put(op, line, out)?;
    put_at_risk(Op::Land, line, out)?;
    put_poll(line, out)?;
    Ok(())
}

/// Adds the op that lets others run, behind which the task is delivered events. After want of memory the draft is spent.
pub(crate) fn put_yield(line: u32, out: &mut Draft) -> Result<(), AllocError>
    requires { length out.old.ops + 5 ≤ PROGRAM_OPS }
    ensures { OnOk result (Puts 0 5 (λ code. Both (One code Op.Yield line)
        (PollAt code out.old.marks line)) out.old out.new) }
{
    put(Op::Yield, line, out)?;
    put_poll(line, out)?;
    Ok(())
}
