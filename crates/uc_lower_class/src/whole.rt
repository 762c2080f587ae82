// The block that is the body of a constructor or a destructor, which is left as a whole.

ghost use Rattle.std.specs.Prelude.{◌≡◌, true, ◌+◌, ◌*◌, ◌≤◌, ◌<◌, length, OnOk};
ghost use Rattle.uc_tree.specs.declared.limits.TheConstants.{FRAME_CELLS, OPS_FOR_SIZE, PROGRAM_OPS, PROGRAM_SIZE};
ghost use Rattle.uc_tree.specs.StatementSizes.{stmts_size};
ghost use Rattle.uc_tree.specs.Cells.{declared_cells, stmts_cells};
ghost use Rattle.uc_tree.specs.Numbering.{routines_of};
ghost use Rattle.uc_tree.specs.Scopes.{stmts_scopes};
ghost use Rattle.uc_code.specs.Layout.{routine_in};
ghost use Rattle.uc_lower_stmt.specs.LowersStatement.{sizes_at};
ghost use Rattle.uc_lower_class.specs.Bodies.{LowersWhole};

use std::alloc::{AllocError, Global};
use uc_code::draft::Draft;
use uc_code::op::Op;
use uc_code::rows::Opening;
use uc_lower_expr::program_names::ProgramNames;
use uc_lower_expr::put::{put, put_at_risk};
use uc_lower_stmt::routine::{body_of, line_of};
use uc_lower_stmt::stmt::lower_stmts;
use uc_tree::class::Routine;

/// Adds the code of the block that is a routine's body: whatever leaves it goes on behind it, also where a `return` of a handler
/// unwinds it. After want of memory the draft is spent.
pub(crate) fn lower_whole(
    alloc: Global,
    names: &ProgramNames,
    routine: &Routine,
    out: &mut Draft,
) -> Result<(), AllocError>
    requires inside { routine_in out.old.marks < length (routines_of names.now) }
    requires room { length out.old.ops + (4 + OPS_FOR_SIZE * sizes_at routine.now.body 0)
        ≤ PROGRAM_OPS }
    requires cells { out.old.cells + stmts_cells routine.now.body (declared_cells names.now)
        ≤ FRAME_CELLS }
    requires scopes { out.old.scopes + stmts_scopes routine.now.body ≤ PROGRAM_SIZE }
    requires texts { out.old.texts + stmts_size routine.now.body ≤ PROGRAM_SIZE }
    ensures { OnOk result (LowersWhole names.now routine.now out.old out.new) }
{
    let line = line_of(routine);
    let start = out.here();
    put(Op::Jump(start + 2), line, out)?;
    put(Op::Jump(0), line, out)?;
    let _row = out.open(Opening::Whole { leave: start + 1 })?;
    lower_stmts(alloc, names, body_of(routine), line, out)?;
    out.close(1);
    let end = out.here() + 2;
    put(Op::Jump(end), line, out)?;
    put_at_risk(Op::Handled, line, out)?;
    out.patch(start + 1, Op::Jump(end));
    Ok(())
}
