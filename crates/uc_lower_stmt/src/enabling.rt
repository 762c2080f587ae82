// The code of statements that enable or disable events in a statement.

ghost use Rattle.std.specs.Prelude.{◌≡◌, ◌+◌, ◌*◌, ◌≤◌, ◌<◌, length, OnOk};
ghost use Rattle.uc_tree.specs.declared.limits.TheConstants.{FRAME_CELLS, OPS_FOR_SIZE, PROGRAM_OPS, PROGRAM_SIZE};
ghost use Rattle.uc_tree.specs.Cells.{declared_cells, stmt_cells};
ghost use Rattle.uc_tree.specs.Numbering.{routines_of};
ghost use Rattle.uc_tree.specs.Scopes.{alone_scopes, stmt_scopes};
ghost use Rattle.uc_tree.specs.Sizes.{size_at};
ghost use Rattle.uc_tree.specs.StatementSizes.{stmt_size};
ghost use Rattle.uc_resolve.specs.Resolve.{events_meant};
ghost use Rattle.uc_code.specs.Emits.{Puts};
ghost use Rattle.uc_code.specs.Layout.{routine_in};
ghost use Rattle.uc_lower_stmt.specs.Enabling.{LowersEnabling, SwitchCode};
ghost use Rattle.uc_lower_stmt.specs.Marked.{objects_in, taken};

use crate::objects::close_scope;
use crate::stmt::lower_alone;
use std::alloc::{AllocError, Global};
use uc_code::draft::Draft;
use uc_code::op::Op;
use uc_code::raising::put_poll;
use uc_code::rows::{Cleaning, Opening};
use uc_lower_expr::program_names::ProgramNames;
use uc_lower_expr::put::put;
use uc_tree::kinds::EventName;
use uc_tree::stmt::Stmt;

/// What a statement does with the events that it names.
#[derive(Clone, Copy)]
pub(crate) enum Enabling {
    Enable,
    Disable,
}

// The events of a list by their numbers as bits; without a list they are all that there may be.
fn mask_of(events: &[EventName], names: &ProgramNames) -> u64
    ensures { result ≡ events_meant names.now events.now }
{
    if events.is_empty() {
        return u64::MAX;
    }
    let mut mask: u64 = 0;
    let mut i = events.len();
    while i > 0 {
        i -= 1;
        mask |= 1 << names.event(&events[i].name);
    }
    mask
}

// The op that enables or disables events, of which this cell keeps which were enabled before; what is enabled is delivered at once.
fn put_enabling(
    how: Enabling,
    events: u64,
    cell: u32,
    line: u32,
    out: &mut Draft,
) -> Result<(), AllocError>
    requires { length out.old.ops + 5 ≤ PROGRAM_OPS }
    ensures { OnOk result (Puts 0 5 (SwitchCode how events cell line out.old.marks) out.old
        out.new) }
{
    match how {
        Enabling::Enable => {
            put(Op::Enable { events, cell }, line, out)?;
            put_poll(line, out)?;
            Ok(())
        }
        Enabling::Disable => {
            put(Op::Disable { events, cell }, line, out)?;
            Ok(())
        }
    }
}

/// Adds the code of a statement in which events are enabled or disabled; behind it, and on each way out, are enabled those that were
/// before. After want of memory the draft is spent.
#[cycle(stmt)]
pub(crate) fn lower_enabling(
    alloc: Global,
    names: &ProgramNames,
    how: Enabling,
    events: &[EventName],
    body: &Stmt,
    line: u32,
    out: &mut Draft,
) -> Result<(), AllocError>
    requires inside { routine_in out.old.marks < length (routines_of names.now) }
    requires room { taken out.old + OPS_FOR_SIZE *
        (1 + size_at body.now (objects_in out.old.marks + 1)) ≤ PROGRAM_OPS }
    requires cells { out.old.cells + stmt_cells body.now (declared_cells names.now) ≤ FRAME_CELLS }
    requires scopes { out.old.scopes + (alone_scopes body.now + stmt_scopes body.now) ≤
        PROGRAM_SIZE }
    requires texts { out.old.texts + stmt_size body.now ≤ PROGRAM_SIZE }
    ensures { OnOk result (LowersEnabling names.now how line events.now body.now out.old out.new) }
{
    let events = mask_of(events, names);
    let cell = out.add_hidden(1)?;
    let what = Cleaning::Restore(cell);
    let _row = out.open(Opening::Object { what, line })?;
    put_enabling(how, events, cell, line, out)?;
    lower_alone(alloc, names, body, out)?;
    close_scope(what, line, out)?;
    Ok(())
}
