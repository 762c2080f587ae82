// The code of statements that raise events.

ghost use Rattle.std.specs.Prelude.{◌+◌, ◌*◌, ◌^◌, ◌≤◌, ◌<◌, length, Some, OnOk};
ghost use Rattle.uc_tree.specs.declared.limits.TheConstants.{OPS_FOR_SIZE, PROGRAM_OPS};
ghost use Rattle.uc_tree.specs.Expressions.{exprs_of};
ghost use Rattle.uc_tree.specs.ExpressionSizes.{expr_size, exprs_size};
ghost use Rattle.uc_resolve.specs.Resolve.{args_by, args_meant, params_of, raised_meant};
ghost use Rattle.uc_tree.specs.Source.{BuiltAt, CallOn, OfObject, Raise, Throw, Variable};
ghost use Rattle.uc_tree.specs.StatementSizes.{maybe_raised_size, raised_size};
ghost use Rattle.uc_code.specs.Lowered.{RaisedAt};
ghost use Rattle.uc_code.specs.Emits.{Puts};
ghost use Rattle.uc_lower_expr.specs.Contexts.{context_in};
ghost use Rattle.uc_lower_stmt.specs.Raising.{LowersRaise, LowersRaiseAt, LowersRaised};
ghost use Rattle.uc_lower_stmt.specs.LowersStatement.{scope_of};

use std::alloc::AllocError;
use uc_code::draft::Draft;
use uc_code::op::Op;
use uc_code::raising::{put_again, put_built, put_plain, put_raise, put_throw};
use uc_lower_expr::expr::{lower_args, lower_expr};
use uc_lower_expr::program_names::ProgramNames;
use uc_lower_expr::put::{put, put_at_risk};
use uc_tree::declare::Raised;
use uc_tree::expr::Expr;

// How many fields an event has.
const EVENT_FIELDS: u32 = 2;

// The event of this number, whose fields a constructor builds from this cell on.
fn lower_built(
    event: u8,
    routine: u32,
    cell: u32,
    args: &[Expr],
    line: u32,
    names: &ProgramNames,
    out: &mut Draft,
) -> Result<(), AllocError>
    requires room { length out.old.ops + OPS_FOR_SIZE * exprs_size (exprs_of args.now) + 8 ≤
        PROGRAM_OPS }
    requires cell { cell + 1 < 2 ^ 32 }
    ensures { OnOk result (Puts 0 (OPS_FOR_SIZE * exprs_size (exprs_of args.now) + 8)
        (λ code. RaisedAt code line out.old.marks
        (BuiltAt event cell (OfObject (CallOn routine (Variable cell)
        (args_by (params_of names.now routine)
        (args_meant (context_in names.now out.old) (exprs_of args.now))))))) out.old out.new) }
{
    put(
        Op::Clear {
            cell,
            cells: EVENT_FIELDS,
        },
        line,
        out,
    )?;
    put(Op::Local(cell), line, out)?;
    lower_args(names.params(routine), args, line, names, out)?;
    put(Op::Tick, line, out)?;
    put_at_risk(Op::CallOn(routine), line, out)?;
    put_built(event, cell, line, out)?;
    Ok(())
}

// The event of a name. Its constructor, where it is written, builds the fields in cells of their own.
fn lower_new(
    raised: &Raised,
    line: u32,
    names: &ProgramNames,
    out: &mut Draft,
) -> Result<(), AllocError>
    requires { length out.old.ops + OPS_FOR_SIZE * raised_size raised.now + 3 ≤ PROGRAM_OPS }
    ensures { OnOk result (LowersRaised names.now line (Some raised.now) out.old out.new) }
{
    let event = names.event(&raised.name);
    let constructor = names.event_constructor(&raised.name);
    let cell = out.add_hidden(EVENT_FIELDS)?;
    match constructor {
        None => {
            put_plain(event, line, out)?;
            Ok(())
        }
        Some(routine) => {
            lower_built(event, routine, cell, &raised.args, line, names, out)?;
            Ok(())
        }
    }
}

// The event that a statement raises: another one, or again the one that is handled.
fn lower_raised(
    raised: &Option<Raised>,
    line: u32,
    names: &ProgramNames,
    out: &mut Draft,
) -> Result<(), AllocError>
    requires { length out.old.ops + OPS_FOR_SIZE * maybe_raised_size raised.now + 3 ≤ PROGRAM_OPS }
    ensures { OnOk result (LowersRaised names.now line raised.now out.old out.new) }
{
    match raised {
        None => {
            put_again(out.handled(), line, out)?;
            Ok(())
        }
        Some(raised) => {
            lower_new(raised, line, names, out)?;
            Ok(())
        }
    }
}

/// Adds the code of a statement that throws an event, or again the one that is handled. After want of memory the draft is spent.
pub(crate) fn lower_throw(
    raised: &Option<Raised>,
    line: u32,
    names: &ProgramNames,
    out: &mut Draft,
) -> Result<(), AllocError>
    requires { length out.old.ops + OPS_FOR_SIZE * (1 + maybe_raised_size raised.now) ≤
        PROGRAM_OPS }
    ensures { OnOk result (LowersRaise names.now
        (Throw line (raised_meant names.now (scope_of out.old) raised.now)) raised.now out.old
        out.new) }
{
    lower_raised(raised, line, names, out)?;
    put_throw(line, out)?;
    Ok(())
}

/// Adds the code of a statement that raises an event for resumption, or again the one that is handled. After want of memory the draft
/// is spent.
pub(crate) fn lower_raise(
    raised: &Option<Raised>,
    line: u32,
    names: &ProgramNames,
    out: &mut Draft,
) -> Result<(), AllocError>
    requires { length out.old.ops + OPS_FOR_SIZE * (1 + maybe_raised_size raised.now) ≤
        PROGRAM_OPS }
    ensures { OnOk result (LowersRaise names.now
        (Raise line (raised_meant names.now (scope_of out.old) raised.now)) raised.now out.old
        out.new) }
{
    lower_raised(raised, line, names, out)?;
    put_raise(line, out)?;
    Ok(())
}

/// Adds the code of a statement that raises an event at a task or a coroutine. After want of memory the draft is spent.
pub(crate) fn lower_raise_at(
    raised: &Raised,
    target: &Expr,
    line: u32,
    names: &ProgramNames,
    out: &mut Draft,
) -> Result<(), AllocError>
    requires { length out.old.ops + OPS_FOR_SIZE *
        (1 + raised_size raised.now + expr_size target.now) ≤ PROGRAM_OPS }
    ensures { OnOk result (LowersRaiseAt names.now line raised.now target.now out.old out.new) }
{
    lower_new(raised, line, names, out)?;
    let _told = lower_expr(target, line, names, out)?;
    put(Op::RaiseAt, line, out)?;
    Ok(())
}
