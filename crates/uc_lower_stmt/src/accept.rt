// The code of accept statements.

ghost use Rattle.std.specs.Prelude.{◌≡◌, true, ◌+◌, ◌*◌, ◌≤◌, ◌<◌, length, IfOk, OnOk};
ghost use Rattle.uc_tree.specs.declared.limits.TheConstants.{FRAME_CELLS, OPS_FOR_SIZE, PROGRAM_OPS, PROGRAM_SIZE};
ghost use Rattle.uc_tree.specs.Cells.{clauses_cells, declared_cells, maybe_cells};
ghost use Rattle.uc_tree.specs.Numbering.{routines_of};
ghost use Rattle.uc_tree.specs.Scopes.{clauses_scopes, maybe_scopes};
ghost use Rattle.uc_tree.specs.Statements.{clauses_of};
ghost use Rattle.uc_tree.specs.StatementSizes.{clauses_size, maybe_stmt_size};
ghost use Rattle.uc_tree.specs.StatementViews.{maybe_at};
ghost use Rattle.uc_code.specs.Layout.{routine_in};
ghost use Rattle.uc_code.specs.CodeShapes.{AcceptsAt};
ghost use Rattle.uc_code.specs.Emits.{Puts};
ghost use Rattle.uc_code.specs.Lowered.{ExprAt};
ghost use Rattle.uc_lower_expr.specs.Contexts.{context_in};
ghost use Rattle.uc_lower_expr.specs.DraftGrowth.{Adds, ExprCode};
ghost use Rattle.uc_lower_stmt.specs.Accepting.{GuardsCode, HolesCode, LowersAccept, LowersBranches, LowersChoice, accept_room, branches_room, choice_room, guard_meant, guard_of, guard_room, guards_room};
ghost use Rattle.uc_lower_stmt.specs.Control.{maybe_at_size};
ghost use Rattle.uc_lower_stmt.specs.Marked.{objects_in, taken};

use crate::stmt::{lower_alone, lower_maybe};
use std::alloc::{AllocError, Global};
use uc_code::draft::Draft;
use uc_code::op::Op;
use uc_code::raising::{put_poll, put_raise};
use uc_lower_expr::expr::lower_value;
use uc_lower_expr::program_names::ProgramNames;
use uc_lower_expr::put::put;
use uc_tree::limits::PROGRAM_SIZE;
use uc_tree::stmt::{Clause, Stmt};

// The guard of a clause: one that is not written is true.
fn lower_guard(
    clause: &Clause,
    line: u32,
    names: &ProgramNames,
    out: &mut Draft,
) -> Result<(), AllocError>
    requires { length out.old.ops + guard_room (guard_of clause.now) ≤ PROGRAM_OPS }
    ensures { OnOk result (Adds (guard_room (guard_of clause.now))
        (ExprCode line out.old.marks (guard_meant (context_in names.now out.old)
        (guard_of clause.now))) out.old out.new) }
{
    match &clause.guard {
        Some(test) => {
            let _told = lower_value(test, line, names, out)?;
            Ok(())
        }
        None => {
            put(Op::Push(1), line, out)?;
            Ok(())
        }
    }
}

fn lower_guards(
    clauses: &[Clause],
    line: u32,
    names: &ProgramNames,
    out: &mut Draft,
) -> Result<(), AllocError>
    requires { length out.old.ops + guards_room clauses.now ≤ PROGRAM_OPS }
    ensures { OnOk result (Adds (guards_room clauses.now)
        (GuardsCode line out.old.marks (context_in names.now out.old) clauses.now) out.old
        out.new) }
{
    for clause in clauses {
        lower_guard(clause, line, names, out)?;
    }
    Ok(())
}

// The statement of this number asks, a call that has failed is raised for resumption, and events are delivered.
fn put_accept(site: u32, guards: u32, line: u32, out: &mut Draft) -> Result<(), AllocError>
    requires { length out.old.ops + 8 ≤ PROGRAM_OPS }
    ensures { OnOk result (Puts 0 8 (λ code. AcceptsAt code out.old.marks site guards line) out.old
        out.new) }
{
    let ask = out.here();
    let end = ask + 8;
    put(Op::Accept { site, guards, end }, line, out)?;
    put(Op::Failed(ask + 4), line, out)?;
    put_raise(line, out)?;
    put_poll(line, out)?;
    Ok(())
}

// So many jumps, whose places are still to come.
fn put_holes(count: usize, line: u32, out: &mut Draft) -> Result<(), AllocError>
    requires { length out.old.ops + count ≤ PROGRAM_OPS }
    ensures { OnOk result (Adds count (HolesCode line count) out.old out.new) }
{
    for _ in 0..count {
        put(Op::Jump(0), line, out)?;
    }
    Ok(())
}

// What stands before the branches. The result is the place of the choice, behind which stand its jumps. A program of too many accept
// statements is want of memory.
fn lower_choice(
    clauses: &[Clause],
    line: u32,
    names: &ProgramNames,
    out: &mut Draft,
) -> Result<u32, AllocError>
    requires { length out.old.ops + choice_room clauses.now ≤ PROGRAM_OPS }
    ensures place { IfOk result (λ choose. choose + (length clauses.now + 2) ≡ length out.new.ops) }
    ensures code { OnOk result (LowersChoice names.now line clauses.now out.old out.new) }
{
    if out.sites() as u64 >= PROGRAM_SIZE {
        return Err(AllocError);
    }
    let site = out.add_site();
    let count = clauses.len() as u32;
    lower_guards(clauses, line, names, out)?;
    put_accept(site, count, line, out)?;
    let choose = out.here();
    let choice = Op::Choose {
        clauses: count,
        end: 0,
    };
    put(choice, line, out)?;
    put_holes(clauses.len() + 1, line, out)?;
    Ok(choose)
}

// The branches of clauses, to which the jumps lead from the first one on, and that of an `_Else`, to which the jump of no clause leads.
// Behind each of them all goes on behind the last one.
#[cycle(stmt)]
fn lower_branches(
    alloc: Global,
    names: &ProgramNames,
    clauses: &[Clause],
    other: &Option<Box<Stmt>>,
    else_at: u32,
    first: u32,
    line: u32,
    out: &mut Draft,
) -> Result<(), AllocError>
    requires inside { routine_in out.old.marks < length (routines_of names.now) }
    requires before { else_at < first }
    requires jumps { first + length clauses.now ≤ length out.old.ops }
    requires room { taken out.old + (branches_room clauses.now (objects_in out.old.marks) +
        OPS_FOR_SIZE * maybe_at_size (maybe_at other.now) (objects_in out.old.marks)) ≤
        PROGRAM_OPS }
    requires cells { out.old.cells + (clauses_cells (clauses_of clauses.now)
        (declared_cells names.now) + maybe_cells (maybe_at other.now) (declared_cells names.now)) ≤
        FRAME_CELLS }
    requires scopes { out.old.scopes + (clauses_scopes (clauses_of clauses.now) + maybe_scopes
        (maybe_at other.now)) ≤ PROGRAM_SIZE }
    requires texts { out.old.texts + (clauses_size (clauses_of clauses.now) + maybe_stmt_size
        (maybe_at other.now)) ≤ PROGRAM_SIZE }
    ensures { OnOk result (LowersBranches names.now line else_at first clauses.now
        (maybe_at other.now) out.old out.new) }
{
    match clauses.split_first() {
        None => {
            out.patch(else_at, Op::Jump(out.here()));
            lower_maybe(alloc, names, other, out)?;
            Ok(())
        }
        Some((clause, rest)) => {
            out.patch(first, Op::Jump(out.here()));
            lower_alone(alloc, names, &clause.body, out)?;
            let leave = out.here();
            put(Op::Jump(0), line, out)?;
            lower_branches(alloc, names, rest, other, else_at, first + 1, line, out)?;
            out.patch(leave, Op::Jump(out.here()));
            Ok(())
        }
    }
}

/// Adds the code of an accept statement of this line. A program of too many accept statements is want of memory. After want of memory
/// the draft is spent.
#[cycle(stmt)]
pub(crate) fn lower_accept(
    alloc: Global,
    names: &ProgramNames,
    clauses: &[Clause],
    other: &Option<Box<Stmt>>,
    line: u32,
    out: &mut Draft,
) -> Result<(), AllocError>
    requires inside { routine_in out.old.marks < length (routines_of names.now) }
    requires room { taken out.old + accept_room clauses.now (maybe_at other.now)
        (objects_in out.old.marks) ≤ PROGRAM_OPS }
    requires cells { out.old.cells + (clauses_cells (clauses_of clauses.now)
        (declared_cells names.now) + maybe_cells (maybe_at other.now) (declared_cells names.now)) ≤
        FRAME_CELLS }
    requires scopes { out.old.scopes + (clauses_scopes (clauses_of clauses.now) + maybe_scopes
        (maybe_at other.now)) ≤ PROGRAM_SIZE }
    requires texts { out.old.texts + (clauses_size (clauses_of clauses.now) + maybe_stmt_size
        (maybe_at other.now)) ≤ PROGRAM_SIZE }
    ensures { OnOk result (LowersAccept names.now line clauses.now (maybe_at other.now) out.old
        out.new) }
{
    let choose = lower_choice(clauses, line, names, out)?;
    lower_branches(
        alloc,
        names,
        clauses,
        other,
        choose + 1,
        choose + 2,
        line,
        out,
    )?;
    let choice = Op::Choose {
        clauses: clauses.len() as u32,
        end: out.here(),
    };
    out.patch(choose, choice);
    Ok(())
}
