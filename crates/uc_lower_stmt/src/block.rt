// The scopes of objects in a block: each is opened where the object is declared, and all are ended behind the block, the last one
// first.

ghost use Rattle.std.specs.Prelude.{◌≡◌, ◌+◌, ◌*◌, ◌≤◌, length, reverse, OnOk};
ghost use Rattle.uc_tree.specs.declared.limits.TheConstants.{FRAME_CELLS, OPS_FOR_SIZE, PROGRAM_OPS};
ghost use Rattle.uc_tree.specs.Cells.{declared_cells, declarators_cells};
ghost use Rattle.uc_tree.specs.ExpressionSizes.{exprs_size};
ghost use Rattle.uc_tree.specs.StatementSizes.{declarator_size, declarators_size, start_size};
ghost use Rattle.uc_tree.specs.Expressions.{exprs_of};
ghost use Rattle.uc_resolve.specs.Resolve.{Context, args_meant, object_scoped, objects_scoped, with_all, with_declared};
ghost use Rattle.uc_lower_expr.specs.Meanings.{making_of};
ghost use Rattle.uc_lower_expr.specs.Members.{HasClass};
ghost use Rattle.uc_lower_stmt.specs.Blocks.{AllStandBehind, EndsScopes, innermost_in, scope_at, scope_by, started_args};
ghost use Rattle.uc_lower_stmt.specs.Marked.{taken};
ghost use Rattle.uc_lower_stmt.specs.OpenScopes.{Lays};
ghost use Rattle.uc_lower_stmt.specs.LowersStatement.{scope_of};

use crate::declare::{declare_variable, length_of};
use crate::objects::{clean_call, close_scope, lower_build};
use std::alloc::{AllocError, Global};
use uc_code::draft::Draft;
use uc_code::op::Op;
use uc_code::rows::{Cleaning, CodeMark, ObjectSpot, Opening};
use uc_lower_expr::making::Made;
use uc_lower_expr::program_names::ProgramNames;
use uc_lower_expr::put::put;
use uc_tree::declare::{Declarator, Start, StartForm};
use uc_tree::expr::Expr;
use uc_tree::kinds::Base;

// The arguments of the constructor of a declared object.
fn args_of(start: &Start) -> &[Expr]
    ensures meant { (c : Context) → args_meant c (exprs_of result.now) ≡ started_args c start.now }
    ensures size { exprs_size (exprs_of result.now) ≤ start_size start.now }
{
    match &start.form {
        StartForm::Nothing => &[],
        StartForm::Value { .. } => &[],
        StartForm::Args { args } => args,
    }
}

// An object, a cluster or a processor, or an array of them, is declared in this line, in a block of that line: its cells start at 0, it
// is built, and from then on it is in scope.
fn lower_object(
    alloc: Global,
    names: &ProgramNames,
    made: Made,
    base: &Base,
    declarator: &Declarator,
    line: u32,
    block: u32,
    out: &mut Draft,
) -> Result<(), AllocError>
    requires class { HasClass names.now made }
    requires room { taken out.old + OPS_FOR_SIZE * declarator_size declarator.now ≤ PROGRAM_OPS }
    requires cells { out.old.cells + declared_cells names.now base.now declarator.now ≤
        FRAME_CELLS }
    requires behind { AllStandBehind names.now made out.old.marks }
    ensures { OnOk result (Lays (OPS_FOR_SIZE * declarator_size declarator.now) 0
        (declared_cells names.now base.now declarator.now) 1 0 block
        (object_scoped names.now (making_of names.now made) line base.now declarator.now
        (scope_of out.old)) (with_declared names.now (scope_of out.old) base.now declarator.now)
        out.old out.new) }
{
    let cells = names.sizes().cells_of_variable(base, declarator) as u32;
    let cell = out.cells();
    put(Op::Clear { cell, cells }, line, out)?;
    let spot = ObjectSpot::Local(cell);
    let elements = length_of(names, declarator);
    let args = args_of(&declarator.start);
    lower_build(made, spot, elements, args, line, names, out)?;
    let what = clean_call(made, spot, elements, names);
    let _row = out.open(Opening::Object { what, line: block })?;
    declare_variable(alloc, names, base, declarator, cells, out)?;
    Ok(())
}

/// Adds the code of a declaration of objects, of clusters or of processors, in a block of that line; their scopes are open behind it.
/// After want of memory the draft is spent.
pub(crate) fn lower_objects(
    alloc: Global,
    names: &ProgramNames,
    made: Made,
    base: &Base,
    declarators: &[Declarator],
    line: u32,
    block: u32,
    out: &mut Draft,
) -> Result<(), AllocError>
    requires class { HasClass names.now made }
    requires room { taken out.old + OPS_FOR_SIZE * declarators_size declarators.now ≤ PROGRAM_OPS }
    requires cells { out.old.cells + declarators_cells (declared_cells names.now base.now)
        declarators.now ≤ FRAME_CELLS }
    requires behind { AllStandBehind names.now made out.old.marks }
    ensures { OnOk result (Lays (OPS_FOR_SIZE * declarators_size declarators.now) 0
        (declarators_cells (declared_cells names.now base.now) declarators.now)
        (length declarators.now) 0 block
        (objects_scoped names.now (making_of names.now made) line base.now declarators.now
        (scope_of out.old)) (with_all names.now (scope_of out.old) base.now declarators.now)
        out.old out.new) }
{
    for declarator in declarators {
        lower_object(alloc, names, made, base, declarator, line, block, out)?;
    }
    Ok(())
}

// The scope of an object: what cleans it up, and the line of its block.
#[derive(Clone, Copy)]
pub(crate) struct ObjectScope {
    what: Cleaning,
    line: u32,
}

// The scope with this clean-up. That of a mutex call ends with its routine.
fn scope_by(what: Cleaning, line: u32) -> Option<ObjectScope>
    ensures { result ≡ scope_by what line }
{
    match what {
        Cleaning::Call(_) => Some(ObjectScope { what, line }),
        Cleaning::TakeDown => Some(ObjectScope { what, line }),
        Cleaning::Forget => Some(ObjectScope { what, line }),
        Cleaning::Leave => None,
        Cleaning::End => Some(ObjectScope { what, line }),
        Cleaning::Free(_) => Some(ObjectScope { what, line }),
        Cleaning::Restore(_) => Some(ObjectScope { what, line }),
    }
}

fn scope_at(mark: CodeMark) -> Option<ObjectScope>
    ensures { result ≡ scope_at mark }
{
    match mark {
        CodeMark::Clean { what, line, .. } => scope_by(what, line),
        CodeMark::Body { .. } => None,
        CodeMark::Finish { .. } => None,
        CodeMark::Loop { .. } => None,
        CodeMark::Whole { .. } => None,
        CodeMark::Guard { .. } => None,
        CodeMark::Part { .. } => None,
        CodeMark::Elements { .. } => None,
        CodeMark::Outward { .. } => None,
    }
}

// The innermost scope of an object, where more marks stand than so many.
fn innermost(marks: &[CodeMark], count: usize) -> Option<ObjectScope>
    ensures { result ≡ innermost_in (reverse marks.now) count }
{
    if marks.len() <= count {
        return None;
    }
    match marks.last() {
        Some(mark) => scope_at(*mark),
        None => None,
    }
}

/// Ends the scopes of all objects behind the first marks, so many, the last one first. After want of memory the draft is spent.
pub fn close_scopes(count: usize, out: &mut Draft) -> Result<(), AllocError>
    requires { taken out.old ≤ PROGRAM_OPS }
    ensures { OnOk result (EndsScopes count out.old out.new) }
{
    while let Some(scope) = innermost(out.marks(), count) {
        close_scope(scope.what, scope.line, out)?;
    }
    Ok(())
}
