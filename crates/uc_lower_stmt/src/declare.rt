// The code of declarations.

ghost use Rattle.std.specs.Prelude.{◌≡◌, ◌+◌, ◌*◌, ◌≤◌, ◌<◌, [], ◌∷◌, ◌++◌, Some, length, OnOk, IfOk};
ghost use Rattle.uc_tree.specs.declared.limits.TheConstants.{FRAME_CELLS, OPS_FOR_SIZE, PROGRAM_OPS};
ghost use Rattle.uc_tree.specs.Expressions.{exprs_of};
ghost use Rattle.uc_tree.specs.ExpressionSizes.{expr_size, exprs_size};
ghost use Rattle.uc_tree.specs.StatementSizes.{start_size, declarator_size, declarators_size};
ghost use Rattle.uc_tree.specs.Cells.{declared_cells, declarators_cells};
ghost use Rattle.uc_resolve.specs.Resolve.{meant, value_of, converted, start_meant, first_value, length_of, declared_known, declared_type, declared_meant, all_declared, with_declared, with_all};
ghost use Rattle.uc_lower_expr.specs.Meanings.{shape_as};
ghost use Rattle.uc_lower_expr.specs.DraftGrowth.{Adds};
ghost use Rattle.uc_lower_expr.specs.Contexts.{context_in};
ghost use Rattle.uc_lower_stmt.specs.LowersStatement.{Lowers, scope_of};
ghost use Rattle.uc_lower_stmt.specs.Pieces.{StartCode, VariablesCode};

use std::alloc::{AllocError, Global};
use uc_code::draft::Draft;
use uc_code::op::Op;
use uc_lower_expr::expr::lower_value;
use uc_lower_expr::meaning::Scalar;
use uc_lower_expr::program_names::ProgramNames;
use uc_lower_expr::put::{put, put_conversion};
use uc_tree::declare::{Declarator, Start, StartForm};
use uc_tree::expr::Expr;
use uc_tree::kinds::{Base, Ty};

// The same base.
pub(crate) fn copy_of(alloc: Global, base: &Base) -> Result<Base, AllocError>
    ensures { IfOk result (λ copy. copy ≡ base.now) }
{
    match base {
        Base::Void => Ok(Base::Void),
        Base::Int => Ok(Base::Int),
        Base::Char => Ok(Base::Char),
        Base::Bool => Ok(Base::Bool),
        Base::Condition => Ok(Base::Condition),
        Base::Cluster => Ok(Base::Cluster),
        Base::Processor => Ok(Base::Processor),
        Base::Named(name) => {
            let name = name.copy(alloc)?;
            Ok(Base::Named(name))
        }
    }
}

// The length of an array.
pub(crate) fn length_of(names: &ProgramNames, declarator: &Declarator) -> Option<u32>
    ensures { result ≡ length_of names.now declarator.now declarator.now.len }
{
    match &declarator.len {
        Some(_) => Some(names.sizes().elements_of_variable(declarator)),
        None => None,
    }
}

fn type_of(
    alloc: Global,
    names: &ProgramNames,
    base: &Base,
    declarator: &Declarator,
) -> Result<Ty, AllocError>
    ensures { IfOk result (λ ty. ty ≡ declared_type names.now base.now declarator.now) }
{
    let base = copy_of(alloc, base)?;
    let len = length_of(names, declarator);
    Ok(Ty {
        base,
        by_ref: declarator.by_ref,
        len,
    })
}

// A value is written to a variable.
fn lower_first(
    value: &Expr,
    cell: u32,
    scalar: Scalar,
    line: u32,
    names: &ProgramNames,
    out: &mut Draft,
) -> Result<(), AllocError>
    requires { length out.old.ops + OPS_FOR_SIZE * expr_size value.now + 3 ≤ PROGRAM_OPS }
    ensures { OnOk result (Adds (OPS_FOR_SIZE * expr_size value.now + 3)
        (StartCode line out.old.marks cell
        (Some (converted (shape_as scalar)
        (value_of (meant (context_in names.now out.old) value.now))))) out.old out.new) }
{
    put(Op::Local(cell), line, out)?;
    let _told = lower_value(value, line, names, out)?;
    put_conversion(scalar, line, out)?;
    put(Op::Store, line, out)?;
    Ok(())
}

fn lower_start(
    start: &Start,
    cell: u32,
    scalar: Scalar,
    line: u32,
    names: &ProgramNames,
    out: &mut Draft,
) -> Result<(), AllocError>
    requires { length out.old.ops + OPS_FOR_SIZE * start_size start.now + 3 ≤ PROGRAM_OPS }
    ensures { OnOk result (Adds (OPS_FOR_SIZE * start_size start.now + 3)
        (StartCode line out.old.marks cell
        (start_meant (context_in names.now out.old) (shape_as scalar) start.now)) out.old out.new) }
{
    match &start.form {
        StartForm::Nothing => Ok(()),
        StartForm::Value { value } => lower_first(value, cell, scalar, line, names, out),
        StartForm::Args { args } => lower_args(args, cell, scalar, line, names, out),
    }
}

// The first argument is the value.
fn lower_args(
    args: &[Expr],
    cell: u32,
    scalar: Scalar,
    line: u32,
    names: &ProgramNames,
    out: &mut Draft,
) -> Result<(), AllocError>
    requires { length out.old.ops + OPS_FOR_SIZE * exprs_size (exprs_of args.now) + 3 ≤
        PROGRAM_OPS }
    ensures { OnOk result (Adds (OPS_FOR_SIZE * exprs_size (exprs_of args.now) + 3)
        (StartCode line out.old.marks cell
        (first_value (context_in names.now out.old) (shape_as scalar) (exprs_of args.now))) out.old
        out.new) }
{
    match args.first() {
        Some(value) => lower_first(value, cell, scalar, line, names, out),
        None => Ok(()),
    }
}

// A variable is 0, or starts with its value; then its name is in scope.
fn lower_declarator(
    alloc: Global,
    names: &ProgramNames,
    base: &Base,
    declarator: &Declarator,
    line: u32,
    out: &mut Draft,
) -> Result<(), AllocError>
    requires room { length out.old.ops + OPS_FOR_SIZE * declarator_size declarator.now ≤
        PROGRAM_OPS }
    requires cells { out.old.cells + declared_cells names.now base.now declarator.now ≤
        FRAME_CELLS }
    ensures { OnOk result (Lowers 0 (OPS_FOR_SIZE * declarator_size declarator.now) 0
        (declared_cells names.now base.now declarator.now) 0
        (VariablesCode line out.old.marks
        (declared_meant names.now (scope_of out.old) base.now declarator.now ∷ []))
        (with_declared names.now (scope_of out.old) base.now declarator.now) out.old out.new) }
{
    let cells = names.sizes().cells_of_variable(base, declarator) as u32;
    let cell = out.cells();
    put(Op::Clear { cell, cells }, line, out)?;
    let scalar = Scalar::of_base(base);
    lower_start(&declarator.start, cell, scalar, line, names, out)?;
    declare_variable(alloc, names, base, declarator, cells, out)?;
    Ok(())
}

/// A variable with so many cells is in scope from here on.
pub(crate) fn declare_variable(
    alloc: Global,
    names: &ProgramNames,
    base: &Base,
    declarator: &Declarator,
    cells: u32,
    out: &mut Draft,
) -> Result<(), AllocError>
    requires cells { cells ≡ declared_cells names.now base.now declarator.now }
    requires room { out.old.cells + cells ≤ FRAME_CELLS }
    ensures { OnOk result (out.new ≡ record out.old {
      names = out.old.names ++ declared_known names.now (scope_of out.old) base.now
          declarator.now ∷ [];
      cells = out.old.cells + cells;
    }) }
{
    let name = declarator.name.copy(alloc)?;
    let ty = type_of(alloc, names, base, declarator)?;
    out.declare(name, ty, cells)?;
    Ok(())
}

/// Adds the code of a declaration. After want of memory the draft is spent.
pub fn lower_declarators(
    alloc: Global,
    names: &ProgramNames,
    base: &Base,
    declarators: &[Declarator],
    line: u32,
    out: &mut Draft,
) -> Result<(), AllocError>
    requires room { length out.old.ops + OPS_FOR_SIZE * declarators_size declarators.now ≤
        PROGRAM_OPS }
    requires cells { out.old.cells + declarators_cells (declared_cells names.now base.now)
        declarators.now ≤ FRAME_CELLS }
    ensures { OnOk result (Lowers 0 (OPS_FOR_SIZE * declarators_size declarators.now) 0
        (declarators_cells (declared_cells names.now base.now) declarators.now) 0
        (VariablesCode line out.old.marks
        (all_declared names.now (scope_of out.old) base.now declarators.now))
        (with_all names.now (scope_of out.old) base.now declarators.now) out.old out.new) }
{
    for declarator in declarators {
        lower_declarator(alloc, names, base, declarator, line, out)?;
    }
    Ok(())
}
