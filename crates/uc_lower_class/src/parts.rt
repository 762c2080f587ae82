// A field of a class, as its constructor builds it and its destructor leaves it.

ghost use Rattle.std.specs.Prelude.{◌≡◌, ◌+◌, ◌*◌, ◌≤◌, ℕ, List, Some, OnOk, length, reverse};
ghost use Rattle.uc_tree.specs.declared.limits.TheConstants.{OPS_FOR_SIZE, PROGRAM_OPS};
ghost use Rattle.uc_tree.specs.Expressions.{exprs_of};
ghost use Rattle.uc_tree.specs.ExpressionSizes.{expr_size, exprs_size};
ghost use Rattle.uc_tree.specs.Objects.{ClassField};
ghost use Rattle.uc_tree.specs.Programs.{Class};
ghost use Rattle.uc_tree.specs.Source.{Built, Expr as Place, Scoped, Then};
ghost use Rattle.uc_resolve.specs.Resolve.{args_meant, build, clean_up, meant};
ghost use Rattle.uc_code.specs.declared.rows.Cleaning.{Cleaning as Clean};
ghost use Rattle.uc_code.specs.ObjectCalls.{BeginsAt};
ghost use Rattle.uc_lower_expr.specs.DraftGrowth.{Adds, ExprCode};
ghost use Rattle.uc_lower_expr.specs.Contexts.{context_in};
ghost use Rattle.uc_lower_expr.specs.Meanings.{making_of, shape_as};
ghost use Rattle.uc_lower_expr.specs.Members.{HasClass, IsFieldAt};
ghost use Rattle.uc_lower_stmt.specs.Blocks.{AllStandBehind};
ghost use Rattle.uc_lower_class.specs.Bodies.{part_end};
ghost use Rattle.uc_lower_class.specs.Fields.{PartBehind, StartedCode, field_then, held_by, keep_op, left_then, part_in, part_room, started_then};
ghost use Rattle.uc_lower_class.specs.OpenParts.{Constructs, EndsParts, Opens, PartsIn, end_room};

use std::alloc::AllocError;
use uc_code::draft::Draft;
use uc_code::op::Op;
use uc_code::rows::{Cleaning, ObjectSpot, Opening};
use uc_lower_expr::expr::{lower_expr, lower_value};
use uc_lower_expr::fields::Field;
use uc_lower_expr::making::Made;
use uc_lower_expr::program_names::ProgramNames;
use uc_lower_expr::put::{put, put_conversion};
use uc_lower_stmt::objects::{clean_call, close_part, lower_build};
use uc_tree::expr::Expr;

/// A field that is an object, a cluster or a processor: what is made, where it begins, and the length of an array.
#[derive(Clone, Copy)]
pub(crate) struct ObjectPart {
    pub made: Made,
    pub spot: ObjectSpot,
    pub length: Option<u32>,
}

// The part that a field is. A reference names no object of its own.
fn part_of(field: Field) -> Option<ObjectPart>
    ensures { result ≡ part_in field }
{
    if field.by_ref {
        return None;
    }
    match field.made {
        Some(made) => Some(ObjectPart {
            made,
            spot: ObjectSpot::This(field.cell),
            length: field.told.elements,
        }),
        None => None,
    }
}

// The place of its argument for a reference, the value as it is kept for a scalar.
fn put_held(
    field: Field,
    value: &Expr,
    names: &ProgramNames,
    out: &mut Draft,
) -> Result<(), AllocError>
    requires { length out.old.ops + (OPS_FOR_SIZE * expr_size value.now + 1) ≤ PROGRAM_OPS }
    ensures { OnOk result (Adds (OPS_FOR_SIZE * expr_size value.now + 1)
        (ExprCode 0 out.old.marks
        (held_by field.by_ref (shape_as field.told.scalar)
        (meant (context_in names.now out.old) value.now))) out.old out.new) }
{
    if field.by_ref {
        let _told = lower_expr(value, 0, names, out)?;
        Ok(())
    } else {
        let _told = lower_value(value, 0, names, out)?;
        put_conversion(field.told.scalar, 0, out)?;
        Ok(())
    }
}

// The op that binds a reference, or writes a scalar.
fn keep_op(by_ref: bool) -> Op
    ensures { result ≡ keep_op by_ref }
{
    if by_ref { Op::Bind } else { Op::Keep }
}

// A reference is bound to its argument, a scalar has the value of its.
fn put_started(
    field: Field,
    value: &Expr,
    names: &ProgramNames,
    out: &mut Draft,
) -> Result<(), AllocError>
    requires { length out.old.ops + (OPS_FOR_SIZE * expr_size value.now + 4) ≤ PROGRAM_OPS }
    ensures { OnOk result (Adds (OPS_FOR_SIZE * expr_size value.now + 4)
        (StartedCode out.old.marks field.cell field.by_ref
        (held_by field.by_ref (shape_as field.told.scalar)
        (meant (context_in names.now out.old) value.now))) out.old out.new) }
{
    put(Op::This(field.cell), 0, out)?;
    put_held(field, value, names, out)?;
    put(keep_op(field.by_ref), 0, out)?;
    put(Op::Discard, 0, out)?;
    Ok(())
}

// Without an argument it stays as it is.
fn lower_started(
    field: Field,
    args: &[Expr],
    names: &ProgramNames,
    out: &mut Draft,
) -> Result<(), AllocError>
    requires { length out.old.ops + (OPS_FOR_SIZE * exprs_size (exprs_of args.now) + 4)
        ≤ PROGRAM_OPS }
    ensures { OnOk result ((c : Class) (i number : ℕ) (f : ClassField) (parts : List Clean) →
        IsFieldAt names.now c i number f field →
        Constructs (OPS_FOR_SIZE * exprs_size (exprs_of args.now) + 4)
        (started_then names.now i number f
        (args_meant (context_in names.now out.old) (exprs_of args.now))) parts out.old parts
        out.new) }
{
    match args.first() {
        Some(value) => {
            put_started(field, value, names, out)?;
            Ok(())
        }
        None => Ok(()),
    }
}

// An object is built, and what follows stands behind it, as a part of the object under construction.
fn lower_part(
    part: ObjectPart,
    args: &[Expr],
    names: &ProgramNames,
    parts: &mut Vec<Cleaning>,
    out: &mut Draft,
) -> Result<(), AllocError>
    requires class { HasClass names.now part.made }
    requires room { length out.old.ops + end_room parts.old.items
        + (OPS_FOR_SIZE * exprs_size (exprs_of args.now) + part_room part.length) ≤ PROGRAM_OPS }
    requires behind { AllStandBehind names.now part.made out.old.marks }
    ensures { OnOk result ((place : Place) → BeginsAt place part.spot →
        Constructs (OPS_FOR_SIZE * exprs_size (exprs_of args.now) + part_room part.length)
        (λ rest. Then
        (build names.now 0 (making_of names.now part.made) part.length place
        (args_meant (context_in names.now out.old) (exprs_of args.now)))
        (Built (clean_up names.now (making_of names.now part.made) part.length place) rest))
        parts.old.items out.old parts.new.items out.new) }
{
    lower_build(part.made, part.spot, part.length, args, 0, names, out)?;
    parts.push(clean_call(part.made, part.spot, part.length, names))?;
    let _row = out.open(Opening::Part)?;
    Ok(())
}

/// Adds the code that builds a field with these arguments, in no line. What follows stands behind a part where it is an object, whose
/// clean-up is one more of `parts`. After want of memory the draft is spent.
pub(crate) fn lower_built(
    field: Field,
    args: &[Expr],
    names: &ProgramNames,
    parts: &mut Vec<Cleaning>,
    out: &mut Draft,
) -> Result<(), AllocError>
    requires room { length out.old.ops + end_room parts.old.items
        + (OPS_FOR_SIZE * exprs_size (exprs_of args.now) + part_room field.told.elements)
        ≤ PROGRAM_OPS }
    requires class { (m : Made) → field.made ≡ Some m → HasClass names.now m }
    requires behind { PartBehind names.now out.old.marks (part_in field) }
    ensures { OnOk result ((c : Class) (i number : ℕ) (f : ClassField) →
        IsFieldAt names.now c i number f field →
        Constructs (OPS_FOR_SIZE * exprs_size (exprs_of args.now) + part_room field.told.elements)
        (field_then names.now c i number f
        (args_meant (context_in names.now out.old) (exprs_of args.now))) parts.old.items out.old
        parts.new.items out.new) }
{
    match part_of(field) {
        Some(part) => {
            lower_part(part, args, names, parts, out)?;
            Ok(())
        }
        None => {
            lower_started(field, args, names, out)?;
            Ok(())
        }
    }
}

/// Opens the scope of a field where it is an object, in no line. After want of memory the draft is spent.
pub(crate) fn lower_left(
    field: Field,
    names: &ProgramNames,
    out: &mut Draft,
) -> Result<(), AllocError>
    requires class { (m : Made) → field.made ≡ Some m → HasClass names.now m }
    requires behind { PartBehind names.now out.old.marks (part_in field) }
    ensures { OnOk result ((c : Class) (i number : ℕ) (f : ClassField) →
        IsFieldAt names.now c i number f field →
        Opens 1 (left_then names.now c i number f) out.old out.new) }
{
    match part_of(field) {
        Some(part) => {
            let what = clean_call(part.made, part.spot, part.length, names);
            let _row = out.open(Opening::Object { what, line: 0 })?;
            Ok(())
        }
        None => Ok(()),
    }
}

/// Ends what follows these parts, the last one first. After want of memory the draft is spent.
pub(crate) fn close_parts(parts: &mut Vec<Cleaning>, out: &mut Draft) -> Result<(), AllocError>
    requires parts { PartsIn (reverse parts.old.items) out.old.marks }
    requires room { length out.old.ops + end_room parts.old.items + part_end ≤ PROGRAM_OPS }
    ensures { OnOk result (EndsParts (reverse parts.old.items) out.old out.new) }
{
    while let Some(what) = parts.pop() {
        close_part(what, 0, out)?;
    }
    Ok(())
}
