// The fields of a class, in order.

ghost use Rattle.std.specs.Prelude.{◌≡◌, ◌+◌, ◌*◌, ◌≤◌, Some, OnOk, length, slice_get};
ghost use Rattle.uc_tree.specs.declared.limits.TheConstants.{OPS_FOR_SIZE, PROGRAM_OPS};
ghost use Rattle.uc_tree.specs.Cells.{leading_cells};
ghost use Rattle.uc_tree.specs.Expressions.{exprs_of};
ghost use Rattle.uc_tree.specs.ExpressionSizes.{exprs_size};
ghost use Rattle.uc_tree.specs.Objects.{ClassField, class_at, fields_of};
ghost use Rattle.uc_tree.specs.Programs.{Class as Whole};
ghost use Rattle.uc_resolve.specs.Resolve.{args_meant, fields_built, fields_left};
ghost use Rattle.uc_lower_expr.specs.Contexts.{context_in};
ghost use Rattle.uc_code.specs.Layout.{routine_in};
ghost use Rattle.uc_lower_stmt.specs.Marked.{closing};
ghost use Rattle.uc_lower_stmt.specs.LowersStatement.{scope_of};
ghost use Rattle.uc_lower_class.specs.Fields.{FieldsBehind, all_built, all_left, all_room, field_then, fields_room, left_count, left_room, left_then, room_by};
ghost use Rattle.uc_lower_class.specs.OpenParts.{Constructs, LeavesAll, Opens, end_room};

use crate::executions::{open_ending, open_execution, open_started, set_up, take_down};
use crate::inits::{args_for, names_of_fields, places_of};
use crate::parts::{lower_built, lower_left};
use std::alloc::{AllocError, Global};
use uc_code::draft::Draft;
use uc_code::rows::Cleaning;
use uc_lower_expr::program_names::ProgramNames;
use uc_tree::class::{Class, Init};
use uc_tree::expr::Expr;

// The field with this place in a class is built with these arguments.
fn build_field(
    class: usize,
    place: usize,
    args: &[Expr],
    names: &ProgramNames,
    parts: &mut Vec<Cleaning>,
    out: &mut Draft,
) -> Result<(), AllocError>
    requires room { (c : Whole) (f : ClassField) → class_at names.now class ≡ Some c →
        slice_get (fields_of c.members) place ≡ Some f →
        length out.old.ops + end_room parts.old.items
        + (OPS_FOR_SIZE * exprs_size (exprs_of args.now) + room_by f.declarator.len) ≤ PROGRAM_OPS }
    requires behind { FieldsBehind names.now class (routine_in out.old.marks) }
    ensures { OnOk result ((c : Whole) (f : ClassField) → class_at names.now class ≡ Some c →
        slice_get (fields_of c.members) place ≡ Some f →
        Constructs (OPS_FOR_SIZE * exprs_size (exprs_of args.now) + room_by f.declarator.len)
        (field_then names.now c class (leading_cells c.kind + place) f
        (args_meant (context_in names.now out.old) (exprs_of args.now))) parts.old.items out.old
        parts.new.items out.new) }
{
    match names.field_at(class, place) {
        Some(field) => {
            lower_built(field, args, names, parts, out)?;
            Ok(())
        }
        None => Ok(()),
    }
}

// The fields of a class with this place are built, in order, with these initialisers.
fn build_fields(
    alloc: Global,
    at: &Class,
    class: usize,
    inits: &[Init],
    names: &ProgramNames,
    parts: &mut Vec<Cleaning>,
    out: &mut Draft,
) -> Result<(), AllocError>
    requires there { class_at names.now class ≡ Some at.now }
    requires room { length out.old.ops + end_room parts.old.items
        + fields_room inits.now (fields_of at.now.members) ≤ PROGRAM_OPS }
    requires behind { FieldsBehind names.now class (routine_in out.old.marks) }
    ensures { OnOk result (Constructs (fields_room inits.now (fields_of at.now.members))
        (fields_built names.now at.now class inits.now (scope_of out.old) (fields_of at.now.members)
        (leading_cells at.now.kind)) parts.old.items out.old parts.new.items out.new) }
{
    let places = places_of(alloc, inits)?;
    let fields = names_of_fields(alloc, at)?;
    for (place, name) in fields.iter().enumerate() {
        let args = args_for(inits, &places, name);
        build_field(class, place, args, names, parts, out)?;
    }
    Ok(())
}

// The execution of an object of a class with this place is set up, if it is a coroutine, its fields are built, and what its body will
// start stands behind a part.
fn build_class(
    alloc: Global,
    at: &Class,
    class: usize,
    inits: &[Init],
    names: &ProgramNames,
    parts: &mut Vec<Cleaning>,
    out: &mut Draft,
) -> Result<(), AllocError>
    requires there { class_at names.now class ≡ Some at.now }
    requires room { length out.old.ops + end_room parts.old.items + all_room inits.now (Some at.now)
        ≤ PROGRAM_OPS }
    requires behind { FieldsBehind names.now class (routine_in out.old.marks) }
    ensures { OnOk result (Constructs (all_room inits.now (Some at.now))
        (all_built names.now class inits.now (scope_of out.old) (Some at.now)) parts.old.items
        out.old parts.new.items out.new) }
{
    let coroutine = names.has_coroutines(Some(class));
    set_up(coroutine, class, names, parts, out)?;
    build_fields(alloc, at, class, inits, names, parts, out)?;
    open_started(coroutine, parts, out)?;
    Ok(())
}

/// The fields of the class with this place are built, in order, with these initialisers, in no line, in a coroutine between the setting up
/// of its execution and the part that unwinds it. After want of memory the draft is spent.
pub(crate) fn build_all(
    alloc: Global,
    class: usize,
    inits: &[Init],
    names: &ProgramNames,
    parts: &mut Vec<Cleaning>,
    out: &mut Draft,
) -> Result<(), AllocError>
    requires room { length out.old.ops + end_room parts.old.items
        + all_room inits.now (class_at names.now class) ≤ PROGRAM_OPS }
    requires behind { FieldsBehind names.now class (routine_in out.old.marks) }
    ensures { OnOk result (Constructs (all_room inits.now (class_at names.now class))
        (all_built names.now class inits.now (scope_of out.old) (class_at names.now class))
        parts.old.items out.old parts.new.items out.new) }
{
    match names.sizes().class(class) {
        Some(at) => {
            build_class(alloc, at, class, inits, names, parts, out)?;
            Ok(())
        }
        None => Ok(()),
    }
}

// The scope of the field with this place in a class is opened.
fn leave_field(
    class: usize,
    place: usize,
    names: &ProgramNames,
    out: &mut Draft,
) -> Result<(), AllocError>
    requires { FieldsBehind names.now class (routine_in out.old.marks) }
    ensures { OnOk result ((c : Whole) (f : ClassField) → class_at names.now class ≡ Some c →
        slice_get (fields_of c.members) place ≡ Some f →
        Opens 1 (left_then names.now c class (leading_cells c.kind + place) f) out.old out.new) }
{
    match names.field_at(class, place) {
        Some(field) => {
            lower_left(field, names, out)?;
            Ok(())
        }
        None => Ok(()),
    }
}

// The scopes of the fields of a class with this place are opened, in order.
fn leave_fields(
    at: &Class,
    class: usize,
    names: &ProgramNames,
    out: &mut Draft,
) -> Result<(), AllocError>
    requires there { class_at names.now class ≡ Some at.now }
    requires behind { FieldsBehind names.now class (routine_in out.old.marks) }
    ensures { OnOk result (Opens (length (fields_of at.now.members))
        (fields_left names.now at.now class (fields_of at.now.members) (leading_cells at.now.kind))
        out.old out.new) }
{
    for place in 0..names.field_count(class) {
        leave_field(class, place, names, out)?;
    }
    Ok(())
}

// The scopes of an object of a class with this place are opened, that of a mutex object first, and it is unwound, if it is a coroutine.
fn leave_class(
    at: &Class,
    class: usize,
    names: &ProgramNames,
    out: &mut Draft,
) -> Result<(), AllocError>
    requires there { class_at names.now class ≡ Some at.now }
    requires outside { closing out.old.marks ≡ 0 }
    requires room { length out.old.ops + left_room (Some at.now) ≤ PROGRAM_OPS }
    requires behind { FieldsBehind names.now class (routine_in out.old.marks) }
    ensures { OnOk result (LeavesAll (left_room (Some at.now)) (left_count (Some at.now))
        (all_left names.now class (Some at.now)) out.old out.new) }
{
    let coroutine = names.has_coroutines(Some(class));
    open_ending(names.is_mutex(class), out)?;
    open_execution(coroutine, out)?;
    leave_fields(at, class, names, out)?;
    take_down(coroutine, out)?;
    Ok(())
}

/// The scopes of the fields of the class with this place are opened, in order, in no line, in a coroutine between that of its execution
/// and its unwinding. After want of memory the draft is spent.
pub(crate) fn leave_all(
    class: usize,
    names: &ProgramNames,
    out: &mut Draft,
) -> Result<(), AllocError>
    requires outside { closing out.old.marks ≡ 0 }
    requires room { length out.old.ops + left_room (class_at names.now class) ≤ PROGRAM_OPS }
    requires behind { FieldsBehind names.now class (routine_in out.old.marks) }
    ensures { OnOk result (LeavesAll (left_room (class_at names.now class))
        (left_count (class_at names.now class))
        (all_left names.now class (class_at names.now class)) out.old out.new) }
{
    match names.sizes().class(class) {
        Some(at) => {
            leave_class(at, class, names, out)?;
            Ok(())
        }
        None => Ok(()),
    }
}
