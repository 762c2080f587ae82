// Names in expressions: variables, the members of objects, and what the program has.

ghost use Rattle.std.specs.Prelude.{◌≡◌, ◌||◌, false, ◌+◌, ◌<◌, ◌≤◌, pos, None, Some, length, OnOk, IfOk};
ghost use Rattle.uc_tree.specs.declared.limits.TheConstants.{PROGRAM_OPS, OPS_FOR_SIZE};
ghost use Rattle.uc_tree.specs.Numbering.{routines_of};
ghost use Rattle.uc_tree.specs.Objects.{class_at};
ghost use Rattle.uc_resolve.specs.Resolve.{field_meant, name_meant, own_meant, place_member, member_meant, Of, item_meant, routine_meant_by, routine_from, known_named};
ghost use Rattle.uc_lower_expr.specs.Meanings.{Tells, member_standing};
ghost use Rattle.uc_lower_expr.specs.DraftGrowth.{Adds, Grows, ExprCode};
ghost use Rattle.uc_lower_expr.specs.Members.{no_field};
ghost use Rattle.uc_lower_expr.specs.Parts.{FieldCode, Restarts, place_op_of, own_place_op, own_standing, input_told};

use crate::fields::Field;
use crate::meaning::{ConditionCall, ExprMeaning, Scalar, Standing};
use crate::names::variable_named;
use crate::program_names::ProgramNames;
use crate::put::{put, restart};
use std::alloc::AllocError;
use uc_code::draft::Draft;
use uc_code::op::Op;
use uc_tree::name::Name;

// A name is that of a variable in scope, of a member of the class, or of a constant or a routine of the program.
pub(crate) fn lower_name(
    name: &Name,
    line: u32,
    names: &ProgramNames,
    out: &mut Draft,
) -> Result<ExprMeaning, AllocError>
    requires { length out.old.ops < PROGRAM_OPS }
    ensures code { OnOk result (Adds 1
        (ExprCode line out.old.marks
        (name_meant names.now out.old.place.class name.now
        (known_named out.old.names name.now)).expr) out.old out.new) }
    ensures tells { IfOk result (λ told. Tells names.now told
        (name_meant names.now out.old.place.class name.now (known_named out.old.names name.now))) }
{
    match variable_named(out, names, name) {
        Some(variable) => {
            put(place_op(variable.held, variable.cell), line, out)?;
            Ok(variable.told)
        }
        None => match out.place().class {
            Some(class) => lower_own_name(class, name, line, names, out),
            None => lower_item_name(name, line, names, out),
        },
    }
}

// A name in a routine of the class with this place, whose members hide what the program has under their names.
fn lower_own_name(
    class: usize,
    name: &Name,
    line: u32,
    names: &ProgramNames,
    out: &mut Draft,
) -> Result<ExprMeaning, AllocError>
    requires { length out.old.ops < PROGRAM_OPS }
    ensures code { OnOk result (Adds 1
        (ExprCode line out.old.marks (own_meant names.now (Some class) name.now).expr) out.old
        out.new) }
    ensures tells { IfOk result (λ told. Tells names.now told
        (own_meant names.now (Some class) name.now)) }
{
    match names.field(class, name) {
        Some(field) => match field.condition {
            Some(number) => {
                put(Op::Push(i64::from(number)), line, out)?;
                Ok(field.told.standing_as(Standing::Condition(number)))
            }
            None => {
                put(own_place_op(field.is_held(), field.cell), line, out)?;
                let standing = own_standing(field.number, field.by_ref, field.cell);
                Ok(field.told.standing_as(standing))
            }
        },
        None => lower_own_member(class, name, line, names, out),
    }
}

// The op that finds the place of a field of the object of the running call, or what it holds.
fn own_place_op(held: bool, cell: u32) -> Op
    ensures { result ≡ own_place_op held cell }
{
    if held {
        Op::ViaThis(cell)
    } else {
        Op::This(cell)
    }
}

// What is known by its number is the number that it holds, a reference is the place.
fn own_standing(number: bool, by_ref: bool, cell: u32) -> Standing
    ensures { result ≡ own_standing number by_ref cell }
{
    if number {
        Standing::Number
    } else if by_ref {
        Standing::Place
    } else {
        Standing::Field(cell)
    }
}

// A name that is that of no field of the class.
fn lower_own_member(
    class: usize,
    name: &Name,
    line: u32,
    names: &ProgramNames,
    out: &mut Draft,
) -> Result<ExprMeaning, AllocError>
    requires room { length out.old.ops < PROGRAM_OPS }
    requires no_field { no_field names.now class name.now (class_at names.now class) }
    ensures code { OnOk result (Adds 1
        (ExprCode line out.old.marks (own_meant names.now (Some class) name.now).expr) out.old
        out.new) }
    ensures tells { IfOk result (λ told. Tells names.now told
        (own_meant names.now (Some class) name.now)) }
{
    match names.member(class, name) {
        Some(routine) => {
            put(Op::Own, line, out)?;
            let standing = member_of(names.mutex_number(class, name), false, routine);
            Ok(names.result(routine).standing_as(standing))
        }
        None => lower_item_name(name, line, names, out),
    }
}

// The op that finds the place of a variable, or what it holds.
fn place_op(held: bool, cell: u32) -> Op
    ensures { result ≡ place_op_of held cell }
{
    if held { Op::Via(cell) } else { Op::Local(cell) }
}

fn lower_item_name(
    name: &Name,
    line: u32,
    names: &ProgramNames,
    out: &mut Draft,
) -> Result<ExprMeaning, AllocError>
    requires { length out.old.ops < PROGRAM_OPS }
    ensures code { OnOk result (Adds 1
        (ExprCode line out.old.marks (item_meant names.now name.now).expr) out.old out.new) }
    ensures tells { IfOk result (λ told. Tells names.now told (item_meant names.now name.now)) }
{
    match names.constant(name) {
        Some(fixed) => {
            put(Op::Push(fixed.value), line, out)?;
            Ok(fixed.told)
        }
        None => {
            put(Op::Push(0), line, out)?;
            Ok(routine_told(name, names))
        }
    }
}

fn routine_told(name: &Name, names: &ProgramNames) -> ExprMeaning
    ensures { Tells names.now result
        (routine_meant_by names.now (routine_from (routines_of names.now) 0 name.now)) }
{
    match names.routine(name) {
        Some(routine) => names
            .result(routine)
            .standing_as(Standing::Routine(routine)),
        None => ExprMeaning::nothing(),
    }
}

// A field or a member of what stands from `start` on, or a call of a condition. `fail` is the only one of `cin`.
pub(crate) fn lower_field(
    name: &Name,
    told: ExprMeaning,
    start: u32,
    line: u32,
    names: &ProgramNames,
    out: &mut Draft,
) -> Result<ExprMeaning, AllocError>
    requires settled { out.old.settled ≤ start }
    requires inside { start ≤ length out.old.ops }
    requires room { length out.old.ops + OPS_FOR_SIZE ≤ PROGRAM_OPS }
    ensures { IfOk result (λ after. Grows names.now OPS_FOR_SIZE line out.old.marks start
        (λ m. field_meant names.now m name.now) told after out.old out.new) }
{
    match told.standing {
        Standing::Input => lower_input_member(name, start, line, out),
        Standing::Variable(_) => lower_member(name, told, start, line, names, out),
        Standing::Field(_) => lower_member(name, told, start, line, names, out),
        Standing::Place => lower_member(name, told, start, line, names, out),
        Standing::Number => lower_member(name, told, start, line, names, out),
        Standing::Value => put_nothing(start, line, out),
        Standing::Fail => put_nothing(start, line, out),
        Standing::Routine(_) => put_nothing(start, line, out),
        Standing::Member(_) => put_nothing(start, line, out),
        Standing::LiveMember(_) => put_nothing(start, line, out),
        Standing::MutexMember { .. } => put_nothing(start, line, out),
        Standing::Condition(_) => match ConditionCall::named(name) {
            Some(call) => {
                let value = ExprMeaning::value(Scalar::Number);
                Ok(value.standing_as(Standing::CallOf(call)))
            }
            None => put_nothing(start, line, out),
        },
        Standing::CallOf(_) => put_nothing(start, line, out),
        Standing::Nothing => put_nothing(start, line, out),
    }
}

// What breaks a rule stands for 0 and for nothing.
pub(crate) fn put_nothing(start: u32, line: u32, out: &mut Draft) -> Result<ExprMeaning, AllocError>
    requires settled { out.old.settled ≤ start }
    requires inside { start ≤ length out.old.ops }
    requires room { start < PROGRAM_OPS }
    ensures code { OnOk result (Restarts (Op.Push (pos 0)) line start out.old out.new) }
    ensures tells { IfOk result (λ told. told
        ≡ record {
          scalar = Scalar.Number;
          class = None;
          numbered = false;
          event = None;
          elements = None;
          standing = Standing.Nothing;
        }) }
{
    restart(Op::Push(0), start, line, out)?;
    Ok(ExprMeaning::nothing())
}

fn lower_input_member(
    name: &Name,
    start: u32,
    line: u32,
    out: &mut Draft,
) -> Result<ExprMeaning, AllocError>
    requires settled { out.old.settled ≤ start }
    requires inside { start ≤ length out.old.ops }
    requires room { start < PROGRAM_OPS }
    ensures code { OnOk result (Restarts (Op.Push (pos 0)) line start out.old out.new) }
    ensures tells { IfOk result (λ told. told ≡ input_told name.now) }
{
    restart(Op::Push(0), start, line, out)?;
    Ok(input_told(name))
}

fn input_told(name: &Name) -> ExprMeaning
    ensures { result ≡ input_told name.now }
{
    if name.is(b"fail") {
        let member = ExprMeaning::value(Scalar::Truth);
        return member.standing_as(Standing::Fail);
    }
    ExprMeaning::nothing()
}

// A member of an object at the place that stands from `start` on, or a field of the event there. An array has none.
fn lower_member(
    name: &Name,
    told: ExprMeaning,
    start: u32,
    line: u32,
    names: &ProgramNames,
    out: &mut Draft,
) -> Result<ExprMeaning, AllocError>
    requires settled { out.old.settled ≤ start }
    requires inside { start ≤ length out.old.ops }
    requires room { length out.old.ops + OPS_FOR_SIZE ≤ PROGRAM_OPS }
    ensures { IfOk result (λ after. Grows names.now OPS_FOR_SIZE line out.old.marks start
        (λ m. place_member names.now m.ty.len m name.now) told after out.old out.new) }
{
    match told.elements {
        Some(_) => put_nothing(start, line, out),
        None => match told.members_of() {
            Some(class) => lower_member_of(class, name, told, start, line, names, out),
            None => put_nothing(start, line, out),
        },
    }
}

// A member, which is a mutex member of this number, or one of a coroutine that a path names, or another.
fn member_of(mutex: Option<u8>, live: bool, routine: u32) -> Standing
    ensures { result ≡ member_standing mutex live routine }
{
    match mutex {
        Some(member) => Standing::MutexMember { member, routine },
        None => {
            if live {
                Standing::LiveMember(routine)
            } else {
                Standing::Member(routine)
            }
        }
    }
}

// A member of an object of the class with this place.
fn lower_member_of(
    class: usize,
    name: &Name,
    told: ExprMeaning,
    start: u32,
    line: u32,
    names: &ProgramNames,
    out: &mut Draft,
) -> Result<ExprMeaning, AllocError>
    requires settled { out.old.settled ≤ start }
    requires inside { start ≤ length out.old.ops }
    requires room { length out.old.ops + OPS_FOR_SIZE ≤ PROGRAM_OPS }
    ensures { IfOk result (λ after. Grows names.now OPS_FOR_SIZE line out.old.marks start
        (λ m. member_meant names.now class (Of m.expr) name.now) told after out.old out.new) }
{
    match names.field(class, name) {
        Some(field) => match field.condition {
            Some(number) => {
                restart(Op::Push(i64::from(number)), start, line, out)?;
                Ok(field.told.standing_as(Standing::Condition(number)))
            }
            None => {
                put_field(field, line, out)?;
                Ok(field.told)
            }
        },
        None => match names.member(class, name) {
            Some(routine) => {
                let mutex = names.mutex_number(class, name);
                let standing = member_of(mutex, names.is_coroutine(class), routine);
                Ok(names.result(routine).standing_as(standing))
            }
            None => put_nothing(start, line, out),
        },
    }
}

// Behind the place of an object that of a field, or what that holds.
fn put_field(field: Field, line: u32, out: &mut Draft) -> Result<(), AllocError>
    requires { length out.old.ops + 2 ≤ PROGRAM_OPS }
    ensures { OnOk result (Adds 2
        (FieldCode line (field.number || field.by_ref) field.cell) out.old out.new) }
{
    put(Op::Field(field.cell), line, out)?;
    if field.is_held() {
        put(Op::Load, line, out)?;
    }
    Ok(())
}
