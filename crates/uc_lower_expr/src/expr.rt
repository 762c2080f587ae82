// The code of expressions.

ghost use Rattle.std.specs.Prelude.{◌≡◌, List, ◌+◌, ◌-◌, ◌*◌, ◌<◌, ◌≤◌, None, Some, length, OnOk, IfOk};
ghost use Rattle.uc_tree.specs.declared.limits.TheConstants.{PROGRAM_OPS, OPS_FOR_SIZE};
ghost use Rattle.uc_tree.specs.Expressions.{exprs_of, links_of, parts_of};
ghost use Rattle.uc_tree.specs.ExpressionSizes.{expr_size, exprs_size, link_size, links_size, part_size, parts_size};
ghost use Rattle.uc_tree.specs.Source.{Expr as Resolved};
ghost use Rattle.uc_resolve.specs.Resolve.{Meant, meant, value_of, unary_meant, assign_meant, link_meant, chain_meant, part_meant, parts_meant, element_meant, call_meant, args_meant, args_by, stored_by, condition_called};
ghost use Rattle.uc_lower_expr.specs.Contexts.{context_in};
ghost use Rattle.uc_lower_expr.specs.Meanings.{Tells, call_of, element_told, shape_as};
ghost use Rattle.uc_lower_expr.specs.DraftGrowth.{Adds, Grows, ExprCode, ArgumentsCode, LiveCallCode, MutexCallCode};
ghost use Rattle.uc_lower_expr.specs.Parts.{CalledCode, RightCode, VariableCode, PlaceCode, ArgumentCode, FoundCode};

use crate::meaning::{ConditionCall, ExprMeaning, Scalar, Standing};
use crate::members::{lower_field, lower_name, put_nothing};
use crate::ops::{BinaryCode, combining, joined_by};
use crate::program_names::ProgramNames;
use crate::put::{
    begin_update, close_fork, cut, end_update, put, put_at_risk, put_bump, put_conversion,
    put_load, put_stepped, put_wait, restart,
};
use std::alloc::AllocError;
use uc_code::draft::Draft;
use uc_code::op::Op;
use uc_tree::expr::{Expr, ExprForm, Link, Part, PartForm};
use uc_tree::kinds::Param;
use uc_tree::ops::{AssignOp, StepOp, UnaryOp};

/// Adds the code of what an expression stands for, which is a place where one is told. Two ops more would still be within
/// the bound. After want of memory the draft is spent: some of the code may stand in it.
#[cycle(lower)]
pub fn lower_expr(
    e: &Expr,
    line: u32,
    names: &ProgramNames,
    out: &mut Draft,
) -> Result<ExprMeaning, AllocError>
    requires { length out.old.ops + OPS_FOR_SIZE * expr_size e.now ≤ PROGRAM_OPS }
    ensures code { OnOk result (Adds (OPS_FOR_SIZE * expr_size e.now - 2)
        (ExprCode line out.old.marks (meant (context_in names.now out.old) e.now).expr) out.old
        out.new) }
    ensures tells { IfOk result (λ told. Tells names.now told
        (meant (context_in names.now out.old) e.now)) }
{
    match &e.form {
        ExprForm::Number { value } => {
            put(Op::Push(*value), line, out)?;
            Ok(ExprMeaning::value(Scalar::Number))
        }
        ExprForm::Character { byte } => {
            put(Op::Push(i64::from(*byte)), line, out)?;
            Ok(ExprMeaning::value(Scalar::Character))
        }
        ExprForm::Truth { value } => {
            put(Op::Push(i64::from(*value)), line, out)?;
            Ok(ExprMeaning::value(Scalar::Truth))
        }
        ExprForm::Name { name } => lower_name(name, line, names, out),
        ExprForm::Cin => {
            put(Op::Push(0), line, out)?;
            let value = ExprMeaning::value(Scalar::Number);
            Ok(value.standing_as(Standing::Input))
        }
        ExprForm::Postfix { root, parts } => {
            let start = out.here();
            let told = lower_expr(root, line, names, out)?;
            lower_parts(parts, told, start, line, names, out)
        }
        ExprForm::Unary { op, operand } => lower_unary(*op, operand, line, names, out),
        ExprForm::Chain { first, rest } => {
            let start = out.here();
            let told = lower_expr(first, line, names, out)?;
            lower_links(rest, told, start, line, names, out)
        }
        ExprForm::Assign {
            op,
            place,
            value,
            ..
        } => lower_assign(*op, place, value, line, names, out),
    }
}

/// Adds the code of an expression's value. After want of memory the draft is spent.
#[cycle(lower)]
pub fn lower_value(
    e: &Expr,
    line: u32,
    names: &ProgramNames,
    out: &mut Draft,
) -> Result<ExprMeaning, AllocError>
    requires { length out.old.ops + OPS_FOR_SIZE * expr_size e.now ≤ PROGRAM_OPS }
    ensures code { OnOk result (Adds (OPS_FOR_SIZE * expr_size e.now)
        (ExprCode line out.old.marks (value_of (meant (context_in names.now out.old) e.now)))
        out.old out.new) }
    ensures tells { IfOk result (λ told. Tells names.now told
        (meant (context_in names.now out.old) e.now)) }
{
    let start = out.here();
    let told = lower_expr(e, line, names, out)?;
    put_load(told, start, line, out)?;
    Ok(told)
}

#[cycle(lower)]
fn lower_unary(
    op: UnaryOp,
    operand: &Expr,
    line: u32,
    names: &ProgramNames,
    out: &mut Draft,
) -> Result<ExprMeaning, AllocError>
    requires { length out.old.ops + OPS_FOR_SIZE * (1 + expr_size operand.now) ≤ PROGRAM_OPS }
    ensures code { OnOk result (Adds (OPS_FOR_SIZE * (1 + expr_size operand.now) - 2)
        (ExprCode line out.old.marks
        (unary_meant op (meant (context_in names.now out.old) operand.now)).expr) out.old out.new) }
    ensures tells { IfOk result (λ told. Tells names.now told
        (unary_meant op (meant (context_in names.now out.old) operand.now))) }
{
    match op {
        UnaryOp::Minus => {
            let _told = lower_value(operand, line, names, out)?;
            put(Op::Negate, line, out)?;
            Ok(ExprMeaning::value(Scalar::Number))
        }
        UnaryOp::Plus => {
            let _told = lower_value(operand, line, names, out)?;
            Ok(ExprMeaning::value(Scalar::Number))
        }
        UnaryOp::Not => {
            let _told = lower_value(operand, line, names, out)?;
            put(Op::Not, line, out)?;
            Ok(ExprMeaning::value(Scalar::Truth))
        }
        UnaryOp::Increment => {
            let start = out.here();
            let told = lower_expr(operand, line, names, out)?;
            put_bump(StepOp::Increment, told, start, line, out)
        }
        UnaryOp::Decrement => {
            let start = out.here();
            let told = lower_expr(operand, line, names, out)?;
            put_bump(StepOp::Decrement, told, start, line, out)
        }
    }
}

#[cycle(lower)]
fn lower_assign(
    op: AssignOp,
    place: &Expr,
    value: &Expr,
    line: u32,
    names: &ProgramNames,
    out: &mut Draft,
) -> Result<ExprMeaning, AllocError>
    requires { length out.old.ops + OPS_FOR_SIZE * (1 + expr_size place.now + expr_size value.now)
        ≤ PROGRAM_OPS }
    ensures code { OnOk result (Adds
        (OPS_FOR_SIZE * (1 + expr_size place.now + expr_size value.now) - 2)
        (ExprCode line out.old.marks
        (assign_meant op (meant (context_in names.now out.old) place.now)
        (meant (context_in names.now out.old) value.now)).expr) out.old out.new) }
    ensures tells { IfOk result (λ told. Tells names.now told
        (assign_meant op (meant (context_in names.now out.old) place.now)
        (meant (context_in names.now out.old) value.now))) }
{
    let start = out.here();
    let told = lower_expr(place, line, names, out)?;
    lower_written(op, told, value, start, line, names, out)
}

// A value is written to what stands from `start` on.
#[cycle(lower)]
fn lower_written(
    op: AssignOp,
    told: ExprMeaning,
    value: &Expr,
    start: u32,
    line: u32,
    names: &ProgramNames,
    out: &mut Draft,
) -> Result<ExprMeaning, AllocError>
    requires settled { out.old.settled ≤ start }
    requires inside { start ≤ length out.old.ops }
    requires room { length out.old.ops + OPS_FOR_SIZE * expr_size value.now + 5 ≤ PROGRAM_OPS }
    ensures { IfOk result (λ after. Grows names.now (OPS_FOR_SIZE * expr_size value.now
        + 5) line out.old.marks start
        (λ m. assign_meant op m (meant (context_in names.now out.old) value.now)) told after out.old
        out.new) }
{
    match told.standing.variable() {
        Some(cell) => {
            cut(start, out);
            lower_to_variable(combining(op), cell, told.scalar, value, line, names, out)?;
            Ok(told.standing_as(Standing::Value))
        }
        None => {
            lower_to_place(combining(op), told.scalar, value, line, names, out)?;
            Ok(told.standing_as(Standing::Value))
        }
    }
}

#[cycle(lower)]
fn lower_to_variable(
    op: Option<Op>,
    cell: u32,
    scalar: Scalar,
    value: &Expr,
    line: u32,
    names: &ProgramNames,
    out: &mut Draft,
) -> Result<(), AllocError>
    requires { length out.old.ops + OPS_FOR_SIZE * expr_size value.now + 5 ≤ PROGRAM_OPS }
    ensures { OnOk result (Adds (OPS_FOR_SIZE * expr_size value.now + 5)
        (VariableCode line out.old.marks op cell (shape_as scalar)
        (value_of (meant (context_in names.now out.old) value.now))) out.old out.new) }
{
    match op {
        None => {
            let _value = lower_value(value, line, names, out)?;
            put_conversion(scalar, line, out)?;
            put(Op::Set(cell), line, out)?;
            Ok(())
        }
        Some(op) => {
            put(Op::Via(cell), line, out)?;
            let _value = lower_value(value, line, names, out)?;
            put(op, line, out)?;
            put_conversion(scalar, line, out)?;
            put(Op::Set(cell), line, out)?;
            Ok(())
        }
    }
}

#[cycle(lower)]
fn lower_to_place(
    op: Option<Op>,
    scalar: Scalar,
    value: &Expr,
    line: u32,
    names: &ProgramNames,
    out: &mut Draft,
) -> Result<(), AllocError>
    requires { length out.old.ops + OPS_FOR_SIZE * expr_size value.now + 5 ≤ PROGRAM_OPS }
    ensures { OnOk result (Adds (OPS_FOR_SIZE * expr_size value.now + 5)
        (PlaceCode line out.old.marks op (shape_as scalar)
        (value_of (meant (context_in names.now out.old) value.now))) out.old out.new) }
{
    match op {
        None => {
            let _value = lower_value(value, line, names, out)?;
            put_conversion(scalar, line, out)?;
            put(Op::Keep, line, out)?;
            Ok(())
        }
        Some(op) => {
            begin_update(line, out)?;
            let _value = lower_value(value, line, names, out)?;
            end_update(op, scalar, line, out)?;
            Ok(())
        }
    }
}

#[cycle(lower)]
fn lower_links(
    links: &[Link],
    first: ExprMeaning,
    start: u32,
    line: u32,
    names: &ProgramNames,
    out: &mut Draft,
) -> Result<ExprMeaning, AllocError>
    requires settled { out.old.settled ≤ start }
    requires inside { start ≤ length out.old.ops }
    requires room { length out.old.ops + OPS_FOR_SIZE * links_size (links_of links.now)
        ≤ PROGRAM_OPS }
    ensures { IfOk result (λ told. Grows names.now
        (OPS_FOR_SIZE * links_size (links_of links.now)) line out.old.marks start
        (chain_meant (context_in names.now out.old) (links_of links.now)) first told out.old
        out.new) }
{
    let mut told = first;
    for link in links {
        told = lower_link(link, told, start, line, names, out)?;
    }
    Ok(told)
}

#[cycle(lower)]
fn lower_link(
    link: &Link,
    left: ExprMeaning,
    start: u32,
    line: u32,
    names: &ProgramNames,
    out: &mut Draft,
) -> Result<ExprMeaning, AllocError>
    requires settled { out.old.settled ≤ start }
    requires inside { start ≤ length out.old.ops }
    requires room { length out.old.ops + OPS_FOR_SIZE * link_size link.now ≤ PROGRAM_OPS }
    ensures { IfOk result (λ told. Grows names.now
        (OPS_FOR_SIZE * link_size link.now) line out.old.marks start
        (link_meant (context_in names.now out.old) link.now) left told out.old out.new) }
{
    let joining = joined_by(link.op);
    put_load(left, start, line, out)?;
    lower_right(joining, &link.right, line, names, out)?;
    Ok(ExprMeaning::value(joining.scalar()))
}

#[cycle(lower)]
fn lower_right(
    joining: BinaryCode,
    right: &Expr,
    line: u32,
    names: &ProgramNames,
    out: &mut Draft,
) -> Result<(), AllocError>
    requires { length out.old.ops + OPS_FOR_SIZE * expr_size right.now + 4 ≤ PROGRAM_OPS }
    ensures { OnOk result (Adds (OPS_FOR_SIZE * expr_size right.now + 4)
        (RightCode line out.old.marks joining
        (value_of (meant (context_in names.now out.old) right.now))) out.old out.new) }
{
    match joining {
        BinaryCode::Either => {
            let choose = out.here();
            put(Op::IfZero(0), line, out)?;
            put(Op::Push(1), line, out)?;
            let leave = out.here();
            put(Op::Jump(0), line, out)?;
            let _told = lower_value(right, line, names, out)?;
            put(Op::ToBool, line, out)?;
            close_fork(choose, leave, out);
            Ok(())
        }
        BinaryCode::Each => {
            let choose = out.here();
            put(Op::IfZero(0), line, out)?;
            let _told = lower_value(right, line, names, out)?;
            put(Op::ToBool, line, out)?;
            let leave = out.here();
            put(Op::Jump(0), line, out)?;
            put(Op::Push(0), line, out)?;
            close_fork(choose, leave, out);
            Ok(())
        }
        BinaryCode::By(op, _) => {
            let _told = lower_value(right, line, names, out)?;
            put(op, line, out)?;
            Ok(())
        }
    }
}

#[cycle(lower)]
fn lower_parts(
    parts: &[Part],
    root: ExprMeaning,
    start: u32,
    line: u32,
    names: &ProgramNames,
    out: &mut Draft,
) -> Result<ExprMeaning, AllocError>
    requires settled { out.old.settled ≤ start }
    requires inside { start ≤ length out.old.ops }
    requires room { length out.old.ops + OPS_FOR_SIZE * parts_size (parts_of parts.now)
        ≤ PROGRAM_OPS }
    ensures { IfOk result (λ told. Grows names.now
        (OPS_FOR_SIZE * parts_size (parts_of parts.now)) line out.old.marks start
        (parts_meant (context_in names.now out.old) (parts_of parts.now)) root told out.old out.new) }
{
    let mut told = root;
    for part in parts {
        told = lower_part(part, told, start, line, names, out)?;
    }
    Ok(told)
}

#[cycle(lower)]
fn lower_part(
    part: &Part,
    told: ExprMeaning,
    start: u32,
    line: u32,
    names: &ProgramNames,
    out: &mut Draft,
) -> Result<ExprMeaning, AllocError>
    requires settled { out.old.settled ≤ start }
    requires inside { start ≤ length out.old.ops }
    requires room { length out.old.ops + OPS_FOR_SIZE * part_size part.now ≤ PROGRAM_OPS }
    ensures { IfOk result (λ after. Grows names.now
        (OPS_FOR_SIZE * part_size part.now) line out.old.marks start
        (part_meant (context_in names.now out.old) part.now) told after out.old out.new) }
{
    match &part.form {
        PartForm::Field { name } => lower_field(name, told, start, line, names, out),
        PartForm::Index { index } => lower_index(index, told, start, line, names, out),
        PartForm::Call { args } => lower_call(args, told, start, line, names, out),
        PartForm::Step { op } => put_stepped(*op, told, start, line, out),
    }
}

#[cycle(lower)]
fn lower_index(
    index: &Expr,
    told: ExprMeaning,
    start: u32,
    line: u32,
    names: &ProgramNames,
    out: &mut Draft,
) -> Result<ExprMeaning, AllocError>
    requires settled { out.old.settled ≤ start }
    requires inside { start ≤ length out.old.ops }
    requires room { length out.old.ops + OPS_FOR_SIZE * (1 + expr_size index.now) ≤ PROGRAM_OPS }
    ensures { IfOk result (λ after. Grows names.now
        (OPS_FOR_SIZE * (1 + expr_size index.now)) line out.old.marks start
        (λ m. element_meant names.now m (meant (context_in names.now out.old) index.now)) told after
        out.old out.new) }
{
    match told.elements {
        None => {
            restart(Op::Push(0), start, line, out)?;
            Ok(ExprMeaning::nothing())
        }
        Some(length) => match told.standing.condition() {
            Some(first) => {
                cut(start, out);
                let _index = lower_value(index, line, names, out)?;
                let count = length;
                put(Op::Condition { first, count }, line, out)?;
                Ok(ExprMeaning {
                    elements: None,
                    ..told
                })
            }
            None => {
                let size = names.element_size(told.class, told.numbered);
                let _index = lower_value(index, line, names, out)?;
                put(Op::Index { length, size }, line, out)?;
                let element = put_element(told, line, out)?;
                Ok(element)
            }
        },
    }
}

// Behind the place of an element of an array: of one that is known by its number, that.
fn put_element(told: ExprMeaning, line: u32, out: &mut Draft) -> Result<ExprMeaning, AllocError>
    requires { length out.old.ops < PROGRAM_OPS }
    ensures code { OnOk result (Adds 1 (FoundCode line told.numbered) out.old out.new) }
    ensures tells { IfOk result (λ element. element ≡ element_told told) }
{
    if told.numbered {
        put(Op::Load, line, out)?;
    }
    Ok(ExprMeaning {
        elements: None,
        standing: Standing::held_as(told.numbered),
        ..told
    })
}

// The call of a coroutine's member behind its arguments: the coroutine must be live.
fn put_live_call(routine: u32, line: u32, out: &mut Draft) -> Result<(), AllocError>
    requires { length out.old.ops + 3 ≤ PROGRAM_OPS }
    ensures { OnOk result (Adds 3 (LiveCallCode line out.old.marks routine) out.old out.new) }
{
    put(Op::Tick, line, out)?;
    put(Op::Alive(routine), line, out)?;
    put_at_risk(Op::CallOn(routine), line, out)?;
    Ok(())
}

// The call of a mutex member behind its arguments: its object is entered first.
fn put_mutex_call(member: u8, routine: u32, line: u32, out: &mut Draft) -> Result<(), AllocError>
    requires { length out.old.ops + 3 ≤ PROGRAM_OPS }
    ensures { OnOk result (Adds 3 (MutexCallCode line out.old.marks member routine) out.old out.new) }
{
    put(Op::Tick, line, out)?;
    put(Op::Enter { member, routine }, line, out)?;
    put_at_risk(Op::CallOn(routine), line, out)?;
    Ok(())
}

// `cin.fail`, a routine of the program, a member of the object whose place stands from `start` on, or a call of the condition whose
// number does.
#[cycle(lower)]
fn lower_call(
    args: &[Expr],
    told: ExprMeaning,
    start: u32,
    line: u32,
    names: &ProgramNames,
    out: &mut Draft,
) -> Result<ExprMeaning, AllocError>
    requires settled { out.old.settled ≤ start }
    requires inside { start ≤ length out.old.ops }
    requires room { length out.old.ops + OPS_FOR_SIZE * (1 + exprs_size (exprs_of args.now))
        ≤ PROGRAM_OPS }
    ensures { IfOk result (λ after. Grows names.now
        (OPS_FOR_SIZE * (1 + exprs_size (exprs_of args.now))) line out.old.marks start
        (λ m. call_meant names.now m
        (args_meant (context_in names.now out.old) (exprs_of args.now))) told after out.old out.new) }
{
    match told.standing {
        Standing::Fail => {
            restart(Op::Fail, start, line, out)?;
            Ok(ExprMeaning::value(Scalar::Truth))
        }
        Standing::Routine(routine) => {
            cut(start, out);
            lower_args(names.params(routine), args, line, names, out)?;
            put(Op::Tick, line, out)?;
            put_at_risk(Op::Call(routine), line, out)?;
            Ok(told.standing_as(Standing::Value))
        }
        Standing::Member(routine) => {
            lower_args(names.params(routine), args, line, names, out)?;
            put(Op::Tick, line, out)?;
            put_at_risk(Op::CallOn(routine), line, out)?;
            Ok(told.standing_as(Standing::Value))
        }
        Standing::MutexMember { member, routine } => {
            lower_args(names.params(routine), args, line, names, out)?;
            put_mutex_call(member, routine, line, out)?;
            Ok(told.standing_as(Standing::Value))
        }
        Standing::LiveMember(routine) => {
            lower_args(names.params(routine), args, line, names, out)?;
            put_live_call(routine, line, out)?;
            Ok(told.standing_as(Standing::Value))
        }
        Standing::CallOf(call) => lower_condition_call(call, args, line, names, out),
        Standing::Condition(_) => put_nothing(start, line, out),
        Standing::Variable(_) => put_nothing(start, line, out),
        Standing::Field(_) => put_nothing(start, line, out),
        Standing::Place => put_nothing(start, line, out),
        Standing::Number => put_nothing(start, line, out),
        Standing::Value => put_nothing(start, line, out),
        Standing::Input => put_nothing(start, line, out),
        Standing::Nothing => put_nothing(start, line, out),
    }
}

// Behind the number of a condition the call of it.
#[cycle(lower)]
fn lower_condition_call(
    call: ConditionCall,
    args: &[Expr],
    line: u32,
    names: &ProgramNames,
    out: &mut Draft,
) -> Result<ExprMeaning, AllocError>
    requires { length out.old.ops + OPS_FOR_SIZE * (1 + exprs_size (exprs_of args.now))
        ≤ PROGRAM_OPS }
    ensures code { OnOk result (Adds (OPS_FOR_SIZE * (1 + exprs_size (exprs_of args.now)))
        (CalledCode line out.old.marks (call_of call)
        (stored_by (args_meant (context_in names.now out.old) (exprs_of args.now)))) out.old
        out.new) }
    ensures tells { IfOk result (λ told. (e : Resolved) (values : List Meant) →
        Tells names.now told (condition_called (call_of call) e values)) }
{
    match call {
        ConditionCall::Wait => {
            lower_stored(args, line, names, out)?;
            put_wait(line, out)?;
            Ok(ExprMeaning::value(Scalar::Number))
        }
        ConditionCall::Signal => {
            put(Op::Signal, line, out)?;
            Ok(ExprMeaning::value(Scalar::Number))
        }
        ConditionCall::SignalBlock => {
            put(Op::SignalBlock, line, out)?;
            Ok(ExprMeaning::value(Scalar::Number))
        }
        ConditionCall::Empty => {
            put(Op::Empty, line, out)?;
            Ok(ExprMeaning::value(Scalar::Truth))
        }
        ConditionCall::Front => {
            put(Op::Front, line, out)?;
            Ok(ExprMeaning::value(Scalar::Number))
        }
    }
}

// What a wait stores: the value of the first argument, or 0.
#[cycle(lower)]
fn lower_stored(
    args: &[Expr],
    line: u32,
    names: &ProgramNames,
    out: &mut Draft,
) -> Result<(), AllocError>
    requires { length out.old.ops + OPS_FOR_SIZE * exprs_size (exprs_of args.now) + 1
        ≤ PROGRAM_OPS }
    ensures { OnOk result (Adds (OPS_FOR_SIZE * exprs_size (exprs_of args.now) + 1)
        (ExprCode line out.old.marks
        (stored_by (args_meant (context_in names.now out.old) (exprs_of args.now)))) out.old
        out.new) }
{
    match args.first() {
        Some(arg) => {
            let _told = lower_value(arg, line, names, out)?;
            Ok(())
        }
        None => put(Op::Push(0), line, out),
    }
}

/// Adds the code of an argument for each parameter, from left to right. After want of memory the draft is spent.
#[cycle(lower)]
pub fn lower_args(
    params: &[Param],
    args: &[Expr],
    line: u32,
    names: &ProgramNames,
    out: &mut Draft,
) -> Result<(), AllocError>
    requires { length out.old.ops + OPS_FOR_SIZE * exprs_size (exprs_of args.now) ≤ PROGRAM_OPS }
    ensures { OnOk result (Adds (OPS_FOR_SIZE * exprs_size (exprs_of args.now))
        (ArgumentsCode line out.old.marks
        (args_by params.now (args_meant (context_in names.now out.old) (exprs_of args.now))))
        out.old out.new) }
{
    for (place, arg) in args.iter().enumerate() {
        if place < params.len() {
            lower_arg(&params[place], arg, line, names, out)?;
        }
    }
    Ok(())
}

// The place or the value of an argument.
#[cycle(lower)]
fn lower_arg(
    param: &Param,
    arg: &Expr,
    line: u32,
    names: &ProgramNames,
    out: &mut Draft,
) -> Result<(), AllocError>
    requires { length out.old.ops + OPS_FOR_SIZE * expr_size arg.now ≤ PROGRAM_OPS }
    ensures { OnOk result (Adds (OPS_FOR_SIZE * expr_size arg.now)
        (ArgumentCode line out.old.marks param.now (meant (context_in names.now out.old) arg.now))
        out.old out.new) }
{
    let start = out.here();
    let told = lower_expr(arg, line, names, out)?;
    if !param.by_ref {
        put_load(told, start, line, out)?;
        put_conversion(Scalar::of_base(&param.base), line, out)?;
    }
    Ok(())
}
