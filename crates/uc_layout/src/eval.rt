// The values of constant expressions.

ghost use Rattle.std.specs.Prelude.{◌≡◌};
ghost use Rattle.uc_tree.specs.Constants.{unary_value, binary_value, converted, value_in, link_value_in, chain_value_in};
ghost use Rattle.uc_tree.specs.Expressions.{links_of};
ghost use Rattle.uc_layout.specs.Values.{seen_by};

use crate::named::{NameValues, VisibleValues};
use uc_tree::expr::{Expr, ExprForm, Link};
use uc_tree::int::{difference, int_of, negated, product, quotient, remainder, sum};
use uc_tree::kinds::Base;
use uc_tree::limits::CHAR_VALUES;
use uc_tree::ops::{BinaryOp, UnaryOp};

/// The value of an operator on one constant.
pub fn unary_of(op: UnaryOp, x: i64) -> Option<i64>
    ensures { result ≡ unary_value op x }
{
    match op {
        UnaryOp::Minus => negated(x),
        UnaryOp::Plus => Some(x),
        UnaryOp::Not => None,
        UnaryOp::Increment => None,
        UnaryOp::Decrement => None,
    }
}

/// The value of an operator on two constants.
pub fn binary_of(op: BinaryOp, x: i64, y: i64) -> Option<i64>
    ensures { result ≡ binary_value op x y }
{
    match op {
        BinaryOp::Or => None,
        BinaryOp::And => None,
        BinaryOp::Equal => None,
        BinaryOp::NotEqual => None,
        BinaryOp::Less => None,
        BinaryOp::LessEqual => None,
        BinaryOp::Greater => None,
        BinaryOp::GreaterEqual => None,
        BinaryOp::Add => sum(x, y),
        BinaryOp::Sub => difference(x, y),
        BinaryOp::Mul => product(x, y),
        BinaryOp::Div => quotient(x, y),
        BinaryOp::Rem => remainder(x, y),
    }
}

/// A value as a constant of this base holds it.
pub fn converted_to(base: &Base, x: i64) -> i64
    ensures { result ≡ converted base.now x }
{
    match base {
        Base::Void => x,
        Base::Int => x,
        Base::Char => x.rem_euclid(CHAR_VALUES),
        Base::Bool => { if x == 0 { 0 } else { 1 } }
        Base::Condition => x,
        Base::Cluster => x,
        Base::Processor => x,
        Base::Named(_) => x,
    }
}

/// The value of an expression, in which these are the values of names.
pub fn value_of(e: &Expr, named: &VisibleValues) -> Option<i64>
    ensures { result ≡ value_in e.now (seen_by named.now) }
{
    let value = value_by(e, named);
    value
}

/// The value of an expression, by what gives names their values.
#[cycle(value)]
pub fn value_by<N: NameValues>(e: &Expr, named: &N) -> Option<i64>
    ensures { result ≡ value_in e.now (N.value_named named.now) }
{
    match &e.form {
        ExprForm::Number { value } => int_of(*value),
        ExprForm::Character { byte } => Some(i64::from(*byte)),
        ExprForm::Truth { value } => Some(i64::from(*value)),
        ExprForm::Name { name } => named.value(name),
        ExprForm::Cin => None,
        ExprForm::Postfix { .. } => None,
        ExprForm::Unary { op, operand } => match value_by(operand, named) {
            Some(x) => unary_of(*op, x),
            None => None,
        },
        ExprForm::Chain { first, rest } => {
            let left = value_by(first, named);
            value_by_chain(left, rest, named)
        }
        ExprForm::Assign { .. } => None,
    }
}

#[cycle(value)]
fn value_by_chain<N: NameValues>(left: Option<i64>, rest: &[Link], named: &N) -> Option<i64>
    ensures { result ≡ chain_value_in (links_of rest.now) left (N.value_named named.now) }
{
    let mut value = left;
    for link in rest {
        value = value_by_link(value, link, named);
    }
    value
}

#[cycle(value)]
fn value_by_link<N: NameValues>(left: Option<i64>, link: &Link, named: &N) -> Option<i64>
    ensures { result ≡ link_value_in link.now left (N.value_named named.now) }
{
    let right = value_by(&link.right, named);
    match left {
        Some(x) => match right {
            Some(y) => binary_of(link.op, x, y),
            None => None,
        },
        None => None,
    }
}
