// The ops of operators.

ghost use Rattle.std.specs.Prelude.{◌≡◌};
ghost use Rattle.uc_lower_expr.specs.Parts.{joining_of, combining_of, step_op_of, scalar_of};

use crate::meaning::Scalar;
use uc_code::op::Op;
use uc_tree::ops::{AssignOp, BinaryOp, StepOp};

/// How an operator joins two sides: `||`, `&&`, or an op whose value is such a scalar.
#[derive(Clone, Copy)]
pub enum BinaryCode {
    Either,
    Each,
    By(Op, Scalar),
}

impl BinaryCode {
    // What scalar the joined value is.
    pub(crate) fn scalar(self) -> Scalar
        ensures { result ≡ scalar_of self }
    {
        match self {
            BinaryCode::Either => Scalar::Truth,
            BinaryCode::Each => Scalar::Truth,
            BinaryCode::By(_, scalar) => scalar,
        }
    }
}

// How an operator joins its sides.
pub(crate) fn joined_by(op: BinaryOp) -> BinaryCode
    ensures { result ≡ joining_of op }
{
    match op {
        BinaryOp::Or => BinaryCode::Either,
        BinaryOp::And => BinaryCode::Each,
        BinaryOp::Equal => BinaryCode::By(Op::Equal, Scalar::Truth),
        BinaryOp::NotEqual => BinaryCode::By(Op::NotEqual, Scalar::Truth),
        BinaryOp::Less => BinaryCode::By(Op::Less, Scalar::Truth),
        BinaryOp::LessEqual => BinaryCode::By(Op::LessEqual, Scalar::Truth),
        BinaryOp::Greater => BinaryCode::By(Op::Greater, Scalar::Truth),
        BinaryOp::GreaterEqual => BinaryCode::By(Op::GreaterEqual, Scalar::Truth),
        BinaryOp::Add => BinaryCode::By(Op::Add, Scalar::Number),
        BinaryOp::Sub => BinaryCode::By(Op::Subtract, Scalar::Number),
        BinaryOp::Mul => BinaryCode::By(Op::Multiply, Scalar::Number),
        BinaryOp::Div => BinaryCode::By(Op::Divide, Scalar::Number),
        BinaryOp::Rem => BinaryCode::By(Op::Remainder, Scalar::Number),
    }
}

// The op with which an assignment combines the old value, where it does.
pub(crate) fn combining(op: AssignOp) -> Option<Op>
    ensures { result ≡ combining_of op }
{
    match op {
        AssignOp::Set => None,
        AssignOp::Add => Some(Op::Add),
        AssignOp::Sub => Some(Op::Subtract),
        AssignOp::Mul => Some(Op::Multiply),
        AssignOp::Div => Some(Op::Divide),
        AssignOp::Rem => Some(Op::Remainder),
    }
}

// The op with which a step combines the old value.
pub(crate) fn stepping(op: StepOp) -> Op
    ensures { result ≡ step_op_of op }
{
    match op {
        StepOp::Increment => Op::Add,
        StepOp::Decrement => Op::Subtract,
    }
}
