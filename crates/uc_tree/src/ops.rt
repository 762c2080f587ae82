// Operators of expressions.

/// An operator before its operand.
#[derive(Clone, Copy, Debug)]
pub enum UnaryOp {
    Minus,
    Plus,
    Not,
    Increment,
    Decrement,
}

/// An operator between two operands.
#[derive(Clone, Copy, Debug)]
pub enum BinaryOp {
    Or,
    And,
    Equal,
    NotEqual,
    Less,
    LessEqual,
    Greater,
    GreaterEqual,
    Add,
    Sub,
    Mul,
    Div,
    Rem,
}

/// An operator that assigns: `=`, and those that first combine the old value with the right side.
#[derive(Clone, Copy, Debug)]
pub enum AssignOp {
    Set,
    Add,
    Sub,
    Mul,
    Div,
    Rem,
}

/// An operator behind its operand.
#[derive(Clone, Copy, Debug)]
pub enum StepOp {
    Increment,
    Decrement,
}
