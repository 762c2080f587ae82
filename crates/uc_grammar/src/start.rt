// What the first token of a statement says of it.

/// What a statement is, by its first token.
#[derive(Clone, Copy)]
pub enum StmtStart {
    Block,
    Empty,
    If,
    While,
    Do,
    For,
    Break,
    Continue,
    Return,
    Try,
    Throw,
    Raise,
    Enable,
    Disable,
    Accept,
    Print,
    PrintTogether,
    /// `cin`: a read where `>>` follows, and an expression elsewhere.
    Cin,
    Resume,
    Suspend,
    Yield,
    Migrate,
    /// A declaration or an expression.
    Simple,
}
