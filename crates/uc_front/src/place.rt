// Places in a program, as ways through its tree.

/// A step from a body or a statement to what stands in it.
#[derive(Clone, Copy)]
pub enum Step {
    /// From a body to its statement with this number, from 0, or behind the last one to its end; from a declaration to what
    /// stands behind so many of its variables.
    At { number: usize },
    /// From a `for` to what stands behind so many variables of its declaration.
    Head { number: usize },
    /// To the body of a block or a `try`, the first statement of an `if`, the statement of a loop, an `_Enable` or a
    /// `_Disable`.
    Body,
    /// To the statement of an `else` or an `_Else`.
    Other,
    /// From a `try` to the body of its handler with this number.
    Handler { number: usize },
    /// From an accept statement to the statement of its clause with this number.
    Clause { number: usize },
}

/// A place in a program: an item by its number; where that is a class, a member by its number, or none for the class itself;
/// and where that is a routine, the way from its body. Without steps it is the beginning of the body, behind the parameters.
#[derive(Drop)]
pub struct Place {
    pub item: usize,
    pub member: Option<usize>,
    pub steps: Vec<Step>,
}
