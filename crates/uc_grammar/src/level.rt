// The levels of left-to-right chains of operators.

/// A level of operators between two operands, from tight to loose.
#[derive(Clone, Copy)]
pub enum Level {
    /// `*`, `/` and `%`
    Product,
    /// `+` and `-`
    Sum,
    /// `<`, `<=`, `>` and `>=`
    Comparison,
    /// `==` and `!=`
    Equality,
    /// `&&`
    And,
    /// `||`
    Or,
}
