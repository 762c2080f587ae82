// How a loop turns.

use uc_tree::expr::Expr;

/// How a loop turns: its test comes before its body (`while` and `for`) or behind it (`do`), or it has none.
#[derive(Clone, Copy)]
pub enum Turning<'a> {
    TestFirst(&'a Expr),
    BodyFirst(&'a Expr),
    NoTest,
}
