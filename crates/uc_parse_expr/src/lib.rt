// The parser of expressions: the one expression that the grammar finds at a token, or where and why there is none.
#![tactic(auto)]

pub mod behind;
pub mod ops;
pub mod parse;
pub mod peek;
