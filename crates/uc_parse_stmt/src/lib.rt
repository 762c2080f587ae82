// The parser of statements: the one statement that the grammar finds at a token, or where and why there is none.
#![tactic(auto)]

pub mod head;
pub mod parse;
pub mod peek;
