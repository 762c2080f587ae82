// The parser of programs: the one program that the tokens spell, or where and why there is none.
#![tactic(auto)]

pub mod class;
pub mod item;
pub mod member;
pub mod parse;
pub mod peek;
pub mod routine;
