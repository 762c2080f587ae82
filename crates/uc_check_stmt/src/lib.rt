// The rules of the language on statements.
#![tactic(auto)]

pub mod accept;
pub mod declare;
pub mod judge;
pub mod parts;
pub mod stmt;
