// The lowering of statements and routines.
#![tactic(auto)]

pub mod accept;
pub mod block;
mod clusters;
pub mod declare;
pub mod enabling;
pub mod guard;
pub mod objects;
pub mod print;
pub mod raise;
pub mod routine;
pub mod stmt;
pub mod switching;
pub mod turning;
