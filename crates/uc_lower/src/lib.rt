// The lowering of whole programs.
#![tactic(auto)]

pub mod lower;
mod numbering;
pub mod program_main;
pub mod routines;
