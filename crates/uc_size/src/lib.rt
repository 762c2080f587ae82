// How large programs are: `Size`, which bounds the code that is made of them.
#![tactic(auto)]

pub mod exits;
pub mod program;
pub mod size;
