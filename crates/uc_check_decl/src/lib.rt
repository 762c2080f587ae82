// Tests of the rules on signatures, classes, initialisers and items.
#![tactic(auto)]

pub mod class;
pub mod earlier;
pub mod init;
pub mod item;
pub mod sig;
