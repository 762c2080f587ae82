// The cells of whole programs: the values of constants, and the cells of classes, variables and routines.
#![tactic(auto)]

pub mod cells;
pub mod circles;
pub mod eval;
pub mod frames;
pub mod held;
pub mod known;
pub mod lists;
pub mod named;
mod order;
pub mod places;
pub mod settle;
pub mod sizes;
pub mod tables;
