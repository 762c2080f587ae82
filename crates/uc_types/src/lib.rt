// What names and expressions stand for under the rules of the language, and the breaks of rules in expressions.
#![tactic(auto)]

pub mod ask;
pub mod bases;
pub mod directory;
pub mod entity;
pub mod expr;
pub mod found;
pub mod listing;
pub mod members;
pub mod names;
pub mod outside;
pub mod sets;
pub mod sort;
pub mod spans;
pub mod tables;
