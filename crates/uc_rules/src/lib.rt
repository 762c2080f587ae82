// The rules of the language: what names and expressions stand for, visits and breaks.
#![tactic(auto)]

pub mod checked;
pub mod rule;
pub mod rules;
