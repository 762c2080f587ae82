// The numbering of whole programs: classes, events, members, conditions, routines, accept statements and text literals.
#![tactic(auto)]

pub mod classes;
pub mod conditions;
pub mod gathered;
pub mod members;
pub mod routines;
pub mod sites;
pub mod texts;
