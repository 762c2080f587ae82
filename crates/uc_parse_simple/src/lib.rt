// The parser of plain statements, those that hold no statement, and of the declarations, events and lists in them.
#![tactic(auto)]

pub mod declare;
pub mod event;
pub mod peek;
pub mod plain;
pub mod print;
