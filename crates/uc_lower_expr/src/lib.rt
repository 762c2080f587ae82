// The lowering of expressions: the code of what an expression stands for.
#![tactic(auto)]

pub mod events;
pub mod expr;
pub mod fields;
pub mod making;
pub mod meaning;
pub mod members;
pub mod names;
pub mod numbering;
pub mod ops;
pub mod program_names;
pub mod put;
pub mod routine_table;
