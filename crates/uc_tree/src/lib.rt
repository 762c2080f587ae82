// Trees and tokens of program texts, their numbering and sizes, and every limit of the language and its kernel.
#![tactic(auto)]

pub mod bytes;
pub mod class;
pub mod declare;
pub mod expr;
pub mod int;
pub mod kinds;
pub mod laws;
pub mod limits;
pub mod made;
pub mod name;
pub mod ops;
pub mod pos;
pub mod program;
pub mod rows;
pub mod scan;
pub mod site;
pub mod stmt;
pub mod token;
