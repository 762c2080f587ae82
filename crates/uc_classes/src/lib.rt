// The rules of the language on whole programs.
#![tactic(auto)]

pub mod apart;
pub mod ask;
pub mod body;
pub mod check;
pub mod circle;
pub mod class;
pub mod conditions;
pub mod init;
pub mod item;
pub mod tabled;
