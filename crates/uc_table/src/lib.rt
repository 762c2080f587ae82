// Values by number, of which only those are written that were needed.
#![tactic(auto)]

pub mod table;

pub use table::Table;
