// The unwinding of executions, and switches between them.
#![tactic(auto)]

pub mod leaving;
pub mod switching;
pub mod testing;
pub mod unwinding;
