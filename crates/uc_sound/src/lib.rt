// That what the rules say of a program agrees with what it is resolved to, that the resolved tree of every
// accepted program is in order for its table, that trees of the grammar are formed, and that programs enter
// the objects that their calls hold.
#![tactic(auto)]

pub mod agreement;
pub mod enter;
pub mod formed;
pub mod samples;
pub mod sound;
