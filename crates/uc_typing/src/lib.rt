// Typing of the resolved tree: what each form of it asks and gives, states that are in order for it, and that steps and
// answers keep them so.
#![tactic(auto)]

pub mod laws;
pub mod samples;
