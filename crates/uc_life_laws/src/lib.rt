// Laws of what an execution knows and of what lives: names of executions, things in scope, what is at hand
// of whom, marks and homes of objects, in steps and in runs.
#![tactic(auto)]

pub mod cover;
pub mod found;
pub mod home;
pub mod life;
pub mod named;
pub mod owing;
pub mod own_names;
pub mod unmarked;
pub mod world;
