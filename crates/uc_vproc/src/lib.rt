//! Runs of programs on several processors: the kernel under a lock, and a worker for each processor.
#![tactic(auto)]

mod bell;
mod desk;
mod fits;
mod put;
mod registry;
mod run;
mod sites;
mod step;
mod work;

pub use run::run_processors;
