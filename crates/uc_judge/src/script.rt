// Tasks that ask what a script tells.

ghost use Rattle.std.specs.Prelude.{◌≡◌, ◌==◌, length};
ghost use Rattle.uc_entry.specs.declared.request.TheConstants.{PRINT_ITEMS};
ghost use Rattle.uc_judge.specs.Scripts.{is_whole, next_of};

use crate::asks::{Asks, Change, Walked};
use std::alloc::AllocError;
use std::marker::Model;
use uc_entry::request::{Asked, PRINT_ITEMS, Piece, Request};

/// A task, the ticks that it makes, and what it asks then.
#[derive(Clone, Copy)]
pub struct Step {
    pub task: u32,
    pub ticks: u32,
    pub asked: Asked,
}

/// Tasks that ask these steps, one after the other, whatever they are answered. A task asks nothing
/// where the next step is another task's, is of more ticks than it has, or is a print without items.
#[derive(Drop)]
pub struct Script {
    steps: Vec<Step>,
}

impl Model for Script {
    ghost use Rattle.std.specs.Prelude.{List};
    ghost use Rattle.uc_judge.specs.declared.script.Step.{Step};

    ghost Value = { List Step };

    ghost view = { λ s. s.steps.items };
}

impl Script {
    /// The script of these steps.
    pub fn new(steps: Vec<Step>) -> Script
        ensures { result ≡ steps.items }
    {
        Script { steps }
    }
}

impl Asks for Script {
    ghost use Rattle.uc_judge.specs.Scripts.{Steps, unmoved};
    ghost use Rattle.uc_judge.specs.ScriptLemmas.{script_once, script_whole};

    ghost asks = { Steps };

    ghost told = { unmoved };

    fn ask(&mut self, task: u32, quantum: u32) -> Result<Option<Walked>, AllocError> {
        match next_of(&self.steps, task, quantum) {
            Some(walked) => {
                let _step = self.steps.remove(0);
                Ok(Some(walked))
            }
            None => Ok(None),
        }
    }

    fn tell(&mut self, _change: Change) -> Result<(), AllocError> {
        Ok(())
    }

    ghost once = { script_once };

    ghost whole = { script_whole };
}

// What a task asks of these steps.
fn next_of(steps: &[Step], task: u32, quantum: u32) -> Option<Walked>
    ensures { result ≡ next_of task quantum steps.now }
{
    match steps.first() {
        None => None,
        Some(step) => {
            if step.task == task && step.ticks <= quantum && is_whole(&step.asked.request) {
                return Some(Walked {
                    ticks: step.ticks,
                    asked: step.asked,
                });
            }
            None
        }
    }
}

// Whether a print has items.
fn is_whole(request: &Request) -> bool
    ensures { result ≡ is_whole request.now }
{
    match request {
        Request::Print { n, items } => {
            if *n < 1 {
                return false;
            }
            if *n > PRINT_ITEMS {
                return false;
            }
            is_full(items)
        }
        _ => true,
    }
}

// Whether there is a row for every item that there may be.
fn is_full(items: &[Piece]) -> bool
    ensures { result ≡ (length items.now == PRINT_ITEMS) }
{
    items.len() == PRINT_ITEMS as usize
}
