// A task without its hand.

ghost use Rattle.std.specs.Prelude.{◌≡◌, IfOk};
ghost use Rattle.uc_frames.specs.Machine.{first_machine};

use crate::cell::Cell;
use crate::inside::Depths;
use crate::members::House;
use crate::pieces::Pieces;
use crate::stack::Stack;
use std::alloc::{AllocError, Global};
use std::marker::Model;
use uc_code::rows::RoutineCode;
use uc_machine::exec::{Exec, Home};

/// A task: the execution that runs and all else, each in a place of its own, so that a task is handed on without being moved, and a
/// switch exchanges places. Contracts see a machine with an empty hand.
#[derive(Drop)]
pub struct Task {
    pub(crate) running: Box<Stack>,
    pub(crate) parts: Box<TaskParts>,
}

/// What a task is besides its stacks: the name of the execution that runs, its own object, what is at home in it, its depth in each
/// object, and the items that it gathers.
#[derive(Drop)]
pub struct TaskParts {
    pub(crate) alloc: Global,
    pub(crate) exec: Exec,
    pub(crate) own: u32,
    pub(crate) house: House,
    pub(crate) depths: Depths,
    pub(crate) gathered: Option<Pieces>,
}

impl Model for Task {
    ghost use Rattle.std.specs.Prelude.{[]};
    ghost use Rattle.uc_frames.specs.Machine.{Machine};

    ghost Value = { Machine };

    ghost view = { λ t. record { run = t.running.value.run; callers = t.running.value.callers; env = record { frames = t.running.value.frames; links = t.running.value.links; exec = t.parts.value.exec; own = t.parts.value.own; house = t.parts.value.house; depths = t.parts.value.depths; hand = []; gathered = t.parts.value.gathered } } };
}

impl Task {
    /// The task whose object is `own`, as its main begins.
    pub fn first(alloc: Global, main: RoutineCode, own: u32) -> Result<Task, AllocError>
        ensures { IfOk result (λ t. t ≡ first_machine main own) }
    {
        let running = Stack::first(alloc, main, Cell::Object(own))?;
        let house = House::first(alloc)?;
        let depths = Depths::first(alloc, own)?;
        let parts = TaskParts {
            alloc,
            exec: Exec {
                home: Home::Task(own),
                serial: 0,
            },
            own,
            house,
            depths,
            gathered: None,
        };
        let running = Box::new(alloc, running)?;
        let parts = Box::new(alloc, parts)?;
        Ok(Task { running, parts })
    }
}
