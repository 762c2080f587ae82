// The cells of a task with its hand: its memory, and the items that it gathers.

ghost use Rattle.std.specs.Prelude.{◌≡◌, [], ◌∷◌, None, Some, IfOk, OnOk, OnErr, MatchOption};
ghost use Rattle.std.specs.Option.{is_some, option_map};
ghost use Rattle.uc_machine.specs.Executions.{frame_changed, frames_changed, members_at, parked_at, change, value_at, with_owned};
ghost use Rattle.uc_machine.specs.Quiet.{with_piece};
ghost use Rattle.uc_frames.specs.CellNumbers.{number_within};
ghost use Rattle.uc_frames.specs.Calls.{this_place};
ghost use Rattle.uc_frames.specs.Machine.{nought, below, top, cell_written, shifted, loaded, written, this_frame, cleared, with_hand, first_machine};

use crate::cell::{Cell, further_on, number_in_place};
use crate::members::{House, Members};
use crate::numbered::{is_same_of_task, position};
use crate::parked::ParkedStack;
use crate::pieces::Pieces;
use crate::task::Task;
use std::alloc::{AllocError, Global};
use std::marker::Model;
use uc_code::rows::RoutineCode;
use uc_entry::list::List;
use uc_entry::request::Piece;
use uc_machine::exec::{Exec, Home, Owner};

/// The members of the objects that a task is inside, by the objects' numbers.
pub type Hand = List<(u64, Members)>;

/// A task with its hand. A call that wants memory in vain changes nothing.
#[derive(Drop)]
pub struct Work {
    pub(crate) task: Task,
    pub(crate) hand: Hand,
}

impl Model for Work {
    ghost use Rattle.uc_frames.specs.Machine.{Machine, with_hand};

    ghost Value = { Machine };

    ghost view = { λ w. with_hand w.hand.items w.task };
}

impl Work {
    /// The task whose object is `own`, as its main begins, inside its object alone.
    pub fn first(alloc: Global, main: RoutineCode, own: u32) -> Result<Work, AllocError>
        ensures { IfOk result (λ w. w ≡ first_machine main own) }
    {
        let task = Task::first(alloc, main, own)?;
        Ok(Work {
            task,
            hand: List::new(alloc),
        })
    }

    /// A task with this hand.
    pub fn new(task: Task, hand: Hand) -> Work
        ensures { result ≡ with_hand hand.items task }
    {
        Work { task, hand }
    }

    /// The task and its hand.
    pub fn into_parts(self) -> (Task, Hand)
        ensures { self ≡ with_hand result.1.items result.0 }
    {
        let Work { task, hand } = self;
        (task, hand)
    }

    /// The place so many cells into the frame of the running activation.
    pub fn local(&self, cell: u32) -> Cell
        ensures { result ≡ shifted cell (Cell.Place (this_frame self.now) 0) }
    {
        let frame = Owner::Frame {
            exec: self.task.parts.exec,
            depth: self.task.running.run.head.frame,
        };
        Cell::Place(frame, u64::from(cell))
    }

    /// What a cell of the frame of the running activation holds.
    #[inline(always)]
    pub fn get(&self, cell: u32) -> Cell
        ensures { result ≡ loaded (shifted cell (Cell.Place (this_frame self.now) 0)) self.now.env }
    {
        let running = &*self.task.running;
        running.block.read(running.run.head.frame, u64::from(cell))
    }

    /// The number in a cell of the frame of the running activation, if it holds one.
    #[inline(always)]
    pub fn number(&self, cell: u32) -> Option<i64>
        ensures { result ≡ number_within (loaded (shifted cell (Cell.Place (this_frame self.now) 0)) self.now.env) }
    {
        let running = &*self.task.running;
        running
            .block
            .number(running.run.head.frame, u64::from(cell))
    }

    /// The number in the cell so many behind the place of the object at hand, if it holds one.
    #[inline(never)]
    pub fn own_number(&self, cell: u32) -> Option<i64>
        ensures { result ≡ number_within (loaded (this_place cell self.now) self.now.env) }
    {
        match &self.task.running.run.head.this {
            Cell::Place(Owner::Frame { exec, depth }, at) => {
                let place = at.saturating_add(u64::from(cell));
                if is_same_of_task(*exec, self.task.parts.exec) {
                    self.task.running.block.number_behind(*depth, place)
                } else {
                    self.number_elsewhere(*exec, *depth, place)
                }
            }
            _ => self.own_number_apart(cell),
        }
    }

    // The number in a cell of a frame, if it holds one. It stands apart, so that who reads a frame of the running execution calls nothing.
    #[inline(never)]
    fn number_elsewhere(&self, exec: Exec, depth: u32, at: u64) -> Option<i64>
        ensures { result ≡ number_within (value_at (Owner.Frame exec depth) at nought self.now.env) }
    {
        match self.frame_cell(exec, depth, at) {
            None => Some(0),
            Some(cell) => number_in_place(cell),
        }
    }

    // The same, wherever the object stands.
    #[inline(never)]
    fn own_number_apart(&self, cell: u32) -> Option<i64>
        ensures { result ≡ number_within (loaded (this_place cell self.now) self.now.env) }
    {
        number_in_place(&self.read(further_on(u64::from(cell), self.this())))
    }

    /// Writes a number to the cell so many behind the place of the object at hand, where that holds no binding.
    #[inline(never)]
    pub fn hold_number(&mut self, cell: u32, number: i64)
        ensures { self.new ≡ record self.old { env = written (this_place cell self.old) (Cell.Number number) self.old.env } }
    {
        match &self.task.running.run.head.this {
            Cell::Place(Owner::Frame { exec, depth }, at)
                if is_same_of_task(*exec, self.task.parts.exec) => {
                let depth = *depth;
                let at = at.saturating_add(u64::from(cell));
                self.task.running.block.write_behind(depth, at, number);
            }
            _ => self.hold_elsewhere(cell, number),
        }
    }

    // The same where the object may lie in a frame of another execution. It stands apart, so that nothing is kept for it.
    #[inline(never)]
    fn hold_elsewhere(&mut self, cell: u32, number: i64)
        ensures { self.new ≡ record self.old { env = written (this_place cell self.old) (Cell.Number number) self.old.env } }
    {
        match &self.task.running.run.head.this {
            Cell::Place(Owner::Frame { exec, depth }, at) => {
                let exec = *exec;
                let depth = *depth;
                let to = at.saturating_add(u64::from(cell));
                if self.runs(exec) {
                    self.task.running.block.write_number(depth, to, number);
                } else {
                    self.put_parked(exec, depth, to, number);
                }
            }
            _ => self.hold_number_apart(cell, number),
        }
    }

    // The same, wherever the object stands.
    #[inline(never)]
    fn hold_number_apart(&mut self, cell: u32, number: i64)
        ensures { self.new ≡ record self.old { env = written (this_place cell self.old) (Cell.Number number) self.old.env } }
    {
        let place = further_on(u64::from(cell), self.this());
        self.write(place, Cell::Number(number));
    }

    /// Writes a number to the place that is the newest operand, which goes. Where the place holds a binding, or the operand is no place, or
    /// nothing in hand is there, nothing is written.
    #[inline(never)]
    pub fn put_number(&mut self, number: i64)
        ensures { self.new ≡ record self.old { run = record self.old.run { operands = below self.old.run.operands }; env = written (top self.old.run.operands) (Cell.Number number) self.old.env } }
    {
        match self.task.running.block.newest_operand() {
            Some(Cell::Place(Owner::Frame { exec, depth }, at)) => {
                let exec = *exec;
                let depth = *depth;
                let at = *at;
                let _ = self.pop();
                if self.runs(exec) {
                    self.task.running.block.write_behind(depth, at, number);
                } else {
                    self.put_parked(exec, depth, at, number);
                }
            }
            _ => self.put_number_apart(number),
        }
    }

    // The same, whatever the operand is.
    #[inline(never)]
    fn put_number_apart(&mut self, number: i64)
        ensures { self.new ≡ record self.old { run = record self.old.run { operands = below self.old.run.operands }; env = written (top self.old.run.operands) (Cell.Number number) self.old.env } }
    {
        let place = self.pop();
        self.write(place, Cell::Number(number));
    }

    /// What the place that is the newest operand names is an operand in its place.
    #[inline(never)]
    pub fn load(&mut self) -> Result<(), AllocError>
        ensures ok { OnOk result (self.new ≡ record self.old { run = record self.old.run { operands = loaded (top self.old.run.operands) self.old.env ∷ below self.old.run.operands } }) }
        ensures err { OnErr result (self.new ≡ self.old) }
    {
        let cell = match self.task.running.block.newest_operand() {
            None => Cell::Number(0),
            Some(place) => match self.find(place) {
                None => Cell::Number(0),
                Some(cell) => *cell,
            },
        };
        self.replace(cell)?;
        Ok(())
    }

    /// A cell of the frame of the running activation is written; a binding stays.
    #[inline(always)]
    pub fn set(&mut self, cell: u32, value: Cell)
        ensures { self.new ≡ record self.old { env = written (shifted cell (Cell.Place (this_frame self.old) 0)) value self.old.env } }
    {
        let frame = self.task.running.run.head.frame;
        self.task.running.block.write(frame, u64::from(cell), value);
    }

    /// The same of a number.
    #[inline(always)]
    pub fn set_number(&mut self, cell: u32, number: i64)
        ensures { self.new ≡ record self.old { env = written (shifted cell (Cell.Place (this_frame self.old) 0)) (Cell.Number number) self.old.env } }
    {
        let frame = self.task.running.run.head.frame;
        self.task
            .running
            .block
            .write_newest(frame, u64::from(cell), number);
    }

    /// What the place in a cell holds, a mutex object its first field; 0 where the cell is no place, or nothing in hand is there.
    pub fn read(&self, place: Cell) -> Cell
        ensures { result ≡ loaded place self.now.env }
    {
        match self.find(&place) {
            None => Cell::Number(0),
            Some(cell) => *cell,
        }
    }

    // The cell that a place leads to, a mutex object to its first field, if one in hand is there.
    pub(crate) fn find(&self, place: &Cell) -> Option<&Cell>
        ensures { MatchOption result (loaded place.now self.now.env ≡ nought) (λ c. loaded place.now self.now.env ≡ c.now) }
    {
        match place {
            Cell::Place(owner, at) => match owner {
                Owner::Frame { exec, depth } => self.frame_cell(*exec, *depth, *at),
                Owner::Fields(object) => self.field(*object, *at),
            },
            Cell::Object(object) => self.field(*object, 0),
            Cell::Number(_) => None,
            Cell::Running(_) => None,
            Cell::Nothing => None,
        }
    }

    // The cell of a frame, if one in hand is there.
    #[inline(always)]
    fn frame_cell(&self, exec: Exec, depth: u32, at: u64) -> Option<&Cell>
        ensures { MatchOption result (value_at (Owner.Frame exec depth) at nought self.now.env ≡ nought) (λ c. value_at (Owner.Frame exec depth) at nought self.now.env ≡ c.now) }
    {
        if self.runs(exec) {
            return self.task.running.block.cell(depth, at);
        }
        match self.parked(exec) {
            None => None,
            Some(stack) => stack.cell(depth, at),
        }
    }

    // The cell of an object's fields, if one in hand is there.
    fn field(&self, object: u32, at: u64) -> Option<&Cell>
        ensures { MatchOption result (value_at (Owner.Fields object) at nought self.now.env ≡ nought) (λ c. value_at (Owner.Fields object) at nought self.now.env ≡ c.now) }
    {
        match self.members(Home::Object(object)) {
            None => None,
            Some(members) => members.field(at),
        }
    }

    // What is at a home, if that is in hand.
    pub(crate) fn members(&self, home: Home) -> Option<&House>
        ensures { MatchOption result (members_at home self.now.env ≡ None) (λ m. members_at home self.now.env ≡ Some m.now) }
    {
        match home {
            Home::Task(task) => {
                if task == self.task.parts.own {
                    Some(&self.task.parts.house)
                } else {
                    None
                }
            }
            Home::Object(object) => match position(&self.hand, u64::from(object)) {
                None => None,
                Some(i) => Some(&self.hand.get(i).1.house),
            },
        }
    }

    // An execution in hand that does not run.
    pub(crate) fn parked(&self, exec: Exec) -> Option<&ParkedStack>
        ensures { MatchOption result (parked_at exec self.now.env ≡ None) (λ s. parked_at exec self.now.env ≡ Some s.now) }
    {
        match self.members(exec.home) {
            None => None,
            Some(members) => members.parked(exec.serial),
        }
    }

    /// Writes a cell to a place, of a mutex object to its first field. Where the place holds a binding, or the cell is no place, or nothing in
    /// hand is there, all stays as it is.
    #[inline(always)]
    pub fn write(&mut self, place: Cell, cell: Cell)
        ensures { self.new ≡ record self.old { env = written place cell self.old.env } }
    {
        match place {
            Cell::Place(owner, at) => self.write_at(owner, at, cell),
            Cell::Object(object) => self.write_at(Owner::Fields(object), 0, cell),
            Cell::Number(_) => {}
            Cell::Running(_) => {}
            Cell::Nothing => {}
        }
    }

    #[inline(always)]
    fn write_at(&mut self, owner: Owner, at: u64, cell: Cell)
        ensures { self.new ≡ record self.old { env = with_owned owner (cell_written at cell) self.old.env } }
    {
        match owner {
            Owner::Frame { exec, depth } => {
                if self.runs(exec) {
                    self.task.running.block.write(depth, at, cell);
                } else {
                    self.write_parked(exec, depth, at, cell);
                }
            }
            Owner::Fields(object) => self.write_field(object, at, cell),
        }
    }

    #[inline(never)]
    fn write_parked(&mut self, exec: Exec, depth: u32, at: u64, cell: Cell)
        ensures { self.new ≡ record self.old { env = change exec.home (frames_changed exec.serial (frame_changed depth (cell_written at cell))) self.old.env } }
    {
        match exec.home {
            Home::Task(task) => {
                if task == self.task.parts.own {
                    self.task.parts.house.write(exec.serial, depth, at, cell);
                }
            }
            Home::Object(object) => {
                if let Some(i) = position(&self.hand, u64::from(object)) {
                    let slot = self.hand.get_mut(i);
                    slot.1.house.write(exec.serial, depth, at, cell);
                }
            }
        }
    }

    // The same of a number. It stands apart, so that who writes numbers has no cell to make.
    #[inline(never)]
    fn put_parked(&mut self, exec: Exec, depth: u32, at: u64, number: i64)
        ensures { self.new ≡ record self.old { env = change exec.home (frames_changed exec.serial (frame_changed depth (cell_written at (Cell.Number number)))) self.old.env } }
    {
        self.write_parked(exec, depth, at, Cell::Number(number));
    }

    #[inline(never)]
    fn write_field(&mut self, object: u32, at: u64, cell: Cell)
        ensures { self.new ≡ record self.old { env = with_owned (Owner.Fields object) (cell_written at cell) self.old.env } }
    {
        if let Some(i) = position(&self.hand, u64::from(object)) {
            let slot = self.hand.get_mut(i);
            slot.1.house.write_field(at, cell);
        }
    }

    /// So many cells of the frame of the running activation are 0, from this one on.
    pub fn clear(&mut self, cell: u32, cells: u32)
        ensures { self.new ≡ record self.old { env = cleared cell cells self.old } }
    {
        let frame = self.task.running.run.head.frame;
        self.task.running.block.clear(frame, cell, cells);
    }

    /// Whether items are gathered to be printed at once.
    pub fn is_gathering(&self) -> bool
        ensures { result ≡ is_some self.now.env.gathered }
    {
        self.task.parts.gathered.is_some()
    }

    /// From now on items are gathered.
    pub fn begin_gather(&mut self)
        ensures { self.new ≡ record self.old { env = record self.old.env { gathered = Some [] } } }
    {
        let none = Pieces::new(self.task.parts.alloc);
        self.task.parts.gathered = Some(none);
    }

    /// One more item in front of those that are gathered, if there is room.
    pub fn gather(&mut self, piece: Piece) -> Result<(), AllocError>
        ensures ok { OnOk result (self.new ≡ record self.old { env = record self.old.env { gathered = option_map (with_piece piece) self.old.env.gathered } }) }
        ensures err { OnErr result (self.new ≡ self.old) }
    {
        if let Some(pieces) = &mut self.task.parts.gathered {
            pieces.add(piece)?;
        }
        Ok(())
    }

    /// The gathered items; from now on none are gathered.
    pub fn take_gathered(&mut self) -> Option<Pieces>
        ensures value { result ≡ self.old.env.gathered }
        ensures after { self.new ≡ record self.old { env = record self.old.env { gathered = None } } }
    {
        let pieces = self.task.parts.gathered.take();
        pieces
    }
}
