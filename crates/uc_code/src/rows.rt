// Instructions with their lines, and the rows of handlers.

ghost use Rattle.std.specs.Prelude.{◌≡◌};
ghost use Rattle.uc_code.specs.Listing.{kind_number};
ghost use Rattle.uc_code.specs.CodeShapes.{main_end, main_left};

use crate::op::Op;

/// An op and the line of the program text from which it comes.
#[derive(Clone, Copy)]
pub struct Instruction {
    pub op: Op,
    pub line: u32,
}

/// What a handler row does with a raise: a `catch` and a `_CatchResume` take the events that they name; a clean-up is a
/// destruction or a leave that unwinding performs.
#[derive(Clone, Copy)]
pub enum RowKind {
    Catch,
    CatchResume,
    CleanUp,
}

impl RowKind {
    // The number of the kind in the listing.
    pub(crate) fn number(self) -> u8
        ensures { result ≡ kind_number self }
    {
        match self {
            RowKind::Catch => 0,
            RowKind::CatchResume => 1,
            RowKind::CleanUp => 2,
        }
    }
}

/// The event of a row that takes every event.
pub const ANY_EVENT: u8 = 255;

/// The event of a row that takes no event and performs nothing: what it covers has the rows outwards of it alone.
pub const NO_EVENT: u8 = 254;

/// The end of a row that is still open.
pub const OPEN_END: u32 = 4_294_967_295;

/// One handler. It covers the ops `from` up to before `to`, and its own code begins at the op `entry`. `outer` is the
/// number of the next row outwards plus 1, or 0 where there is none: the handlers of one guarded block are rows one outwards of
/// another, the first one innermost. `event` is the event that it takes, or `ANY_EVENT`. `rest` is how many rows stand outwards of
/// its guarded block: so far a search has come that finds it.
#[derive(Clone, Copy)]
pub struct HandlerRow {
    pub from: u32,
    pub to: u32,
    pub outer: u32,
    pub kind: RowKind,
    pub event: u8,
    pub rest: u32,
    pub entry: u32,
}

/// A handler: its kind, the event that it takes or `ANY_EVENT`, how many rows stand outwards of its guarded block, and the op at which
/// it begins.
#[derive(Clone, Copy)]
pub struct Handler {
    pub kind: RowKind,
    pub event: u8,
    pub rest: u32,
    pub entry: u32,
}

/// Where an object lies: from this cell of the frame on, or from this cell of the object at hand on.
#[derive(Clone, Copy)]
pub enum ObjectSpot {
    Local(u32),
    This(u32),
}

/// An array of objects: how many there are, and the cells of each.
#[derive(Clone, Copy)]
pub struct Array {
    pub length: u32,
    pub size: u32,
}

/// A cluster or a processor.
#[derive(Clone, Copy)]
pub enum Resource {
    Cluster,
    Processor,
}

/// How a constructor or a destructor is called: as that of a plain object or a coroutine; as the constructor of a mutex object of this
/// class, which is made; or as the destructor of the mutex object whose number the place holds, which it enters. A cluster and a processor
/// are asked for without a call, a processor of the first cluster, and ended by the number that the place holds.
#[derive(Clone, Copy)]
pub enum Manner {
    Plain,
    Makes { class: u32 },
    Ends,
    Opens(Resource),
    Closes(Resource),
}

/// A call of a constructor or a destructor without arguments, at the object that begins in a spot, or at the element that is
/// counted of an array that begins there: the number of the routine, whether it is written, and how it is called.
#[derive(Clone, Copy)]
pub struct ObjectCall {
    pub spot: ObjectSpot,
    pub array: Option<Array>,
    pub routine: u32,
    pub written: bool,
    pub manner: Manner,
}

/// What cleans up: the call of a destructor; or, of the coroutine that is built or destroyed, that it is unwound, and that its
/// execution is no more; or, of a mutex object, that its running call leaves it, that its destruction ends, and that its building ends: it
/// is free then, or begins as a task with the main of this number, and where it is unwound it is given up; or, of events, that those are
/// enabled again which this cell of the frame keeps.
#[derive(Clone, Copy)]
pub enum Cleaning {
    Call(ObjectCall),
    TakeDown,
    Forget,
    Leave,
    End,
    Free(Option<u32>),
    Restore(u32),
}

/// Whose main a routine is: that of a task or that of a coroutine.
#[derive(Clone, Copy)]
pub enum MainOf {
    Task,
    Coroutine,
}

impl MainOf {
    /// The end of such a main.
    pub fn end(self) -> Op
        ensures { result ≡ main_end self }
    {
        match self {
            MainOf::Task => Op::EndTask,
            MainOf::Coroutine => Op::EndMain,
        }
    }

    /// Its end where it is unwound.
    pub fn left(self) -> Op
        ensures { result ≡ main_left self }
    {
        match self {
            MainOf::Task => Op::Unhandled,
            MainOf::Coroutine => Op::Escape,
        }
    }
}

/// What stands around a statement in its routine: the statements of the routine of this number, which is the main of a task or of a
/// coroutine where it has the line in which that ends and a row; a loop, with the ops to which `break` and `continue` jump; a
/// block that is left as a whole, with the op to which whatever leaves it jumps and its row; a handler of a guarded block, with its
/// row; the scope of an object, with what cleans it up, the line of its
/// block, and its row; a part of an object under construction, with its row; the turns over the elements of an array, with
/// their row; or the code of an exit or of a handler of resumptions, which has left all marks with rows from this number on.
#[derive(Clone, Copy)]
pub enum CodeMark {
    Body {
        routine: u32,
    },
    Finish {
        main: MainOf,
        routine: u32,
        line: u32,
        row: u32,
    },
    Loop {
        leave: u32,
        again: u32,
    },
    Whole {
        leave: u32,
        row: u32,
    },
    Guard {
        row: u32,
    },
    Clean {
        what: Cleaning,
        line: u32,
        row: u32,
    },
    Part {
        row: u32,
    },
    Elements {
        row: u32,
    },
    Outward {
        below: u32,
        row: u32,
    },
}

/// What opens a row: the statements of the routine of this number, which is the main of a task or of a coroutine and ends in this line; a
/// block that is left as a whole, by a jump to this op; a handler of a guarded block; the scope of an object, with what cleans it up and
/// the line of its block; a part of an object under construction; turns over the elements of an array; or the code of an exit or of a
/// handler, which leaves all marks with rows from this number on.
#[derive(Clone, Copy)]
pub enum Opening {
    Main {
        main: MainOf,
        routine: u32,
        line: u32,
    },
    Whole {
        leave: u32,
    },
    Handler,
    Object {
        what: Cleaning,
        line: u32,
    },
    Part,
    Elements,
    Outward {
        below: u32,
    },
}

/// What leaves statements before their end: `break`, `continue`, and a return with a value or without one.
#[derive(Clone, Copy)]
pub enum Way {
    Break,
    Continue,
    Value,
    End,
}

/// Where the code of a routine begins, the cells of its frame, how many of them, from the first on, hold its parameters, and whether it is
/// written: only then a call of it is an active one.
#[derive(Clone, Copy)]
pub struct RoutineCode {
    pub entry: u32,
    pub cells: u32,
    pub params: u32,
    pub written: bool,
}
