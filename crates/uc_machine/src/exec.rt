// The names of executions, and of what holds cells; how far a coroutine is, pending events, and why activations are unwound.

/// Where an execution is at home: in a task, named by the task's own object, or in a mutex object.
#[derive(Clone, Copy, PartialEq, Eq, Debug)]
pub enum Home {
    Task(u32),
    Object(u32),
}

/// An execution: the one that was made at this home as number `serial`, which names no other. The own execution of a task
/// has number 0 at its task.
#[derive(Clone, Copy, PartialEq, Eq, Debug)]
pub struct Exec {
    pub home: Home,
    pub serial: u64,
}

/// What holds cells: a frame of an execution, by its depth from the oldest, or the fields of a mutex object.
#[derive(Clone, Copy, PartialEq, Eq, Debug)]
pub enum Owner {
    Frame { exec: Exec, depth: u32 },
    Fields(u32),
}

/// How far the main of an execution is: not begun, begun, ended or unwound.
#[derive(Clone, Copy)]
pub enum Stage {
    Fresh,
    Started,
    Ended,
}

/// An event that is pending, with its fields.
#[derive(Clone, Copy)]
pub struct Pending {
    pub event: u8,
    pub x: i64,
    pub y: i64,
}

/// Why an activation is unwound: an event with its fields; a return to the activation that has so many below it; or its
/// coroutine is destroyed.
#[derive(Clone, Copy, PartialEq, Eq, Debug)]
pub enum UnwindReason {
    Event { event: u8, x: i64, y: i64 },
    ReturnTo(u32),
    Destroyed,
}

/// How far the search for a handler of a resumption has come: the handler stands in the activation that has so many below
/// it, and so many handlers and clean-ups stand outwards of its guarded block there; the activation that it belongs to has `home`
/// below it.
#[derive(Clone, Copy, PartialEq, Eq, Debug)]
pub struct Visited {
    pub level: u32,
    pub rest: u32,
    pub home: u32,
}
