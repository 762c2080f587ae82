// A call of a routine.

use crate::cell::Cell;
use uc_code::rows::RoutineCode;

/// A call: the routine, the object of a member's call, how many of the newest operands it takes, its parameters among them, and
/// whether it counts as an active call.
#[derive(Clone, Copy)]
pub struct Call {
    pub routine: RoutineCode,
    pub this: Cell,
    pub taken: u64,
    pub counts: bool,
}
