// An activation of a routine or a handler.

ghost use Rattle.std.specs.Prelude.{◌≡◌, [], ◌∷◌, None, true, false};
ghost use Rattle.uc_machine.specs.Executions.{begun};
ghost use Rattle.uc_frames.specs.Block.{completed, exceptional, Told};
ghost use Rattle.uc_frames.specs.Unwinding.{operands_of, handler_of};

use crate::cell::{Cell, is_nothing};
use crate::event::HandlerStart;
use uc_machine::exec::{UnwindReason, Visited};

/// What a call and a return copy of an activation as one: what is next in it, the depth of the frame whose variables it uses, how many
/// elements stand of the array that it builds or destroys, whether it counts as an active call, and the object of a member's call.
#[derive(Clone, Copy)]
pub struct Head {
    pub next: u32,
    pub frame: u32,
    pub elements: u32,
    pub counts: bool,
    pub(crate) is_exceptional: bool,
    pub this: Cell,
}

/// An activation: its head, how far the search came where it handles a resumption, why it is unwound, and what a return that unwinds it
/// hands over. Its operands lie in the block of its execution. Of an activation that is not exceptional the last three say nothing, and
/// they are not copied from one such activation to another.
#[derive(Clone, Copy)]
pub struct Activation {
    pub head: Head,
    pub handles: Option<Visited>,
    pub raised: Option<UnwindReason>,
    pub result: Cell,
}

impl Activation {
    // An activation as it begins, at this op.
    pub(crate) fn new(entry: u32, this: Cell, frame: u32, counts: bool) -> Activation
        ensures begins { completed result [] ≡ begun entry this frame Cell.Nothing counts }
        ensures told { Told result }
    {
        Activation {
            head: Head {
                next: entry,
                frame,
                elements: 0,
                counts,
                is_exceptional: false,
                this,
            },
            handles: None,
            raised: None,
            result: Cell::Nothing,
        }
    }

    // It is an activation as it begins, at this op, in the place of one that has ended.
    #[inline(always)]
    pub(crate) fn begin(&mut self, entry: u32, this: Cell, frame: u32, counts: bool)
        requires { Told self.old }
        ensures begins { completed self.new [] ≡ begun entry this frame Cell.Nothing counts }
        ensures told { Told self.new }
    {
        self.head.next = entry;
        self.head.this = this;
        self.head.frame = frame;
        self.head.counts = counts;
        self.head.elements = 0;
        if self.head.is_exceptional {
            self.forget();
        }
    }

    // The same where nothing exceptional is said, as an active call for the object that is here.
    #[inline(always)]
    pub(crate) fn begin_here(&mut self, entry: u32, frame: u32)
        requires told { Told self.old }
        requires plain { self.old.head.is_exceptional ≡ false }
        ensures begins { completed self.new [] ≡ begun entry self.old.head.this frame Cell.Nothing true }
        ensures told { Told self.new }
    {
        self.head.next = entry;
        self.head.frame = frame;
        self.head.counts = true;
        self.head.elements = 0;
    }

    // The same without an object.
    #[inline(always)]
    pub(crate) fn begin_bare(&mut self, entry: u32, frame: u32)
        requires told { Told self.old }
        requires plain { self.old.head.is_exceptional ≡ false }
        ensures begins { completed self.new [] ≡ begun entry Cell.Nothing frame Cell.Nothing true }
        ensures told { Told self.new }
    {
        if !is_nothing(&self.head.this) {
            self.head.this = Cell::Nothing;
        }
        self.begin_here(entry, frame);
    }

    // Nothing exceptional is said any more.
    #[cold]
    #[inline(never)]
    fn forget(&mut self)
        ensures { self.new ≡ record self.old { head = record self.old.head { is_exceptional = false }; handles = None; raised = None; result = Cell.Nothing } }
    {
        self.head.is_exceptional = false;
        self.handles = None;
        self.raised = None;
        self.result = Cell::Nothing;
    }

    // Whether it says something exceptional, where it is unwound no more.
    pub(crate) fn says_more(&self) -> bool
        ensures { exceptional result self.now.handles None self.now.result }
    {
        self.handles.is_some() || !is_nothing(&self.result)
    }

    // It is the same as another.
    #[inline(always)]
    pub(crate) fn copy_from(&mut self, other: &Activation)
        requires told { Told self.old }
        requires other { Told other.now }
        ensures { self.new ≡ other.now }
    {
        let is_exceptional = self.head.is_exceptional || other.head.is_exceptional;
        self.head = other.head;
        if is_exceptional {
            self.copy_exceptional(other);
        }
    }

    // The same, where neither says anything exceptional. The answer is whether it is so; else it stays as it is.
    #[inline(always)]
    pub(crate) fn copy_plain(&mut self, other: &Activation) -> bool
        requires told { Told self.old }
        requires other { Told other.now }
        ensures made { result ≡ true → self.new ≡ other.now }
        ensures own { result ≡ true → self.old.head.is_exceptional ≡ false }
        ensures plain { result ≡ true → other.now.head.is_exceptional ≡ false }
        ensures stays { result ≡ false → self.new ≡ self.old }
    {
        if self.head.is_exceptional || other.head.is_exceptional {
            return false;
        }
        self.head = other.head;
        true
    }

    #[cold]
    #[inline(never)]
    fn copy_exceptional(&mut self, other: &Activation)
        ensures { self.new ≡ record self.old { handles = other.now.handles; raised = other.now.raised; result = other.now.result } }
    {
        self.handles = other.handles;
        self.raised = other.raised;
        self.result = other.result;
    }

    // It is another, which is unwound as it was itself.
    #[inline(always)]
    pub(crate) fn unwind_on(&mut self, other: &Activation)
        ensures { self.new ≡ record other.now { head = record other.now.head { is_exceptional = true }; raised = self.old.raised; result = self.old.result } }
    {
        self.head = other.head;
        self.head.is_exceptional = true;
        self.handles = other.handles;
    }

    // An activation as a handler of a resumption begins.
    pub(crate) fn handler(handling: HandlerStart) -> Activation
        ensures begins { completed result (operands_of handling.event) ≡ handler_of handling }
        ensures told { Told result }
    {
        Activation {
            head: Head {
                next: handling.entry,
                frame: handling.frame,
                elements: 0,
                counts: false,
                is_exceptional: true,
                this: handling.this,
            },
            handles: Some(handling.visited),
            raised: None,
            result: Cell::Nothing,
        }
    }
}
