// What travels with an execution besides its stack.

ghost use Rattle.std.specs.Prelude.{◌≡◌, ◌<◌, ◌+◌, nat_lt, true};
ghost use Rattle.uc_machine.specs.Executions.{no_links, one_call_more, one_call_less};
ghost use Rattle.uc_machine.specs.Switches.{woken};
ghost use Rattle.uc_tree.specs.declared.limits.TheConstants.{CALLS};
ghost use Rattle.uc_tree.specs.SiteOffers.{has_bit};
ghost use Rattle.uc_entry.specs.Keyed.{drop_first};
ghost use Rattle.uc_machine.specs.Insides.{oldest_enabled};
ghost use Rattle.uc_frames.specs.Machine.{lively};

use std::alloc::Global;
use std::marker::Model;
use uc_machine::exec::{Exec, Pending, Stage};
use uc_tree::limits::EVENTS;

/// Who resumed an execution first and last, whether its coroutine is live, how far its main is, who destroys it, its enabled and pending events, and its counts.
#[derive(Drop)]
pub struct Links {
    pub(crate) starter: Option<Exec>,
    pub(crate) resumer: Option<Exec>,
    pub(crate) live: bool,
    pub(crate) stage: Stage,
    pub(crate) destroyer: Option<Exec>,
    pub(crate) enabled: u64,
    pub(crate) pending: Vec<Pending>,
    pub(crate) calls: u32,
    pub(crate) mutex_calls: u32,
    pub(crate) builds: u32,
}

impl Model for Links {
    ghost use Rattle.uc_machine.specs.Executions.{Links};

    ghost Value = { Links };

    ghost view = { λ l. record { starter = l.starter; resumer = l.resumer; live = l.live; stage = l.stage; destroyer = l.destroyer; enabled = l.enabled; pending = l.pending.items; calls = l.calls; mutex_calls = l.mutex_calls; builds = l.builds } };
}

impl Links {
    // The links of an execution whose main has begun and that nobody resumed, as that of a task.
    pub(crate) fn new(alloc: Global) -> Links
        ensures { result ≡ no_links }
    {
        Links {
            starter: None,
            resumer: None,
            live: false,
            stage: Stage::Started,
            destroyer: None,
            enabled: 0,
            pending: Vec::new(alloc),
            calls: 0,
            mutex_calls: 0,
            builds: 0,
        }
    }

    // It is resumed by another.
    pub(crate) fn wake(&mut self, by: Exec)
        ensures { self.new ≡ woken by self.old }
    {
        if self.starter.is_none() {
            self.starter = Some(by);
        }
        self.resumer = Some(by);
        self.stage = Stage::Started;
    }

    // Its coroutine is live; or it is no more, and its main does not begin, or go on, any more.
    pub(crate) fn set_live(&mut self, live: bool)
        ensures { self.new ≡ lively live self.old }
    {
        self.live = live;
        if !live {
            self.stage = Stage::Ended;
        }
    }

    // Whether it has a mutex call that has not ended, or builds a mutex object.
    pub(crate) fn is_engaged(&self) -> bool
        ensures { result ≡ nat_lt 0 (self.now.mutex_calls + self.now.builds) }
    {
        0 < self.mutex_calls || 0 < self.builds
    }

    // The oldest pending event that is enabled, if there is one.
    pub(crate) fn oldest_enabled(&self) -> Option<Pending>
        ensures { result ≡ oldest_enabled self.now }
    {
        for at in 0..self.pending.len() {
            let event = self.pending[at];
            if has_event(self.enabled, event.event) {
                return Some(event);
            }
        }
        None
    }

    // One active call more, where it counts.
    pub(crate) fn enter(&mut self, counts: bool)
        requires { counts ≡ true → self.old.calls < CALLS }
        ensures { self.new ≡ one_call_more counts self.old }
    {
        if counts {
            self.calls += 1;
        }
    }

    // One active call less, where it counts.
    pub(crate) fn leave(&mut self, counts: bool)
        ensures { self.new ≡ one_call_less counts self.old }
    {
        if counts {
            self.calls = self.calls.saturating_sub(1);
        }
    }
}

// The oldest of these that a mask has goes.
pub(crate) fn drop_enabled(pending: &mut Vec<Pending>, mask: u64)
    ensures { pending.new.items ≡ drop_first (λ p. has_bit p.event mask) pending.old.items }
{
    for at in 0..pending.len() {
        if has_event(mask, pending[at].event) {
            let _ = pending.remove(at);
            return;
        }
    }
}

// Whether a mask has an event.
fn has_event(mask: u64, event: u8) -> bool
    ensures { result ≡ has_bit event mask }
{
    event < EVENTS && (mask >> event) % 2 == 1
}
