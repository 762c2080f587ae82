// The value under the lock: the kernel, and who made each entry.
ghost use Rattle.std.specs.Prelude.{◌≡◌, ◌≤◌, ◌-◌, ◌++◌, [], ◌∷◌, length, replicate, vec_capacity, IfOk, OnOk};
ghost use Rattle.uc_tree.specs.declared.limits.TheConstants.{INPUT_BYTES};
ghost use Rattle.uc_tree.specs.Source.{Source};
ghost use Rattle.uc_acts.specs.KernelRuns.{InRange};
ghost use Rattle.uc_frames.specs.Machine.{with_hand};
ghost use Rattle.uc_step.specs.WeightFalls.{Keeps};
ghost use Rattle.uc_meaning.specs.Runs.{first_world};
ghost use Rattle.uc_kernel.specs.KernelState.{with_asked};
ghost use Rattle.uc_kernel_core.specs.Mirrors.{AreKnownSites};
ghost use Rattle.uc_lock.specs.Journals.{Extends};
ghost use Rattle.uc_vproc.specs.Makers.{Log};
ghost use Rattle.uc_vproc.specs.Rest.{HasSource, IsSource, IsTask};
ghost use Rattle.uc_vproc.specs.Desks.{key_from, no_fields, IsOpened, Came, Saw, Brings, EndsAs};

use crate::put::{hand_out, put};
use crate::registry::{Registry, opening};
use crate::step::Step;
use std::alloc::{AllocError, Global};
use std::collections::LinkedList;
use std::marker::Model;
use std::snapshot::Snapshot;
use uc_code::code::Code;
use uc_entry::entry::{Entry, Options};
use uc_entry::request::Asked;
use uc_frames::members::Members;
use uc_frames::task::Task;
use uc_kernel::given::{Back, Shape};
use uc_kernel::kernel::Kernel;
use uc_lock::Journaled;

/// What no holder may change: the code, the number of its main, the input and the options. It exists in proofs alone.
pub struct RunKey {
    pub code: Code,
    pub main: u32,
    pub input: LinkedList<u8>,
    pub opts: Options,
}

// The maker of the first entry, which is no seat.
const NOBODY: u32 = 64;

/// Who made an entry. Contracts see what came of the call, too.
#[derive(Drop)]
pub struct Note {
    maker: u32,
    step: Snapshot<Step>,
}

impl Model for Note {
    ghost use Rattle.std.specs.Prelude.{ℕ};
    ghost use Rattle.uc_vproc.specs.declared.step.Step.{Step};

    ghost Value = { ℕ × Step };

    ghost view = { λ n. (n.maker, n.step.value) };
}

impl Note {
    fn of(maker: u32, step: &Step) -> Note
        ensures { result ≡ (maker, step.now) }
    {
        Note {
            maker,
            step: Snapshot::of(step),
        }
    }
}

/// A kernel with the maker of each entry.
#[derive(Drop)]
pub struct Desk {
    kernel: Kernel<Option<Task>, Members>,
    notes: Vec<Note>,
    registry: Registry,
    code: Snapshot<Code>,
    main: u32,
}

impl Model for Desk {
    ghost use Rattle.std.specs.Prelude.{vec_capacity};
    ghost use Rattle.uc_kernel.specs.KernelState.{kept};
    ghost use Rattle.uc_vproc.specs.Makers.{paired};
    ghost use Rattle.uc_vproc.specs.Desks.{Table, Keeping};

    ghost Value = { Table };

    ghost view = { λ d. record { code = d.code.value; main = d.main; store = d.kernel; log = paired d.kernel.journal d.notes.items } };

    ghost invariant = { λ d. Keeping d.code.value d.main (kept d.kernel) d.notes.items (vec_capacity d.notes) d.registry };
}

/// The locked value: a desk in a place of its own, since what is under a lock is moved out and in again each time that it is taken.
#[derive(Drop)]
pub struct Locked {
    pub desk: Box<Desk>,
}

impl Model for Locked {
    ghost use Rattle.uc_vproc.specs.Desks.{Table};

    ghost Value = { Table };

    ghost view = { λ l. l.desk.value };
}

impl Journaled for Locked {
    type Key = RunKey;

    type Item = (Entry, Step);

    ghost key_of = { key_from };

    ghost journal_of = { λ d. d.log };
}

impl Desk {
    /// A run that opens, with its first task inside its own object, which has no fields.
    pub fn open(
        alloc: Global,
        code: &Code,
        main: u32,
        shape: Shape,
        opts: Options,
        input: Vec<u8>,
        first: Task,
        own: Members,
    ) -> Result<Desk, AllocError>
        requires source { HasSource code.now main }
        requires options { InRange opts }
        requires known { AreKnownSites shape.sites.items }
        requires sites { shape.sites.items ≡ code.now.sites }
        requires input { length input.items ≤ INPUT_BYTES }
        requires first { (source : Source) → IsSource code.now main source →
            IsTask code.now first ((first_world source).tasks 0) }
        requires kept { Keeps code.now (with_hand [] first) }
        requires own { own ≡ no_fields }
        ensures { IfOk result (λ d. IsOpened code.now main input.items opts d) }
    {
        let mut notes = Vec::with_capacity(alloc, opts.entries as usize)?;
        let registry = opening(alloc, opts.processors)?;
        let kernel = Kernel::open(alloc, shape, opts, input, Some(first), own)?;
        make_notes(&mut notes, 1, NOBODY, &Step::Idle);
        Ok(Desk {
            kernel,
            notes,
            registry,
            code: Snapshot::of(code),
            main,
        })
    }

    /// Gives a task out, where one is ready for a free processor.
    pub fn begin(&mut self, maker: u32) -> Step
        ensures key { key_from self.new ≡ key_from self.old }
        ensures log { Extends maker self.old.log self.new.log }
        ensures came { Came self.old.code maker self.new.log result }
    {
        let step = hand_out(&mut self.kernel);
        let count = self.kernel.journal().len();
        make_notes(&mut self.notes, count, maker, &step);
        step
    }

    /// The act of what a worker brings from a ride. Where what is asked does not fit, or memory is wanting, the run is abandoned.
    #[inline(always)]
    pub fn act(&mut self, maker: u32, back: Back<Option<Task>, Members>, asked: &Asked) -> Step
        requires brings { (seen : Log) × Saw maker seen self.old.log
            × Brings self.old.code maker seen (with_asked back asked.now) }
        ensures key { key_from self.new ≡ key_from self.old }
        ensures log { Extends maker self.old.log self.new.log }
        ensures came { Came self.old.code maker self.new.log result }
    {
        let step = put(&mut self.kernel, &mut self.registry, back, asked);
        let count = self.kernel.journal().len();
        make_notes(&mut self.notes, count, maker, &step);
        step
    }

    /// No task is given out any more.
    pub fn abandon(&mut self)
        ensures key { key_from self.new ≡ key_from self.old }
        ensures log { self.new.log ≡ self.old.log }
    {
        self.kernel.abandon();
    }

    /// The journal, where the run is over and was not abandoned.
    pub fn finish(self) -> Result<Vec<Entry>, AllocError>
        ensures { IfOk result (λ j. EndsAs self.code self.main self.store.input self.store.opts
            j.items) }
    {
        let Desk {
            kernel,
            notes,
            registry,
            ..
        } = self;
        // By name, or the proof of each way out goes through both.
        drop(notes);
        drop(registry);
        let abandoned = kernel.abandoned();
        let over = kernel.ending().is_some();
        let journal = kernel.into_journal();
        if over && !abandoned {
            Ok(journal)
        } else {
            Err(AllocError)
        }
    }
}

// Each entry that has no note yet is of this call.
fn make_notes(notes: &mut Vec<Note>, count: usize, maker: u32, step: &Step)
    requires { count ≤ vec_capacity notes.old }
    ensures items { notes.new.items
        ≡ notes.old.items ++ replicate (count - length notes.old.items) (maker, step.now) }
    ensures capacity { vec_capacity notes.new ≡ vec_capacity notes.old }
{
    for _ in notes.len()..count {
        notes.push_reserved(Note::of(maker, step));
    }
}

fn is_send<T: Send>() {}

/// The locked value may go to another thread.
#[tactic(auto, using(crate::proofs::Sent::locked_sent))]
pub fn desk_crosses() {
    is_send::<Locked>();
}
