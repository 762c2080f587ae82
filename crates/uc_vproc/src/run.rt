// A run on several processors.
ghost use Rattle.std.specs.Prelude.{◌≡◌, ◌≤◌, All, IfOk, length};
ghost use Rattle.uc_tree.specs.Source.{Source};
ghost use Rattle.uc_tree.specs.declared.limits.TheConstants.{INPUT_BYTES};
ghost use Rattle.uc_acts.specs.KernelRuns.{InRange};
ghost use Rattle.uc_code.specs.Layout.{laid_of};
ghost use Rattle.uc_code.specs.Pace.{IsPaced};
ghost use Rattle.uc_kernel_core.specs.Mirrors.{AreKnownSites};
ghost use Rattle.uc_vproc.specs.Rest.{HasSource, IsSource};
ghost use Rattle.uc_vproc.specs.Runs.{IsRunOf};
ghost use Rattle.uc_vproc.specs.Desks.{EndsAs, IsOpened};

use crate::desk::{Desk, Locked};
use crate::sites::known_sites;
use crate::work::work_all;
use std::alloc::{AllocError, Global};
use std::sync::Wait;
use std::thread::Threads;
use uc_code::code::Code;
use uc_entry::entry::{Entry, Options};
use uc_frames::members::Members;
use uc_fused::table::Table;
use uc_kernel::given::Shape;
use uc_lock::Shared;
use uc_outside::Gate;
use uc_step::begin::begin;

/// Runs a program, whose main is the routine of this number, on this input under these options, with a worker for each processor:
/// one alone on this thread, several on threads of their own where threads can be made. Of each source with this main from which the
/// code was lowered, the journal is a complete run. The gate is told of the first ride behind each dispatch. Without memory, or where
/// a test of what the program asks says no, there is none.
pub fn run_processors<R: Threads + Wait + Sync, G: Gate + Sync>(
    rt: &R,
    alloc: Global,
    code: &Code,
    main: u32,
    input: Vec<u8>,
    opts: Options,
    gate: &G,
) -> Result<Vec<Entry>, AllocError>
    requires source { HasSource code.now main }
    requires range { InRange opts }
    requires small { length input.items ≤ INPUT_BYTES }
    requires paced { IsPaced (laid_of code.now) code.now.routines }
    ensures run { IfOk result (λ journal. (source : Source) → IsSource code.now main source →
        IsRunOf source input.items opts journal.items) }
{
    let desk = open(alloc, code, main, input, opts)?;
    let journal = serve(rt, alloc, code, gate, desk, opts.processors)?;
    Ok(journal)
}

// The run as it opens: the task at the start of its main, inside its own object.
fn open(
    alloc: Global,
    code: &Code,
    main: u32,
    input: Vec<u8>,
    opts: Options,
) -> Result<Desk, AllocError>
    requires source { HasSource code.now main }
    requires range { InRange opts }
    requires small { length input.items ≤ INPUT_BYTES }
    ensures { IfOk result (λ d. IsOpened code.now main input.items opts d) }
{
    let shape = shape_of(alloc, code)?;
    match begin(alloc, code, main, 0)? {
        None => Err(AllocError),
        Some(work) => {
            let (first, _) = work.into_parts();
            let own = Members::new(alloc, 0)?;
            let desk = Desk::open(alloc, code, main, shape, opts, input, first, own)?;
            Ok(desk)
        }
    }
}

// What the kernel is to know of the code.
fn shape_of(alloc: Global, code: &Code) -> Result<Shape, AllocError>
    ensures sites { IfOk result (λ s. s.sites.items ≡ code.now.sites) }
    ensures known { IfOk result (λ s. AreKnownSites s.sites.items) }
{
    let sites = known_sites(alloc, code.sites())?;
    Ok(Shape { sites })
}

// The workers of so many processors, and the journal that they come to.
fn serve<R: Threads + Wait + Sync, G: Gate + Sync>(
    rt: &R,
    alloc: Global,
    code: &Code,
    gate: &G,
    desk: Desk,
    processors: u32,
) -> Result<Vec<Entry>, AllocError>
    requires code { desk.code ≡ code.now }
    requires paced { IsPaced (laid_of code.now) code.now.routines }
    requires processors { (1 ≤ processors) × (processors ≤ 64) }
    requires log { All (λ e. processors ≤ e.1) desk.log }
    ensures { IfOk result (λ j. EndsAs desk.code desk.main desk.store.input desk.store.opts j.items) }
{
    let desk = Box::new(alloc, desk)?;
    let (lock, seats) = Shared::new(alloc, Locked { desk }, processors)?;
    let table = Table::new(alloc, code);
    let seats = work_all(rt, alloc, &lock, code, &table, gate, seats)?;
    let Locked { desk } = lock.close(seats);
    let journal = Box::into_inner(desk).finish()?;
    Ok(journal)
}
