// The code of a program.

ghost use Rattle.std.specs.Prelude.{◌≡◌, ◌+◌, ◌*◌, ◌^◌, ◌≤◌, ◌<◌, [], length, map, IfErr, IfOk, IsTrue, MatchOption, OnOk};
ghost use Rattle.uc_tree.specs.declared.limits.TheConstants.{OPS_FOR_SIZE};
ghost use Rattle.uc_tree.specs.Cells.{classes_of};
ghost use Rattle.uc_tree.specs.Numbering.{routines_of, sites_of, texts_of};
ghost use Rattle.uc_tree.specs.Objects.{unwritten_of};
ghost use Rattle.uc_tree.specs.ProgramMain.{main_number};
ghost use Rattle.uc_resolve.specs.Resolve.{all_classes, source_of};
ghost use Rattle.uc_tree.specs.Sizes.{program_size};
ghost use Rattle.uc_rules.specs.Breaks.{breaks_of};
ghost use Rattle.uc_code.specs.Layout.{laid_of};
ghost use Rattle.uc_code.specs.Pace.{IsPaced};
ghost use Rattle.uc_code.specs.Lowered.{Lowered};
ghost use Rattle.uc_code.specs.OpenRows.{AreEnded};
ghost use Rattle.uc_numbering.specs.Routines.{defined_at};
ghost use Rattle.uc_implicit.specs.Unwritten.{number_of_class, unwritten_as};
ghost use Rattle.uc_lower_stmt.specs.SourceRows.{source_rows};
ghost use Rattle.uc_lower.specs.Refusals.{Fits, FitsAll, IsFirstLarge, Refuses};
ghost use Rattle.uc_lower.specs.RoutineLayout.{LaysAll};
ghost use Rattle.uc_lower.specs.RowRanges.{HasRows};

use crate::numbering::{cells_of_classes, members_of_classes, numbering_of};
use crate::program_main::number_of_main;
use crate::routines::{lower_all_unwritten, lower_routines, no_code};
use std::alloc::{AllocError, Global};
use uc_checked::checked::Checked;
use uc_checked::copies::{copy_sites, copy_texts};
use uc_code::code::Code;
use uc_code::draft::Draft;
use uc_implicit::numbers::numbers_of_classes;
use uc_implicit::unwritten::{Unwritten, unwritten_of};
use uc_layout::frames::cells_of_routine;
use uc_layout::sizes::Sizes;
use uc_lower_expr::program_names::ProgramNames;
use uc_numbering::routines::{Defined, routines_of};
use uc_size::program::size_of_program;
use uc_tree::limits::{FRAME_CELLS, PROGRAM_SIZE};
use uc_tree::name::Text;
use uc_tree::site::Site;

/// Why a program is not lowered: the frame of this routine, the first such, has too many cells; the program counts too much; or
/// memory is wanting. The greatest number stands for all that are greater.
#[derive(Clone, Copy)]
pub enum LowerFault {
    FrameTooLarge { routine: u32, cells: u64 },
    CodeTooLarge { size: u64 },
    NoMemory,
}

// The first routine with too large a frame.
fn large_frame(sizes: &Sizes, defined: &[Defined], count: u32) -> Option<LowerFault>
    requires defined { map defined_at defined.now ≡ routines_of sizes.now }
    requires count { count ≡ length defined.now }
    ensures { MatchOption result (FitsAll sizes.now) (λ fault. Refuses sizes.now fault) }
{
    for number in 0..count {
        let cells = cells_of_routine(sizes, defined[number as usize].routine);
        if cells > FRAME_CELLS {
            return Some(LowerFault::FrameTooLarge {
                routine: number,
                cells,
            });
        }
    }
    None
}

// Lays out all routines, the written ones and then those that nobody wrote, in a draft without ops.
fn lower_each(
    alloc: Global,
    names: &ProgramNames,
    defined: &[Defined],
    main: u32,
    count: u32,
    unwritten: &[Unwritten],
    out: &mut Draft,
) -> Result<(), AllocError>
    requires unbroken { breaks_of names.now ≡ [] }
    requires fits { Fits names.now }
    requires defined { map defined_at defined.now ≡ routines_of names.now }
    requires main { main ≡ main_number names.now }
    requires count { count ≡ length defined.now }
    requires unwritten { map unwritten_as unwritten.now ≡ unwritten_of names.now }
    requires few { count + length unwritten.now < 2 ^ 32 }
    requires table { length out.old.routines ≡ count + length unwritten.now }
    requires ops { out.old.ops ≡ [] }
    requires rows { out.old.rows ≡ [] }
    requires outside { out.old.marks ≡ [] }
    ensures { OnOk result (LaysAll names.now (routines_of names.now) (unwritten_of names.now)
        (count + length unwritten.now) (length unwritten.now) out.new) }
{
    lower_routines(alloc, names, defined, main, count, out)?;
    lower_all_unwritten(alloc, names, unwritten, count, out)
}

// What stands beside the ops of a program's code: its accept statements, its text literals and the cells of its classes.
#[derive(Drop)]
struct Beside {
    sites: Vec<Site>,
    texts: Vec<Text>,
    classes: Vec<u32>,
}

fn beside_code(alloc: Global, checked: &Checked, names: &ProgramNames) -> Result<Beside, AllocError>
    requires { names.now ≡ checked.now }
    ensures sites { IfOk result (λ b. b.sites.items ≡ sites_of checked.now) }
    ensures texts { IfOk result (λ b. b.texts.items ≡ texts_of checked.now) }
    ensures classes { IfOk result (λ b. b.classes.items
        ≡ map (λ c. c.cells) (all_classes checked.now)) }
{
    let sites = copy_sites(alloc, checked.sites())?;
    let texts = copy_texts(alloc, checked.texts())?;
    let classes = cells_of_classes(alloc, checked.program(), names)?;
    Ok(Beside {
        sites,
        texts,
        classes,
    })
}

// The code of a program with these names, of which all routines are laid out.
fn finished(
    alloc: Global,
    checked: &Checked,
    names: &ProgramNames,
    out: Draft,
) -> Result<Code, AllocError>
    requires { names.now ≡ checked.now }
    ensures code { IfOk result (λ code. code ≡ record {
      ops = out.ops;
      rows = out.rows;
      sites = sites_of checked.now;
      texts = texts_of checked.now;
      routines = out.routines;
      classes = map (λ c. c.cells) (all_classes checked.now);
    }) }
    ensures ended { IfOk result (λ code. out.marks ≡ [] → AreEnded (length out.ops) out.rows) }
{
    match beside_code(alloc, checked, names) {
        Ok(beside) => {
            let mut code = out.finish(beside.sites, beside.texts, beside.classes);
            match code.tabulate(alloc) {
                Ok(()) => Ok(code),
                Err(fault) => {
                    drop(code);
                    Err(fault)
                }
            }
        }
        Err(fault) => {
            drop(out);
            Err(fault)
        }
    }
}

// The code of a program that fits, with these names, and the routines that nobody wrote.
fn lower_named(
    alloc: Global,
    checked: &Checked,
    names: &ProgramNames,
    defined: &[Defined],
    count: u32,
    unwritten: &[Unwritten],
) -> Result<Code, AllocError>
    requires unbroken { breaks_of checked.now ≡ [] }
    requires fits { Fits checked.now }
    requires names { names.now ≡ checked.now }
    requires defined { map defined_at defined.now ≡ routines_of checked.now }
    requires count { count ≡ length defined.now }
    requires unwritten { map unwritten_as unwritten.now ≡ unwritten_of checked.now }
    requires few { count + length unwritten.now < 2 ^ 32 }
    ensures lowered { IfOk result (λ code. Lowered (source_of checked.now) code) }
    ensures paced { IfOk result (λ code. IsPaced (laid_of code) code.routines) }
    ensures few { IfOk result (λ code. length code.ops ≤ OPS_FOR_SIZE * program_size checked.now) }
    ensures count { IfOk result (λ code. length code.rows ≡ source_rows (source_of checked.now)) }
    ensures rows { IfOk result (λ code. HasRows code) }
{
    let program = checked.program();
    let main = match number_of_main(&program.items) {
        Some(main) => main,
        None => return Err(AllocError),
    };
    let rows = no_code(alloc, defined.len() + unwritten.len())?;
    let mut out = Draft::new(alloc, rows);
    match lower_each(alloc, names, defined, main, count, unwritten, &mut out) {
        Ok(()) => {
            let code = finished(alloc, checked, names, out)?;
            Ok(code)
        }
        Err(fault) => {
            drop(out);
            Err(fault)
        }
    }
}

// The code of a program that fits, of whose classes these are the numbers, and these the routines that nobody wrote.
fn lower_all(
    alloc: Global,
    checked: &Checked,
    defined: &[Defined],
    count: u32,
    unwritten: &[Unwritten],
    numbers: Vec<u32>,
) -> Result<Code, AllocError>
    requires unbroken { breaks_of checked.now ≡ [] }
    requires fits { Fits checked.now }
    requires defined { map defined_at defined.now ≡ routines_of checked.now }
    requires count { count ≡ length defined.now }
    requires unwritten { map unwritten_as unwritten.now ≡ unwritten_of checked.now }
    requires few { count + length unwritten.now < 2 ^ 32 }
    requires numbers { numbers.items
        ≡ map (number_of_class checked.now) (classes_of checked.now.items) }
    ensures lowered { IfOk result (λ code. Lowered (source_of checked.now) code) }
    ensures paced { IfOk result (λ code. IsPaced (laid_of code) code.routines) }
    ensures few { IfOk result (λ code. length code.ops ≤ OPS_FOR_SIZE * program_size checked.now) }
    ensures count { IfOk result (λ code. length code.rows ≡ source_rows (source_of checked.now)) }
    ensures rows { IfOk result (λ code. HasRows code) }
{
    let members = members_of_classes(alloc, checked, numbers.len())?;
    let numbering = numbering_of(alloc, defined, count, unwritten, numbers, members)?;
    let names = ProgramNames::new(alloc, checked.sizes(), numbering)?;
    let code = lower_named(alloc, checked, &names, defined, count, unwritten);
    drop(names);
    code
}

// Whether all routines have numbers.
fn are_few(count: u32, unwritten: usize) -> bool
    ensures { IsTrue result → count + unwritten < 2 ^ 32 }
{
    match u32::try_from(unwritten) {
        Ok(more) => count.checked_add(more).is_some(),
        Err(_) => false,
    }
}

// The code of a program that fits.
fn lower_fit(
    alloc: Global,
    checked: &Checked,
    defined: &[Defined],
    count: u32,
) -> Result<Code, AllocError>
    requires unbroken { breaks_of checked.now ≡ [] }
    requires fits { Fits checked.now }
    requires defined { map defined_at defined.now ≡ routines_of checked.now }
    requires count { count ≡ length defined.now }
    ensures lowered { IfOk result (λ code. Lowered (source_of checked.now) code) }
    ensures paced { IfOk result (λ code. IsPaced (laid_of code) code.routines) }
    ensures few { IfOk result (λ code. length code.ops ≤ OPS_FOR_SIZE * program_size checked.now) }
    ensures count { IfOk result (λ code. length code.rows ≡ source_rows (source_of checked.now)) }
    ensures rows { IfOk result (λ code. HasRows code) }
{
    let numbers = numbers_of_classes(alloc, checked.program())?;
    let unwritten = unwritten_of(alloc, checked.sizes(), defined, &numbers)?;
    if !are_few(count, unwritten.len()) {
        return Err(AllocError);
    }
    let code = lower_all(alloc, checked, defined, count, &unwritten, numbers);
    code
}

fn lower_defined(
    alloc: Global,
    checked: &Checked,
    defined: &[Defined],
    count: u32,
) -> Result<Code, LowerFault>
    requires unbroken { breaks_of checked.now ≡ [] }
    requires defined { map defined_at defined.now ≡ routines_of checked.now }
    requires count { count ≡ length defined.now }
    ensures lowered { IfOk result (λ code. Lowered (source_of checked.now) code) }
    ensures paced { IfOk result (λ code. IsPaced (laid_of code) code.routines) }
    ensures few { IfOk result (λ code. length code.ops ≤ OPS_FOR_SIZE * program_size checked.now) }
    ensures count { IfOk result (λ code. length code.rows ≡ source_rows (source_of checked.now)) }
    ensures rows { IfOk result (λ code. HasRows code) }
    ensures fits { IfOk result (λ code. Fits checked.now) }
    ensures refused { IfErr result (λ fault. Refuses checked.now fault) }
{
    if let Some(fault) = large_frame(checked.sizes(), defined, count) {
        return Err(fault);
    }
    let size = size_of_program(checked.program());
    if size > PROGRAM_SIZE {
        return Err(LowerFault::CodeTooLarge { size });
    }
    match lower_fit(alloc, checked, defined, count) {
        Ok(code) => Ok(code),
        Err(_) => Err(LowerFault::NoMemory),
    }
}

/// The code of a program that breaks no rule. Its frames are tested first, then its size. The code has at most `OPS_FOR_SIZE` ops for
/// each unit of the program's size, as many rows as the source tree says, and no more of them than ops; each row lies among them.
pub fn lower(alloc: Global, checked: &Checked) -> Result<Code, LowerFault>
    ensures lowered { IfOk result (λ code. Lowered (source_of checked.now) code) }
    ensures paced { IfOk result (λ code. IsPaced (laid_of code) code.routines) }
    ensures few { IfOk result (λ code. length code.ops ≤ OPS_FOR_SIZE * program_size checked.now) }
    ensures count { IfOk result (λ code. length code.rows ≡ source_rows (source_of checked.now)) }
    ensures rows { IfOk result (λ code. HasRows code) }
    ensures fits { IfOk result (λ code. Fits checked.now) }
    ensures refused { IfErr result (λ fault. Refuses checked.now fault) }
{
    match routines_of(alloc, checked.program()) {
        Ok(defined) => match u32::try_from(defined.len()) {
            Ok(count) => lower_defined(alloc, checked, &defined, count),
            Err(_) => Err(LowerFault::NoMemory),
        },
        Err(_) => Err(LowerFault::NoMemory),
    }
}
