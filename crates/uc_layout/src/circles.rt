// Which classes have themselves in their fields.

ghost use Rattle.std.specs.Prelude.{◌≡◌, ◌<◌, IfOk, IsTrue, IsFalse, length, true};
ghost use Rattle.std.specs.List.{list_any};
ghost use Rattle.uc_tree.specs.Rows.{leads};
ghost use Rattle.uc_layout.specs.ContainmentProgress.{flag_at, flagged, row_leads, AreCircles, IsCircle, Led, Reaching, Told};
ghost use Rattle.uc_layout.specs.SettledClasses.{Settled};

use crate::settle::Settlement;
use std::alloc::{AllocError, Global};
use uc_tree::rows::{ClassLayout, FieldLayout};

// Whether a field is an object of the class `to`, or of a class with a flag.
fn leads(flags: &[bool], to: usize, held: &FieldLayout) -> bool
    ensures { result ≡ leads (flag_at flags.now) to held.now }
{
    match held.object {
        Some(object) => {
            object.class == to || (object.class < flags.len() && flags[object.class])
        }
        None => false,
    }
}

fn any_leads(flags: &[bool], to: usize, held: &[FieldLayout]) -> bool
    ensures { result ≡ list_any (leads (flag_at flags.now) to) held.now }
{
    held.iter().any(|h| leads(flags, to, h))
}

// Sets the flag of one class where it leads to `to` and has none; says whether it did.
fn mark(rows: &[ClassLayout], flags: &mut [bool], to: usize, place: usize) -> bool
    requires inside { place < length rows.now }
    requires full { length flags.old ≡ length rows.now }
    requires led { Led rows.now to flags.old }
    ensures led { Led rows.now to flags.new }
    ensures more { IsTrue result → flagged flags.old < flagged flags.new }
    ensures same { IsFalse result → flags.new ≡ flags.old }
    ensures told { IsFalse result → row_leads rows.now flags.old to place ≡ true →
        flag_at flags.old place ≡ true }
{
    if flags[place] {
        return false;
    }
    let row = &rows[place];
    if any_leads(flags, to, &row.held) {
        flags[place] = true;
        return true;
    }
    false
}

// Goes over all classes once; says whether a flag was set.
fn mark_all(rows: &[ClassLayout], flags: &mut [bool], to: usize) -> bool
    requires full { length flags.old ≡ length rows.now }
    requires led { Led rows.now to flags.old }
    ensures led { Led rows.now to flags.new }
    ensures more { IsTrue result → flagged flags.old < flagged flags.new }
    ensures told { IsFalse result → Told rows.now to flags.new (length rows.now) }
{
    let mut changed = false;
    for place in 0..rows.len() {
        if mark(rows, flags, to, place) {
            changed = true;
        }
    }
    changed
}

/// For each class the classes that have a field of it.
pub fn holders_of(alloc: Global, rows: &[ClassLayout]) -> Result<Vec<Vec<usize>>, AllocError> {
    let mut holders = Vec::new(alloc);
    for _row in rows {
        holders.push(Vec::new(alloc))?;
    }
    for (place, row) in rows.iter().enumerate() {
        for held in &row.held {
            if let Some(object) = held.object {
                if let Some(list) = holders.get_mut(object.class) {
                    list.push(place)?;
                }
            }
        }
    }
    Ok(holders)
}

// Marks these classes where they lead to `to`, and adds those that it marked to the work.
fn mark_holders(
    rows: &[ClassLayout],
    flags: &mut [bool],
    to: usize,
    holders: &[usize],
    work: &mut Vec<usize>,
) -> Result<(), AllocError>
    requires full { length flags.old ≡ length rows.now }
    requires led { Led rows.now to flags.old }
    ensures led { Led rows.now to flags.new }
{
    for holder in holders {
        if *holder < rows.len() && mark(rows, flags, to, *holder) {
            work.push(*holder)?;
        }
    }
    Ok(())
}

// Marks what leads to `to`, from each class to its holders. It saves sweeps: what it leaves, they find.
fn spread(
    alloc: Global,
    rows: &[ClassLayout],
    holders: &[Vec<usize>],
    flags: &mut [bool],
    to: usize,
) -> Result<(), AllocError>
    requires full { length flags.old ≡ length rows.now }
    requires led { Led rows.now to flags.old }
    ensures led { Led rows.now to flags.new }
{
    let mut work = Vec::new(alloc);
    work.push(to)?;
    for _step in 0..rows.len() {
        let class = match work.pop() {
            Some(class) => class,
            None => return Ok(()),
        };
        if let Some(list) = holders.get(class) {
            mark_holders(rows, flags, to, list, &mut work)?;
        }
    }
    Ok(())
}

fn first_flags(
    alloc: Global,
    rows: &[ClassLayout],
    holders: &[Vec<usize>],
    to: usize,
) -> Result<Vec<bool>, AllocError>
    ensures full { IfOk result (λ v. length v.items ≡ length rows.now) }
    ensures led { IfOk result (λ v. Led rows.now to v.items) }
{
    let mut flags = vec![in alloc; false; rows.len()]?;
    spread(alloc, rows, holders, &mut flags, to)?;
    Ok(flags)
}

// The flags of the classes that have this one in their fields.
fn flags_to(
    alloc: Global,
    rows: &[ClassLayout],
    holders: &[Vec<usize>],
    class: usize,
) -> Result<Vec<bool>, AllocError>
    ensures full { IfOk result (λ v. length v.items ≡ length rows.now) }
    ensures led { IfOk result (λ v. Led rows.now class v.items) }
    ensures told { IfOk result (λ v. Told rows.now class v.items (length rows.now)) }
{
    let mut flags = first_flags(alloc, rows, holders, class)?;
    'sweeps: loop {
        if !mark_all(rows, &mut flags, class) {
            break;
        }
    }
    Ok(flags)
}

fn has_itself(
    alloc: Global,
    rows: &[ClassLayout],
    holders: &[Vec<usize>],
    class: usize,
) -> Result<bool, AllocError>
    requires { class < length rows.now }
    ensures { IfOk result (λ b. IsCircle rows.now class b) }
{
    let flags = flags_to(alloc, rows, holders, class)?;
    let found = flags[class];
    Ok(found)
}

fn circle_of(
    alloc: Global,
    rows: &[ClassLayout],
    holders: &[Vec<usize>],
    settled: &Settlement,
    class: usize,
) -> Result<bool, AllocError>
    requires inside { class < length rows.now }
    requires settled { Settled rows.now settled.now.flags.items settled.now.cells.items }
    ensures { IfOk result (λ b. IsCircle rows.now class b) }
{
    if flag_at(&settled.flags, class) {
        return Ok(false);
    }
    has_itself(alloc, rows, holders, class)
}

/// For each class whether it has itself in its fields, directly or through others.
pub fn circles_of(
    alloc: Global,
    rows: &[ClassLayout],
    holders: &[Vec<usize>],
    settled: &Settlement,
) -> Result<Vec<bool>, AllocError>
    requires settled { Settled rows.now settled.now.flags.items settled.now.cells.items }
    ensures full { IfOk result (λ v. length v.items ≡ length rows.now) }
    ensures flags { IfOk result (λ v. AreCircles rows.now v.items (length rows.now)) }
{
    let mut circles = Vec::new(alloc);
    for class in 0..rows.len() {
        circles.push(circle_of(alloc, rows, holders, settled, class)?)?;
    }
    Ok(circles)
}

/// The flag at a place; false beyond the last.
pub fn flag_at(flags: &[bool], place: usize) -> bool
    ensures { result ≡ flag_at flags.now place }
{
    place < flags.len() && flags[place]
}

/// Which classes have this one in their fields, directly or through others.
pub fn reaching(alloc: Global, rows: &[ClassLayout], class: usize) -> Result<Vec<bool>, AllocError>
    ensures { IfOk result (λ v. Reaching rows.now class v.items) }
{
    let holders = holders_of(alloc, rows)?;
    let flags = flags_to(alloc, rows, &holders, class)?;
    Ok(flags)
}
