// The routines of classes, by the numbers of the classes.

ghost use Rattle.std.specs.Prelude.{◌≡◌, ℕ, List, [], Some, None, IfOk, OnOk, MatchOption, length, map, slice_get, unwrap_or};
ghost use Rattle.uc_tree.specs.Cells.{classes_of};
ghost use Rattle.uc_tree.specs.Numbering.{Defined, main_name};
ghost use Rattle.uc_tree.specs.Programs.{Program};
ghost use Rattle.uc_lower_expr.specs.declared.routine_table.RoutineTable.{RoutineTable as Table};
ghost use Rattle.uc_tree.specs.Objects.{class_at, member_from};
ghost use Rattle.uc_lower_expr.specs.Known.{HasRoutines};
ghost use Rattle.uc_lower_expr.specs.Members.{AreByNumber, AreRoutines};
ghost use Rattle.uc_lower_expr.specs.Numbered.{number_of_class};
ghost use Rattle.uc_lower_expr.specs.RoutineTables.{NoteOne, Routes};

use std::alloc::{AllocError, Global};
use uc_layout::places::no_places;
use uc_names::scope::Scope;
use uc_tree::class::Routine;
use uc_tree::kinds::Role;
use uc_tree::name::Name;

/// The routines of a class: the numbers of its members by name, and those of its constructor and destructor, where they are written.
/// Of two the first counts.
#[derive(Drop)]
pub struct RoutineTable {
    pub members: Scope,
    pub built_by: Option<u32>,
    pub destroyed_by: Option<u32>,
}

fn no_routines(alloc: Global) -> Result<RoutineTable, AllocError>
    ensures { IfOk result (λ table. (number : ℕ) → AreRoutines [] number table) }
{
    let members = no_places(alloc)?;
    Ok(RoutineTable {
        members,
        built_by: None,
        destroyed_by: None,
    })
}

// The first of two numbers.
fn first_of(known: Option<u32>, number: u32) -> Option<u32>
    ensures { result ≡ Some (unwrap_or known number) }
{
    Some(known.unwrap_or(number))
}

// One more routine of a class, with its number among all.
fn note_routine(table: &mut RoutineTable, routine: &Routine, number: u32) -> Result<(), AllocError>
    requires { length table.old.members ≡ 1 }
    ensures { OnOk result (Routes routine.now number table.old table.new) }
{
    match routine.sig.role {
        Role::Plain => {
            table.members.declare(routine.sig.name.bytes(), number)?;
            Ok(())
        }
        Role::Constructor => {
            table.built_by = first_of(table.built_by, number);
            Ok(())
        }
        Role::Destructor => {
            table.destroyed_by = first_of(table.destroyed_by, number);
            Ok(())
        }
    }
}

// So many tables without routines.
fn empty_tables(alloc: Global, count: usize) -> Result<Vec<RoutineTable>, AllocError>
    ensures long { IfOk result (λ v. length v.items ≡ count) }
    ensures each { IfOk result (λ v. (number : ℕ) (t : Table) → slice_get v.items number ≡ Some t →
        AreRoutines [] number t) }
{
    let mut tables = Vec::new(alloc);
    for _number in 0..count {
        tables.push(no_routines(alloc)?)?;
    }
    Ok(tables)
}

/// The routines of each class, by the numbers of the classes, of which there are so many with 0. `owners` are the numbers of the
/// classes of these routines. Memory is wanting where a number is not below 2^32.
pub fn tables_of(
    alloc: Global,
    count: usize,
    routines: &[&Routine],
    owners: &[u32],
) -> Result<Vec<RoutineTable>, AllocError>
    requires { length owners.now ≡ length routines.now }
    ensures long { IfOk result (λ v. length v.items ≡ count) }
    ensures each { IfOk result (λ v. (ds : List Defined) (number : ℕ) (t : Table) →
        map (λ d. d.routine) ds ≡ map (λ r. r.now) routines.now →
        map (λ d. d.number) ds ≡ owners.now → slice_get v.items number ≡ Some t →
        AreRoutines ds number t) }
{
    let mut tables = empty_tables(alloc, count)?;
    for place in 0..routines.len() {
        match u32::try_from(place) {
            Ok(number) => note_at(&mut tables, owners[place], routines[place], number)?,
            Err(_) => return Err(AllocError),
        }
    }
    Ok(tables)
}

// One more routine of the class of a number.
fn note_at(
    tables: &mut Vec<RoutineTable>,
    owner: u32,
    routine: &Routine,
    number: u32,
) -> Result<(), AllocError>
    requires { (k : ℕ) (t : Table) → slice_get tables.old.items k ≡ Some t → length t.members ≡ 1 }
    ensures { OnOk result (NoteOne owner routine.now number tables.old.items tables.new.items) }
{
    match tables.get_mut(owner as usize) {
        Some(table) => {
            note_routine(table, routine, number)?;
            Ok(())
        }
        None => Ok(()),
    }
}

/// The number of the member of a name, by the table of its class.
pub fn member_in(table: &RoutineTable, name: &Name) -> Option<u32>
    ensures { (ds : List Defined) (number : ℕ) → AreRoutines ds number table.now →
        result ≡ member_from ds 0 number name.now }
{
    let number = table.members.find(name.bytes());
    number
}

/// The number of the member that is called `main`, by the table of its class; 0 where there is none.
pub fn main_number_in(table: &RoutineTable) -> u32
    ensures { (ds : List Defined) (number : ℕ) → AreRoutines ds number table.now →
        result ≡ unwrap_or (member_from ds 0 number main_name) 0 }
{
    let number = table.members.find(b"main");
    number.unwrap_or(0)
}

fn table_at(tables: &[RoutineTable], number: u32) -> Option<&RoutineTable>
    ensures { MatchOption result (slice_get tables.now number
        ≡ None) (λ t. slice_get tables.now number ≡ Some t.now) }
{
    tables.get(number as usize)
}

/// The routines of the class with this place, by the numbers of classes and the tables by these numbers.
pub fn table_of<'a>(
    tables: &'a [RoutineTable],
    numbers: &[u32],
    class: usize,
) -> Option<&'a RoutineTable>
    ensures { (p : Program) → numbers.now ≡ map (number_of_class p) (classes_of p.items) →
        AreByNumber p tables.now →
        MatchOption result (class_at p class ≡ None) (λ t. HasRoutines p class t.now) }
{
    match numbers.get(class) {
        Some(number) => table_at(tables, *number),
        None => None,
    }
}
