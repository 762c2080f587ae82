// The fields of classes, by their names.

ghost use Rattle.std.specs.Prelude.{◌≡◌, ◌||◌, ◌∷◌, [], ℕ, None, Some, IfOk, OnOk, MatchOption, get_or, slice_get};
ghost use Rattle.uc_tree.specs.Objects.{class_at, declared_fields, fields_of, form_fields};
ghost use Rattle.uc_tree.specs.Programs.{Class as Whole, Program};
ghost use Rattle.uc_tree.specs.ProgramViews.{member_form_at};
ghost use Rattle.uc_tree.specs.Source.{Expr};
ghost use Rattle.uc_resolve.specs.Resolve.{scalar, value_meant};
ghost use Rattle.uc_lower_expr.specs.Meanings.{Tells};
ghost use Rattle.uc_lower_expr.specs.Members.{AreFields, AreTables, FitClasses, IsField, IsNthField, count_fields, no_field, no_field_at};
ghost use Rattle.uc_lower_expr.specs.FieldTables.{HasNames, Notes, condition_by, conditions_by, is_number, length_by, number_by, one_scalar};

use crate::making::{Made, made_by};
use crate::meaning::{ExprMeaning, Scalar, Standing};
use std::alloc::{AllocError, Global};
use uc_layout::held::leading_cells;
use uc_layout::places::{no_places, note_place, place_in};
use uc_layout::sizes::Sizes;
use uc_names::scope::Scope;
use uc_tree::class::{Class, Member, MemberForm};
use uc_tree::declare::Declarator;
use uc_tree::kinds::Base;
use uc_tree::limits::LAST_CONDITION;
use uc_tree::name::Name;
use uc_tree::rows::FieldLayout;

/// A field of a class: the cells before it in an object, whether it is a reference, whether its cell holds the number of what it is, as
/// that of a mutex object does, the number of a condition, or of the first of its array, what a declaration of its base makes, and what
/// is told of it as it is held.
#[derive(Clone, Copy)]
pub struct Field {
    pub cell: u32,
    pub by_ref: bool,
    pub number: bool,
    pub condition: Option<u32>,
    pub made: Option<Made>,
    pub told: ExprMeaning,
}

impl Field {
    // Whether its cell holds a number or a place.
    pub(crate) fn is_held(self) -> bool
        ensures { result ≡ (self.number || self.by_ref) }
    {
        self.number || self.by_ref
    }
}

/// The fields of a class in order, with their places among them by name, the cells that they take with those before them, and how
/// many conditions they are. The greatest number stands for all that are greater.
#[derive(Drop)]
pub struct FieldTable {
    pub names: Scope,
    pub fields: Vec<Field>,
    pub cells: u64,
    pub conditions: u64,
}

/// What is told of a value of this base.
pub fn value_of_base(sizes: &Sizes, base: &Base) -> ExprMeaning
    ensures tells { (e : Expr) → Tells sizes.now result (value_meant e (scalar base.now)) }
    ensures len { result.elements ≡ None }
{
    ExprMeaning {
        scalar: Scalar::of_base(base),
        class: sizes.class_made(base),
        numbered: sizes.is_numbered(base),
        event: sizes.event_place(base),
        elements: None,
        standing: Standing::Value,
    }
}

// What the field with this place among those of its class holds; beyond the last one scalar.
fn held_at(held: &[FieldLayout], place: usize) -> FieldLayout
    ensures { result ≡ get_or held.now place one_scalar }
{
    match held.get(place) {
        Some(held) => *held,
        None => FieldLayout {
            count: 1,
            object: None,
        },
    }
}

// The length of an array, of which so many elements are declared.
fn length_of(declarator: &Declarator, count: u32) -> Option<u32>
    ensures { result ≡ length_by declarator.now.len count }
{
    match &declarator.len {
        Some(_) => Some(count),
        None => None,
    }
}

// Whether a field is known by its number, where what its base names is: an array is not.
fn is_number(declarator: &Declarator, numbered: bool) -> bool
    ensures { result ≡ is_number declarator.now.len numbered }
{
    match &declarator.len {
        Some(_) => false,
        None => numbered,
    }
}

// The number of the condition behind so many; one beyond the last number counts as 0.
fn number_behind(conditions: u64) -> u32
    ensures { result ≡ number_by conditions }
{
    if conditions <= u64::from(LAST_CONDITION) {
        conditions as u32
    } else {
        0
    }
}

// The number of a field that is a condition, behind so many.
fn condition_of(base: &Base, conditions: u64) -> Option<u32>
    ensures { result ≡ condition_by base.now conditions }
{
    match base {
        Base::Condition => Some(number_behind(conditions)),
        Base::Void => None,
        Base::Int => None,
        Base::Char => None,
        Base::Bool => None,
        Base::Cluster => None,
        Base::Processor => None,
        Base::Named(_) => None,
    }
}

// How many conditions so many elements of a base are.
fn conditions_in(base: &Base, elements: u32) -> u32
    ensures { result ≡ conditions_by base.now elements }
{
    match base {
        Base::Condition => elements,
        Base::Void => 0,
        Base::Int => 0,
        Base::Char => 0,
        Base::Bool => 0,
        Base::Cluster => 0,
        Base::Processor => 0,
        Base::Named(_) => 0,
    }
}

// One more field. Memory is wanting where the cells before it are not below 2^32.
fn note_field(
    table: &mut FieldTable,
    sizes: &Sizes,
    held: &[FieldLayout],
    base: &Base,
    declarator: &Declarator,
) -> Result<(), AllocError>
    requires { HasNames table.old }
    ensures { OnOk result (Notes sizes.now held.now
        (record { base = base.now; declarator = declarator.now } ∷ []) table.old table.new) }
{
    let place = table.fields.len();
    let what = held_at(held, place);
    match u32::try_from(table.cells) {
        Ok(cell) => {
            let value = value_of_base(sizes, base);
            let number = is_number(declarator, value.numbered);
            note_place(&mut table.names, &declarator.name, place)?;
            table.fields.push(Field {
                cell,
                by_ref: declarator.by_ref,
                number,
                condition: condition_of(base, table.conditions),
                made: made_by(sizes, base),
                told: ExprMeaning {
                    elements: length_of(declarator, what.count),
                    standing: Standing::held_as(number),
                    ..value
                },
            })?;
            table.cells = table.cells.saturating_add(sizes.cells_of_held(&what));
            table.conditions = table
                .conditions
                .saturating_add(u64::from(conditions_in(base, what.count)));
            Ok(())
        }
        Err(_) => Err(AllocError),
    }
}

fn note_declarators(
    table: &mut FieldTable,
    sizes: &Sizes,
    held: &[FieldLayout],
    base: &Base,
    declarators: &[Declarator],
) -> Result<(), AllocError>
    requires { HasNames table.old }
    ensures { OnOk result (Notes sizes.now held.now
        (declared_fields base.now declarators.now) table.old table.new) }
{
    for declarator in declarators {
        note_field(table, sizes, held, base, declarator)?;
    }
    Ok(())
}

fn note_member(
    table: &mut FieldTable,
    sizes: &Sizes,
    held: &[FieldLayout],
    form: &MemberForm,
) -> Result<(), AllocError>
    requires { HasNames table.old }
    ensures { OnOk result (Notes sizes.now held.now
        (form_fields (member_form_at form.now)) table.old table.new) }
{
    match form {
        MemberForm::Fields {
            base,
            declarators,
            ..
        } => {
            note_declarators(table, sizes, held, base, declarators)?;
            Ok(())
        }
        MemberForm::Routine { .. } => Ok(()),
        MemberForm::Proto { .. } => Ok(()),
    }
}

fn note_members(
    table: &mut FieldTable,
    sizes: &Sizes,
    held: &[FieldLayout],
    members: &[Member],
) -> Result<(), AllocError>
    requires { HasNames table.old }
    ensures { OnOk result (Notes sizes.now held.now (fields_of members.now) table.old table.new) }
{
    for member in members {
        note_member(table, sizes, held, &member.form)?;
    }
    Ok(())
}

/// The fields of the class with this place among those of the program.
pub fn fields_of(
    alloc: Global,
    sizes: &Sizes,
    place: usize,
    class: &Class,
) -> Result<FieldTable, AllocError>
    requires there { class_at sizes.now place ≡ Some class.now }
    requires fit { FitClasses sizes.now }
    ensures { IfOk result (λ table. AreFields sizes.now place class.now table) }
{
    let mut table = FieldTable {
        names: no_places(alloc)?,
        fields: Vec::new(alloc),
        cells: u64::from(leading_cells(class.kind)),
        conditions: 0,
    };
    note_members(
        &mut table,
        sizes,
        sizes.held_by_class(place),
        &class.members,
    )?;
    Ok(table)
}

fn field_at(fields: &[Field], place: usize) -> Option<Field>
    ensures { result ≡ slice_get fields.now place }
{
    fields.get(place).copied()
}

// The field of a name, by the table of its class.
fn field_in(table: &FieldTable, name: &Name) -> Option<Field>
    ensures { (p : Program) (i : ℕ) (c : Whole) → class_at p i ≡ Some c →
        AreFields p i c table.now →
        MatchOption result (no_field p i name.now (Some c)) (λ v. IsField p i name.now v) }
{
    match place_in(&table.names, name) {
        Some(place) => field_at(&table.fields, place),
        None => None,
    }
}

/// The field of a name in the class with this place, by the tables of all classes.
pub fn field_of(tables: &[FieldTable], class: usize, name: &Name) -> Option<Field>
    ensures { (p : Program) → AreTables p tables.now →
        MatchOption result (no_field p class name.now (class_at p class))
        (λ v. IsField p class name.now v) }
{
    match tables.get(class) {
        Some(table) => field_in(table, name),
        None => None,
    }
}

/// The field with this place in the class with this place.
pub fn nth_field(tables: &[FieldTable], class: usize, place: usize) -> Option<Field>
    ensures { (p : Program) → AreTables p tables.now →
        MatchOption result (no_field_at place (class_at p class))
        (λ v. IsNthField p class place v) }
{
    match tables.get(class) {
        Some(table) => field_at(&table.fields, place),
        None => None,
    }
}

/// How many fields the class with this place has.
pub fn count_of(tables: &[FieldTable], class: usize) -> usize
    ensures { (p : Program) → AreTables p tables.now → result ≡ count_fields (class_at p class) }
{
    match tables.get(class) {
        Some(table) => table.fields.len(),
        None => 0,
    }
}
