// The cells of a program's classes and routines.

ghost use Rattle.std.specs.Prelude.{◌≡◌, ℕ, IfOk, false, length, map, option_map, slice_get};
ghost use Rattle.uc_tree.specs.Capped.{capped};
ghost use Rattle.uc_tree.specs.Cells.{class_cells, classes_of, declared_cells, held_by, object_of, param_cells, rows_of, seen_in};
ghost use Rattle.uc_tree.specs.Objects.{class_at, plain_class, plain_in, making, making_by, class_made, is_numbered, event_from, event_place};
ghost use Rattle.uc_tree.specs.Rows.{element_cells, has_itself, held_cells, reaches, row_at};
ghost use Rattle.uc_layout.specs.CellTables.{Counted};
ghost use Rattle.uc_layout.specs.ContainmentProgress.{AreCircles, IsCircle, Reaching};
ghost use Rattle.uc_layout.specs.Known.{known_by};
ghost use Rattle.uc_layout.specs.Places.{IsPlaces};
ghost use Rattle.uc_layout.specs.FieldContents.{rows_by};
ghost use Rattle.uc_tree.specs.Constants.{constant_named, constants_of, elements, value_of_name};

use crate::cells::{cells_of, element_cells};
use crate::circles::{circles_of, flag_at, holders_of, reaching};
use crate::held::{elements_of, event_named, event_of, held_by, object_of, rows_of};
use crate::known::HiddenByList;
use crate::lists::{classes_in, constants_in};
use crate::named::NameValues;
use crate::places::{Classes, ConstantValues, place_in, places_of_classes, places_of_constants};
use crate::settle::settle_classes;
use crate::tables::values_of;
use std::alloc::{AllocError, Global};
use std::marker::Model;
use uc_names::scope::Scope;
use uc_tree::class::Class;
use uc_tree::declare::Declarator;
use uc_tree::kinds::{Base, Param};
use uc_tree::name::Name;
use uc_tree::program::{Constant, Program};
use uc_tree::rows::{ClassLayout, FieldClass, FieldLayout};

/// A program of which the values of constants, the classes that have themselves in their fields, and the cells of classes are
/// known. Contracts see the program.
#[derive(Drop)]
pub struct Sizes<'a> {
    program: &'a Program,
    classes: Vec<&'a Class>,
    class_places: Scope,
    constants: Vec<&'a Constant>,
    constant_places: Scope,
    values: Vec<Option<i64>>,
    rows: Vec<ClassLayout>,
    circles: Vec<bool>,
    cells: Vec<u64>,
}

impl<'a> Model for Sizes<'a> {
    ghost use Rattle.std.specs.Prelude.{map};
    ghost use Rattle.uc_tree.specs.Programs.{Program};
    ghost use Rattle.uc_tree.specs.ProgramCodes.{program_coded};
    ghost use Rattle.uc_layout.specs.Places.{IsPlaces};
    ghost use Rattle.uc_layout.specs.Sized.{IsSized};

    ghost Value = { Program };

    ghost coded = { program_coded };

    ghost view = { λ a. a.program.now };

    ghost invariant = { λ a. IsSized a.program.now (map (λ c. c.now) a.classes.items) (map (λ c. c.now) a.constants.items) a.values.items a.rows.items a.circles.items a.cells.items × IsPlaces (map (λ c. c.now.name) a.classes.items) a.class_places × IsPlaces (map (λ c. c.now.name) a.constants.items) a.constant_places };
}

// What each of these classes holds.
fn rows_in<'x, 'y>(
    alloc: Global,
    classes: &'x [&'x Class],
    class_places: &'x Scope,
    constants: &'y [&'y Constant],
    constant_places: &'y Scope,
    values: &'y [Option<i64>],
) -> Result<Vec<ClassLayout>, AllocError>
    requires classes_placed { IsPlaces (map (λ c. c.now.name) classes.now) class_places.now }
    requires constants_placed { IsPlaces (map (λ c. c.now.name) constants.now) constant_places.now }
    ensures { IfOk result (λ v. v.items
        ≡ rows_by (map (λ c. c.now) classes.now) (map (λ c. c.now) constants.now) values.now) }
{
    let classes = Classes {
        list: classes,
        places: class_places,
    };
    let known = ConstantValues {
        constants,
        places: constant_places,
        values,
    };
    rows_of(alloc, &classes, &known)
}

// Which of these classes have themselves in their fields, and the cells of each.
fn circles_and_cells(
    alloc: Global,
    rows: &[ClassLayout],
) -> Result<(Vec<bool>, Vec<u64>), AllocError>
    ensures full { IfOk result (λ r. length r.0.items ≡ length rows.now) }
    ensures flags { IfOk result (λ r. AreCircles rows.now r.0.items (length rows.now)) }
    ensures counted { IfOk result (λ r. Counted (length rows.now) rows.now r.1.items) }
{
    let holders = holders_of(alloc, rows)?;
    let settled = settle_classes(alloc, rows, &holders)?;
    let circles = circles_of(alloc, rows, &holders, &settled)?;
    let cells = cells_of(alloc, rows, &circles, settled)?;
    Ok((circles, cells))
}

fn class_at<'a>(classes: &[&'a Class], place: usize) -> Option<&'a Class>
    ensures { option_map (λ c. c.now) result ≡ slice_get (map (λ c. c.now) classes.now) place }
{
    classes.get(place).copied()
}

// What the class with this place holds; nothing beyond the last.
fn held_at(rows: &[ClassLayout], place: usize) -> &[FieldLayout]
    ensures { result.now ≡ (row_at rows.now place).held }
{
    match rows.get(place) {
        Some(row) => &row.held,
        None => &[],
    }
}

fn plain_in(object: Option<FieldClass>) -> Option<usize>
    ensures { result ≡ plain_in object }
{
    match object {
        Some(object) => {
            if object.plain {
                Some(object.class)
            } else {
                None
            }
        }
        None => None,
    }
}

// Whether what a base names is known by its number.
fn is_numbered(object: Option<FieldClass>, base: &Base) -> bool
    ensures { result ≡ is_numbered (making_by object base.now) }
{
    match object {
        Some(object) => !object.plain,
        None => matches!(base, Base::Cluster | Base::Processor),
    }
}

fn constant_at<'a>(constants: &[&'a Constant], place: usize) -> Option<&'a Constant>
    ensures { result ≡ slice_get constants.now place }
{
    constants.get(place).copied()
}

impl<'a> Sizes<'a> {
    /// What is to be known of a program.
    pub fn new(alloc: Global, program: &'a Program) -> Result<Sizes<'a>, AllocError>
        ensures { IfOk result (λ s. s ≡ program.now) }
    {
        let constants = constants_in(alloc, &program.items)?;
        let constant_places = places_of_constants(alloc, &constants)?;
        let values = values_of(alloc, &constants, &constant_places)?;
        let classes = classes_in(alloc, &program.items)?;
        let class_places = places_of_classes(alloc, &classes)?;
        let rows = rows_in(
            alloc,
            &classes,
            &class_places,
            &constants,
            &constant_places,
            &values,
        )?;
        let counted = circles_and_cells(alloc, &rows)?;
        Ok(Sizes {
            program,
            classes,
            class_places,
            constants,
            constant_places,
            values,
            rows,
            circles: counted.0,
            cells: counted.1,
        })
    }

    /// The cells of the class with this place among the classes of the program, events included; none beyond the last.
    /// The greatest number stands for all that are greater.
    pub fn cells_of_class(&self, place: usize) -> u64
        ensures { result ≡ capped (class_cells self.now place) }
    {
        if place < self.cells.len() {
            self.cells[place]
        } else {
            0
        }
    }

    /// Whether the class with this place among the classes of the program, events included, has itself in its fields, directly
    /// or through others; false beyond the last.
    pub fn has_itself(&self, place: usize) -> bool
        ensures itself { result ≡ has_itself (rows_of self.now) place }
        ensures never { result ≡ false → (steps : ℕ) →
            reaches steps (rows_of self.now) place place ≡ false }
    {
        let found = self.circle_at(place);
        found
    }

    /// The class with this place among the classes of the program, events included.
    pub fn class(&self, place: usize) -> Option<&'a Class>
        ensures { option_map (λ c. c.now) result ≡ class_at self.now place }
    {
        class_at(&self.classes, place)
    }

    /// What the fields of the class with this place hold, in order; nothing beyond the last class.
    pub fn held_by_class(&self, place: usize) -> &[FieldLayout]
        ensures { result.now ≡ (row_at (rows_of self.now) place).held }
    {
        held_at(&self.rows, place)
    }

    fn circle_at(&self, place: usize) -> bool
        ensures { IsCircle (rows_of self.now) place result }
    {
        let found = flag_at(&self.circles, place);
        found
    }

    /// Which classes have the class with this place in their fields, directly or through others, by their places.
    pub fn holders(&self, alloc: Global, place: usize) -> Result<Vec<bool>, AllocError>
        ensures { IfOk result (λ v. Reaching (rows_of self.now) place v.items) }
    {
        reaching(alloc, &self.rows, place)
    }

    /// The value of a constant, none where no constant of the name has one.
    pub fn value_of(&self, name: &Name) -> Option<i64>
        ensures { result ≡ value_of_name (constants_of self.now.items) name.now }
    {
        let value = self.known().value(name);
        value
    }

    /// The constant of a name, none where no constant has it.
    pub fn constant(&self, name: &Name) -> Option<&Constant>
        ensures { option_map (λ c. c.now) result
            ≡ constant_named (constants_of self.now.items) name.now }
    {
        match place_in(&self.constant_places, name) {
            Some(place) => constant_at(&self.constants, place),
            None => None,
        }
    }

    /// How many elements a declarator of a class declares, whose members hide constants of their names.
    pub fn elements_in(&self, class: &Class, declarator: &Declarator) -> u32
        ensures { result ≡ elements
            (seen_in (constants_of self.now.items) class.now) declarator.now }
    {
        let shown = HiddenByList {
            known: self.known(),
            members: &class.members,
        };
        elements_of(&shown, declarator)
    }

    /// How many elements a declarator of a routine declares.
    pub fn elements_of_variable(&self, declarator: &Declarator) -> u32
        ensures { result ≡ elements (value_of_name (constants_of self.now.items)) declarator.now }
    {
        elements_of(&self.known(), declarator)
    }

    fn classes(&self) -> Classes<'_>
        ensures { map (λ c. c.now) result.list.now ≡ classes_of self.now.items }
    {
        Classes {
            list: &self.classes,
            places: &self.class_places,
        }
    }

    fn known(&self) -> ConstantValues<'_>
        ensures { known_by result ≡ value_of_name (constants_of self.now.items) }
    {
        ConstantValues {
            constants: &self.constants,
            places: &self.constant_places,
            values: &self.values,
        }
    }

    // What a variable holds.
    fn held(&self, base: &Base, declarator: &Declarator) -> FieldLayout
        ensures { result ≡ held_by (classes_of self.now.items)
            (value_of_name (constants_of self.now.items)) base.now declarator.now }
    {
        held_by(&self.classes(), &self.known(), base, declarator)
    }

    /// The class whose objects a base names, and whether one has the cells of its class.
    pub fn object(&self, base: &Base) -> Option<FieldClass>
        ensures { result ≡ object_of (classes_of self.now.items) base.now }
    {
        object_of(&self.classes(), base)
    }

    /// The class of plain objects that a base names, by its place.
    pub fn plain_class(&self, base: &Base) -> Option<usize>
        ensures { result ≡ plain_class self.now base.now }
    {
        plain_in(self.object(base))
    }

    /// The class of objects that a base names, plain or of a mutex type, by its place.
    pub fn class_made(&self, base: &Base) -> Option<usize>
        ensures { result ≡ class_made (making self.now base.now) }
    {
        match self.object(base) {
            Some(object) => Some(object.class),
            None => None,
        }
    }

    /// Whether what a declaration of this base makes is known by its number: an object of a mutex type, a cluster or a processor.
    pub fn is_numbered(&self, base: &Base) -> bool
        ensures { result ≡ is_numbered (making self.now base.now) }
    {
        is_numbered(self.object(base), base)
    }

    /// The event of a name, by its place among the classes.
    pub fn event_named(&self, name: &Name) -> Option<usize>
        ensures { result ≡ event_from (classes_of self.now.items) 0 name.now }
    {
        let event = event_named(&self.classes(), name);
        event
    }

    /// The event that a base names, by its place among the classes.
    pub fn event_place(&self, base: &Base) -> Option<usize>
        ensures { result ≡ event_place self.now base.now }
    {
        let event = event_of(&self.classes(), base);
        event
    }

    /// The cells of what a field holds.
    #[tactic(auto, using(crate::proofs::CellTablesLemmas::capped_mul))]
    pub fn cells_of_held(&self, held: &FieldLayout) -> u64
        ensures { result ≡ capped (held_cells (class_cells self.now) held.now) }
    {
        u64::from(held.count).saturating_mul(self.cells_of_element(held.object))
    }

    // The cells of one element.
    fn cells_of_element(&self, object: Option<FieldClass>) -> u64
        ensures { result ≡ capped (element_cells (class_cells self.now) object) }
    {
        element_cells(&self.cells, object)
    }

    /// The cells of a variable.
    pub fn cells_of_variable(&self, base: &Base, declarator: &Declarator) -> u64
        ensures { result ≡ capped (declared_cells self.now base.now declarator.now) }
    {
        self.cells_of_held(&self.held(base, declarator))
    }

    /// The cells of a parameter.
    pub fn cells_of_param(&self, param: &Param) -> u64
        ensures { result ≡ capped (param_cells self.now param.now) }
    {
        if param.by_ref {
            return 1;
        }
        self.cells_of_element(self.object(&param.base))
    }
}
