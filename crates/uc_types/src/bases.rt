// The classes of a program by name, and what bases and declarators stand for.

ghost use Rattle.std.specs.Prelude.{◌≡◌, IfOk, MatchOption, None, Some, if◌then◌else◌, map, option_map, slice_get};
ghost use Rattle.uc_rules.specs.declared.rules.Sort.TheVariants.{Object};
ghost use Rattle.uc_tree.specs.Cells.{classes_of};
ghost use Rattle.uc_tree.specs.Constants.{constants_of, value_of_name};
ghost use Rattle.uc_tree.specs.Numbering.{is_given};
ghost use Rattle.uc_rules.specs.Names.{constant_meant, declared_entity, variable};
ghost use Rattle.uc_rules.specs.Scopes.{event_among, event_named, event_sort};
ghost use Rattle.uc_rules.specs.Sorts.{class_at, class_named, class_sort, sort_of};
ghost use Rattle.uc_layout.specs.Places.{IsPlaces};

use crate::sort::is_event_sort;
use std::alloc::{AllocError, Global};
use std::marker::Model;
use uc_layout::lists::classes_in;
use uc_layout::places::{place_in, places_of_classes};
use uc_layout::sizes::Sizes;
use uc_names::scope::Scope;
use uc_rules::rules::{Entity, NameMeaning, Origin, Sort};
use uc_tree::class::Class;
use uc_tree::declare::Declarator;
use uc_tree::expr::Expr;
use uc_tree::kinds::Base;
use uc_tree::made::both;
use uc_tree::name::Name;
use uc_tree::program::{Constant, Program};

/// The classes and the sizes of a program. Contracts see the program.
#[derive(Drop)]
pub struct Bases<'a> {
    program: &'a Program,
    classes: Vec<&'a Class>,
    places: Scope,
    sizes: Sizes<'a>,
}

impl<'a> Model for Bases<'a> {
    ghost use Rattle.std.specs.Prelude.{map};
    ghost use Rattle.uc_tree.specs.Programs.{Program};
    ghost use Rattle.uc_tree.specs.ProgramCodes.{program_coded};
    ghost use Rattle.uc_layout.specs.Places.{IsPlaces};
    ghost use Rattle.uc_types.specs.TableInvariant.{IsTabled};

    ghost Value = { Program };

    ghost coded = { program_coded };

    ghost view = { λ a. a.program.now };

    ghost invariant = { λ a. IsTabled a.program.now (map (λ c. c.now) a.classes.items) a.sizes × IsPlaces (map (λ c. c.now.name) a.classes.items) a.places };
}

fn sort_at(classes: &[&Class], place: usize) -> Option<Sort>
    ensures { result ≡ option_map (λ c. Object place c.now.kind) (slice_get classes.now place) }
{
    match classes.get(place) {
        Some(class) => Some(Sort::Object {
            class: place,
            kind: class.kind,
        }),
        None => None,
    }
}

fn class_sort(classes: &[&Class], places: &Scope, name: &Name) -> Option<Sort>
    requires { IsPlaces (map (λ c. c.now.name) classes.now) places.now }
    ensures { result ≡ class_sort (map (λ c. c.now) classes.now) 0 name.now }
{
    match place_in(places, name) {
        Some(place) => sort_at(classes, place),
        None => None,
    }
}

fn is_event_named(sort: Option<Sort>) -> Option<Sort>
    ensures { result ≡ event_among sort }
{
    let sort = sort?;
    if is_event_sort(sort) {
        Some(sort)
    } else {
        None
    }
}

fn variable(by_ref: bool, len: &Option<Expr>, count: u32, sort: Sort) -> Entity
    ensures { result ≡ variable by_ref len.now count sort }
{
    if by_ref {
        return Entity::Place { sort };
    }
    match len {
        None => Entity::Place { sort },
        Some(_) => Entity::Array { sort, len: count },
    }
}

/// Whether it is the name of an event that every program has, and none declares.
pub fn is_given(name: &Name) -> bool
    ensures { result ≡ is_given name.now }
{
    name.is(b"uUnhandled") || name.is(b"RendezvousFailure")
}

impl<'a> Bases<'a> {
    /// The classes and the sizes of a program.
    pub fn new(alloc: Global, program: &'a Program) -> Result<Bases<'a>, AllocError>
        ensures { IfOk result (λ t. t ≡ program.now) }
    {
        let classes = classes_in(alloc, &program.items)?;
        let places = places_of_classes(alloc, &classes);
        let (places, sizes) = both(places, Sizes::new(alloc, program))?;
        Ok(Bases {
            program,
            classes,
            places,
            sizes,
        })
    }

    /// The program.
    pub fn program(&self) -> &'a Program
        ensures { result.now ≡ self.now }
    {
        self.program
    }

    /// Its cells and constants.
    pub fn sizes(&self) -> &Sizes<'a>
        ensures { result.now ≡ self.now }
    {
        &self.sizes
    }

    /// The classes of the program, events included, in textual order.
    pub fn classes(&self) -> &[&'a Class]
        ensures { map (λ c. c.now) result.now ≡ classes_of self.now.items }
    {
        &self.classes
    }

    /// The class with this place among the classes of the program, events included.
    pub fn class_at(&self, place: usize) -> Option<&'a Class>
        ensures { MatchOption result (class_at self.now place ≡ None) (λ c. class_at self.now place
            ≡ Some c.now) }
    {
        match self.classes.get(place) {
            Some(class) => Some(*class),
            None => None,
        }
    }

    /// The class or event of a name.
    pub fn class_named(&self, name: &Name) -> Option<Sort>
        ensures { result ≡ class_named self.now name.now }
    {
        class_sort(&self.classes, &self.places, name)
    }

    /// The sort that a base names; none where it names no class.
    pub fn sort_of(&self, base: &Base) -> Option<Sort>
        ensures { result ≡ sort_of self.now base.now }
    {
        match base {
            Base::Void => Some(Sort::Void),
            Base::Int => Some(Sort::Int),
            Base::Char => Some(Sort::Char),
            Base::Bool => Some(Sort::Bool),
            Base::Condition => Some(Sort::Condition),
            Base::Cluster => Some(Sort::Cluster),
            Base::Processor => Some(Sort::Processor),
            Base::Named(name) => self.class_named(name),
        }
    }

    /// The event of a name, where the program declares it.
    pub fn event_sort(&self, name: &Name) -> Option<Sort>
        ensures { result ≡ event_sort self.now name.now }
    {
        is_event_named(self.class_named(name))
    }

    /// What stands for an event that is handled; none where the name is no event.
    pub fn event_named(&self, name: &Name) -> Option<Entity>
        ensures { result ≡ event_named self.now name.now }
    {
        if is_given(name) {
            return Some(Entity::ClassName);
        }
        let sort = self.event_sort(name)?;
        Some(Entity::Place { sort })
    }

    /// What a declarator declares, where its length has this value.
    pub fn declared_entity(
        &self,
        base: &Base,
        declarator: &Declarator,
        count: u32,
    ) -> Option<Entity>
        ensures { result ≡ declared_entity self.now base.now declarator.now count }
    {
        let sort = self.sort_of(base)?;
        Some(variable(declarator.by_ref, &declarator.len, count, sort))
    }

    /// What a constant stands for.
    pub fn constant_meant(&self, constant: &Constant) -> NameMeaning
        ensures { result ≡ constant_meant self.now constant.now }
    {
        let entity = match self.sort_of(&constant.base) {
            Some(sort) => Some(Entity::Value { sort }),
            None => None,
        };
        NameMeaning {
            entity,
            origin: Origin::Outer,
        }
    }

    /// The value of a constant, none where no constant of the name has one.
    pub fn constant(&self, name: &Name) -> Option<i64>
        ensures { result ≡ value_of_name (constants_of self.now.items) name.now }
    {
        self.sizes.value_of(name)
    }
}
