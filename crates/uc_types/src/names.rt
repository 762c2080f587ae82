// The names in scope at a place in a program, and what stands round it.

ghost use Rattle.std.specs.Prelude.{◌≡◌, ◌++◌, ◌∷◌, [], IfOk, None, OnErr, OnOk, Some, drop, if◌then◌else◌, length, take};
ghost use Rattle.std.specs.List.{list_any};
ghost use Rattle.uc_tree.specs.Constants.{chain_value_in, length_in, link_value_in, value_in};
ghost use Rattle.uc_tree.specs.Expressions.{links_of};
ghost use Rattle.uc_tree.specs.Names.{same_name};
ghost use Rattle.uc_tree.specs.Numbering.{main_name};
ghost use Rattle.uc_types.specs.LocalBlocks.{stacked};
ghost use Rattle.uc_rules.specs.Scopes.{caught_entity, declared, is_hidden, is_own, local_named, main_meant, named, named_behind, opened, own_named, param_seen, plain_env, seen_as, value_named, with_around, with_caught, with_param, with_seen};

use crate::directory::meant_at;
use crate::tables::Tables;
use std::alloc::{AllocError, Global};
use std::marker::Model;
use uc_layout::eval::{binary_of, unary_of};
use uc_layout::held::sound_length;
use uc_names::scope::Scope;
use uc_rules::rules::{Entity, LocalName, NameMeaning, Origin, Surroundings};
use uc_tree::declare::Declarator;
use uc_tree::expr::{Expr, ExprForm, Link};
use uc_tree::int::int_of;
use uc_tree::kinds::{Base, Param};
use uc_tree::name::Name;

/// The locals and parameters in scope, from the outermost scope on, with the names of the program. Contracts see them as the
/// environment of a place.
#[derive(Drop)]
pub struct Names<'a> {
    alloc: Global,
    tables: &'a Tables<'a>,
    around: Surroundings,
    names: Vec<LocalName>,
    outside: usize,
    places: Scope,
}

impl<'a> Model for Names<'a> {
    ghost use Rattle.std.specs.Coded.{codes};
    ghost use Rattle.uc_tree.specs.ProgramCodes.{program_coded};
    ghost use Rattle.std.specs.Prelude.{◌≡◌, []};
    ghost use Rattle.uc_rules.specs.Scopes.{Env};
    ghost use Rattle.uc_types.specs.LocalBlocks.{stacked};

    ghost Value = { Env };

    ghost coded = { Prim.hlevel (codes, program_coded) };

    ghost view = { λ a. record { program = a.tables.now; around = a.around; names = a.names.items; outside = a.outside } };

    ghost invariant = { λ a. a.places ≡ stacked 0 a.names.items [] };
}

/// A scope to come back to.
#[derive(Clone, Copy)]
pub struct ScopeMark {
    count: usize,
    outside: usize,
    around: Surroundings,
}

impl<'a> Names<'a> {
    /// Where no local is in scope.
    pub fn new(alloc: Global, tables: &'a Tables<'a>, around: Surroundings) -> Names<'a>
        ensures { result ≡ plain_env tables.now around }
    {
        let names = Vec::new(alloc);
        Names {
            alloc,
            tables,
            around,
            names,
            outside: 0,
            places: Scope::new(alloc),
        }
    }

    /// The memory that further names take.
    pub fn alloc(&self) -> Global {
        self.alloc
    }

    /// The names of the program.
    pub fn tables(&self) -> &'a Tables<'a>
        ensures { result.now ≡ self.now.program }
    {
        self.tables
    }

    /// What stands round the place.
    pub fn around(&self) -> Surroundings
        ensures { result ≡ self.now.around }
    {
        self.around
    }

    /// What stands round the place from now on.
    pub fn set_around(&mut self, around: Surroundings)
        ensures { self.new ≡ with_around self.old around }
    {
        self.around = around;
    }

    fn local_named(&self, name: &Name) -> Option<NameMeaning>
        ensures { result ≡ local_named self.now.names name.now }
    {
        find(&self.names, &self.places, name)
    }

    fn own_named(&self, name: &Name) -> Option<NameMeaning>
        ensures { result ≡ own_named self.now.program self.now.around.main self.now.around.home
            name.now }
    {
        let around = self.around;
        match around.home {
            Some(home) => {
                let tables = self.tables;
                tables.member_named(home.class, name)
            }
            None => main_named(around.main, name),
        }
    }

    /// What a name stands for.
    pub fn named(&self, name: &Name) -> Option<NameMeaning>
        ensures { result ≡ named self.now name.now }
    {
        let local = self.local_named(name);
        if local.is_some() {
            return local;
        }
        let own = self.own_named(name);
        if own.is_some() {
            return own;
        }
        let tables = self.tables;
        tables.outer_named(name)
    }

    fn is_hidden(&self, name: &Name) -> bool
        ensures { result ≡ is_hidden self.now name.now }
    {
        let local = self.local_named(name);
        let own = self.own_named(name);
        local.is_some() || own.is_some()
    }

    /// The value of the constant of a name; none where a local, a parameter or a member hides it.
    pub fn value_named(&self, name: &Name) -> Option<i64>
        ensures { result ≡ value_named self.now name.now }
    {
        if self.is_hidden(name) {
            return None;
        }
        let tables = self.tables;
        tables.constant(name)
    }

    /// Whether the innermost scope has a name.
    pub fn is_own(&self, name: &Name) -> bool
        ensures { result ≡ is_own self.now name.now }
    {
        has_behind(&self.names, &self.places, self.outside, name)
    }

    fn push(&mut self, name: &Name, meant: NameMeaning) -> Result<(), AllocError>
        ensures { OnOk result (self.new
            ≡ with_seen self.old (record { name = name.now; meant = meant })) }
    {
        push_seen(self.alloc, &mut self.names, &mut self.places, name, meant)?;
        Ok(())
    }

    fn declared_meant(&self, base: &Base, declarator: &Declarator) -> NameMeaning
        ensures { result ≡ (seen_as self.now base.now declarator.now).meant }
    {
        let count = length_of(self, &declarator.len);
        let tables = self.tables;
        NameMeaning {
            entity: tables.declared_entity(base, declarator, count),
            origin: Origin::Local,
        }
    }

    /// One more variable.
    pub fn declare(&mut self, base: &Base, declarator: &Declarator) -> Result<(), AllocError>
        ensures { OnOk result (self.new ≡ declared self.old base.now declarator.now) }
    {
        let meant = self.declared_meant(base, declarator);
        self.push(&declarator.name, meant)
    }

    fn param_meant(&self, param: &Param) -> NameMeaning
        ensures { result ≡ (param_seen self.now.program param.now).meant }
    {
        let tables = self.tables;
        let entity = match tables.sort_of(&param.base) {
            Some(sort) => Some(Entity::Place { sort }),
            None => None,
        };
        NameMeaning {
            entity,
            origin: Origin::Parameter {
                by_ref: param.by_ref,
            },
        }
    }

    /// One more parameter.
    pub fn add_param(&mut self, param: &Param) -> Result<(), AllocError>
        ensures { OnOk result (self.new ≡ with_param self.old param.now) }
    {
        let meant = self.param_meant(param);
        self.push(&param.name, meant)
    }

    fn caught(&self, event: &Option<Name>) -> Option<Entity>
        ensures { result ≡ caught_entity self.now.program event.now }
    {
        match event {
            Some(event) => {
                let tables = self.tables;
                tables.event_named(event)
            }
            None => None,
        }
    }

    /// The parameter of a handler, where it has one.
    pub fn add_caught(
        &mut self,
        event: &Option<Name>,
        param: &Option<Name>,
    ) -> Result<(), AllocError>
        ensures { OnOk result (self.new ≡ with_caught self.old event.now param.now) }
    {
        match param {
            Some(param) => {
                let meant = NameMeaning {
                    entity: self.caught(event),
                    origin: Origin::Local,
                };
                self.push(param, meant)
            }
            None => Ok(()),
        }
    }

    /// Where to come back to.
    pub fn mark(&self) -> ScopeMark
        ensures count { result.count ≡ length self.now.names }
        ensures outside { result.outside ≡ self.now.outside }
        ensures around { result.around ≡ self.now.around }
    {
        ScopeMark {
            count: self.names.len(),
            outside: self.outside,
            around: self.around,
        }
    }

    /// A new scope.
    pub fn open(&mut self)
        ensures { self.new ≡ opened self.old }
    {
        self.outside = self.names.len();
        self.around.joins = false;
    }

    /// The innermost scope ends, and the one of the mark is the innermost again.
    pub fn close(&mut self, mark: ScopeMark)
        ensures { self.new ≡ record {
          program = self.old.program;
          around = mark.around;
          names = take
              mark.count self.old.names;
          outside = mark.outside;
        } }
    {
        close_to(&mut self.names, &mut self.places, mark.count);
        self.outside = mark.outside;
        self.around = mark.around;
    }
}

fn main_named(main: bool, name: &Name) -> Option<NameMeaning>
    ensures { result ≡ (if main
        then (if same_name main_name name.now then Some main_meant else None) else None) }
{
    if main && name.is(b"main") {
        Some(NameMeaning {
            entity: Some(Entity::Main),
            origin: Origin::Outer,
        })
    } else {
        None
    }
}

// Declares a name in a block of its own.
fn declare_alone(places: &mut Scope, name: &Name, id: u32) -> Result<(), AllocError>
    ensures declared { OnOk result (places.new ≡ ((name.now, id) ∷ []) ∷ places.old) }
    ensures err { OnErr result (places.new ≡ places.old) }
{
    places.open()?;
    match places.declare(name.bytes(), id) {
        Ok(_) => Ok(()),
        Err(fault) => {
            places.close();
            Err(fault)
        }
    }
}

// One more name. Memory is wanting where its place is not below 2^32.
fn push_seen(
    alloc: Global,
    names: &mut Vec<LocalName>,
    places: &mut Scope,
    name: &Name,
    meant: NameMeaning,
) -> Result<(), AllocError>
    requires { places.old ≡ stacked 0 names.old.items [] }
    ensures stacked { places.new ≡ stacked 0 names.new.items [] }
    ensures pushed { OnOk result (names.new.items
        ≡ names.old.items ++ record { name = name.now; meant = meant } ∷ []) }
{
    let copy = name.copy(alloc)?;
    let id = place_id(names.len())?;
    declare_alone(places, name, id)?;
    if let Err(_) = names.push(LocalName { name: copy, meant }) {
        places.close();
        return Err(AllocError);
    }
    Ok(())
}

fn place_id(place: usize) -> Result<u32, AllocError>
    ensures { IfOk result (λ id. id ≡ place) }
{
    match u32::try_from(place) {
        Ok(id) => Ok(id),
        Err(_) => Err(AllocError),
    }
}

// Takes names back until so many are left.
fn close_to(names: &mut Vec<LocalName>, places: &mut Scope, count: usize)
    requires { places.old ≡ stacked 0 names.old.items [] }
    ensures stacked { places.new ≡ stacked 0 names.new.items [] }
    ensures left { names.new.items ≡ take count names.old.items }
{
    let mut place = names.len();
    while count < place {
        place -= 1;
        places.close();
    }
    names.truncate(place);
}

fn find(names: &[LocalName], places: &Scope, name: &Name) -> Option<NameMeaning>
    requires { places.now ≡ stacked 0 names.now [] }
    ensures { result ≡ local_named names.now name.now }
{
    match places.find(name.bytes()) {
        Some(place) => meant_at(names, place as usize),
        None => None,
    }
}

fn has_behind(names: &[LocalName], places: &Scope, outside: usize, name: &Name) -> bool
    requires { places.now ≡ stacked 0 names.now [] }
    ensures { result ≡ list_any (λ s. same_name s.name name.now) (drop outside names.now) }
{
    match places.find(name.bytes()) {
        Some(place) => outside <= place as usize,
        None => false,
    }
}

/// The value of a length; none where it is not constant.
#[cycle(value)]
pub fn length_value(names: &Names, e: &Expr) -> Option<i64>
    ensures { result ≡ value_in e.now (value_named names.now) }
{
    match &e.form {
        ExprForm::Number { value } => int_of(*value),
        ExprForm::Character { byte } => Some(i64::from(*byte)),
        ExprForm::Truth { value } => Some(i64::from(*value)),
        ExprForm::Name { name } => names.value_named(name),
        ExprForm::Unary { op, operand } => match length_value(names, operand) {
            Some(x) => unary_of(*op, x),
            None => None,
        },
        ExprForm::Chain { first, rest } => {
            let left = length_value(names, first);
            chain_value(names, left, rest)
        }
        _ => None,
    }
}

#[cycle(value)]
fn chain_value(names: &Names, left: Option<i64>, rest: &[Link]) -> Option<i64>
    ensures { result ≡ chain_value_in (links_of rest.now) left (value_named names.now) }
{
    let mut value = left;
    for link in rest {
        value = link_value(names, value, link);
    }
    value
}

#[cycle(value)]
fn link_value(names: &Names, left: Option<i64>, link: &Link) -> Option<i64>
    ensures { result ≡ link_value_in link.now left (value_named names.now) }
{
    let right = length_value(names, &link.right);
    match left {
        Some(x) => match right {
            Some(y) => binary_of(link.op, x, y),
            None => None,
        },
        None => None,
    }
}

fn length_of(names: &Names, len: &Option<Expr>) -> u32
    ensures { result ≡ length_in (value_named names.now) len.now }
{
    match len {
        Some(len) => sound_length(length_value(names, len)),
        None => 1,
    }
}
