// What the names of a program stand for, by class and for all of the program.

ghost use Rattle.std.specs.Prelude.{◌≡◌, ◌≤◌, IfOk, MatchOption, None, Some, length, map, option_and_then, slice_get, take};
ghost use Rattle.uc_types.specs.Listings.{first_named};
ghost use Rattle.uc_types.specs.Members.{numbered_in};
ghost use Rattle.uc_types.specs.OuterConstructors.{constructors_in};
ghost use Rattle.uc_tree.specs.Cells.{classes_of};
ghost use Rattle.uc_tree.specs.Constants.{constants_of, value_of_name};
ghost use Rattle.uc_tree.specs.Numbering.{mutex_members};
ghost use Rattle.uc_tree.specs.Programs.{Class};
ghost use Rattle.uc_tree.specs.ProgramViews.{member_form_at};
ghost use Rattle.uc_tree.specs.declared.limits.TheConstants.{MEMBERS};
ghost use Rattle.uc_rules.specs.Names.{constructor_among, constructor_form, constructor_params, declared_entity, form_sig, item_sig, items_named, member_named, method_sig, outer_named, routine_sig};
ghost use Rattle.uc_rules.specs.Scopes.{event_named, event_sort};
ghost use Rattle.uc_rules.specs.Sorts.{class_at, class_named, sort_of};

use crate::bases::{Bases, is_given};
use crate::directory::NameTable;
use crate::listing::{names_in_classes, names_outside, outer};
use crate::members::{names_at, params_at, params_in_each};
use crate::outside::OuterConstructors;
use crate::sort::is_constructor;
use std::alloc::{AllocError, Global};
use std::marker::Model;
use uc_layout::sizes::Sizes;
use uc_rules::rules::{Entity, NameMeaning, Sort};
use uc_tree::class::{Class, Member, MemberForm, Routine, Sig};
use uc_tree::declare::Declarator;
use uc_tree::kinds::{Base, Param};
use uc_tree::made::both;
use uc_tree::name::Name;
use uc_tree::program::{Item, ItemForm, Program};

/// The names of a program. Contracts see the program.
#[derive(Drop)]
pub struct Tables<'a> {
    bases: Bases<'a>,
    members: Vec<NameTable>,
    outer: NameTable,
    params: Vec<&'a [Param]>,
    numbered: Vec<Vec<&'a Name>>,
    constructors: OuterConstructors<'a>,
}

impl<'a> Model for Tables<'a> {
    ghost use Rattle.uc_tree.specs.Programs.{Program};
    ghost use Rattle.uc_tree.specs.ProgramCodes.{program_coded};
    ghost use Rattle.std.specs.Prelude.{map};
    ghost use Rattle.uc_types.specs.TableInvariant.{AreMembers, IsListed};

    ghost Value = { Program };

    ghost coded = { program_coded };

    ghost view = { λ a. a.bases };

    ghost invariant = { λ a. IsListed a.bases a.members.items a.outer × AreMembers a.bases (map (λ x. x.now) a.params.items) (map (λ ns. map (λ n. n.now) ns.items) a.numbered.items) a.constructors };
}

fn constructor_form(form: &MemberForm) -> Option<&Sig>
    ensures { MatchOption result (constructor_form (member_form_at form.now)
        ≡ None) (λ s. constructor_form (member_form_at form.now) ≡ Some s.now) }
{
    match form {
        MemberForm::Fields { .. } => None,
        MemberForm::Routine { routine } => {
            if is_constructor(routine.sig.role) {
                Some(&routine.sig)
            } else {
                None
            }
        }
        MemberForm::Proto { sig } => {
            if is_constructor(sig.role) {
                Some(sig)
            } else {
                None
            }
        }
    }
}

/// The first constructor among these members.
pub fn constructor_among(members: &[Member]) -> Option<&Sig>
    ensures { MatchOption result (constructor_among members.now
        ≡ None) (λ s. constructor_among members.now ≡ Some s.now) }
{
    for member in members {
        if let Some(sig) = constructor_form(&member.form) {
            return Some(sig);
        }
    }
    None
}

fn form_sig(form: &MemberForm) -> Option<&Sig>
    ensures { MatchOption result (form_sig (member_form_at form.now)
        ≡ None) (λ s. form_sig (member_form_at form.now) ≡ Some s.now) }
{
    match form {
        MemberForm::Fields { .. } => None,
        MemberForm::Routine { routine } => Some(&routine.sig),
        MemberForm::Proto { sig } => Some(sig),
    }
}

fn item_sig(item: &Item) -> Option<&Sig>
    ensures { MatchOption result (item_sig item.now ≡ None) (λ s. item_sig item.now ≡ Some s.now) }
{
    match &item.form {
        ItemForm::Routine { routine } => Some(&routine.sig),
        ItemForm::Proto { sig } => Some(sig),
        _ => None,
    }
}

fn named_in(directories: &[NameTable], class: usize, name: &Name) -> Option<NameMeaning>
    ensures { result ≡ option_and_then (λ ss. first_named ss name.now)
        (slice_get directories.now class) }
{
    match directories.get(class) {
        Some(directory) => directory.find(name),
        None => None,
    }
}

impl<'a> Tables<'a> {
    /// The names of a program, of whose classes these are the names of the mutex members, as far as they have numbers.
    pub fn new(
        alloc: Global,
        program: &'a Program,
        numbered: Vec<Vec<&'a Name>>,
    ) -> Result<Tables<'a>, AllocError>
        requires { map (λ ns. map (λ n. n.now) ns.items) numbered.items
            ≡ map numbered_in (classes_of program.now.items) }
        ensures { IfOk result (λ t. t ≡ program.now) }
    {
        let bases = Bases::new(alloc, program)?;
        let members = names_in_classes(alloc, &bases);
        let outer = names_outside(alloc, &bases);
        let params = params_in_each(alloc, bases.classes());
        let constructors = OuterConstructors::new(alloc, &program.items);
        match both(both(members, outer), both(params, constructors)) {
            Ok(((members, outer), (params, constructors))) => Ok(Tables {
                bases,
                members,
                outer,
                params,
                numbered,
                constructors,
            }),
            Err(fault) => {
                drop(bases);
                drop(numbered);
                Err(fault)
            }
        }
    }

    /// The program.
    pub fn program(&self) -> &'a Program
        ensures { result.now ≡ self.now }
    {
        self.bases.program()
    }

    /// Its cells and constants.
    pub fn sizes(&self) -> &Sizes<'a>
        ensures { result.now ≡ self.now }
    {
        self.bases.sizes()
    }

    /// The class with this place among the classes of the program, events included.
    pub fn class_at(&self, place: usize) -> Option<&'a Class>
        ensures { MatchOption result (class_at self.now place ≡ None) (λ c. class_at self.now place
            ≡ Some c.now) }
    {
        self.bases.class_at(place)
    }

    /// The class or event of a name.
    pub fn class_named(&self, name: &Name) -> Option<Sort>
        ensures { result ≡ class_named self.now name.now }
    {
        self.bases.class_named(name)
    }

    /// The sort that a base names; none where it names no class.
    pub fn sort_of(&self, base: &Base) -> Option<Sort>
        ensures { result ≡ sort_of self.now base.now }
    {
        self.bases.sort_of(base)
    }

    /// The event of a name, where the program declares it.
    pub fn event_sort(&self, name: &Name) -> Option<Sort>
        ensures { result ≡ event_sort self.now name.now }
    {
        self.bases.event_sort(name)
    }

    /// What stands for an event that is handled; none where the name is no event.
    pub fn event_named(&self, name: &Name) -> Option<Entity>
        ensures { result ≡ event_named self.now name.now }
    {
        self.bases.event_named(name)
    }

    /// What a declarator declares, where its length has this value.
    pub fn declared_entity(
        &self,
        base: &Base,
        declarator: &Declarator,
        count: u32,
    ) -> Option<Entity>
        ensures { result ≡ declared_entity self.now base.now declarator.now count }
    {
        self.bases.declared_entity(base, declarator, count)
    }

    /// A member of the class with this place, but for constructors and destructors.
    pub fn member_named(&self, class: usize, name: &Name) -> Option<NameMeaning>
        ensures { result ≡ member_named self.now class name.now }
    {
        named_in(&self.members, class, name)
    }

    fn item_named(&self, name: &Name) -> Option<NameMeaning>
        ensures { result ≡ items_named self.now 0 self.now.items name.now }
    {
        let meant = self.outer.find(name);
        meant
    }

    /// What all of the program sees under a name.
    pub fn outer_named(&self, name: &Name) -> Option<NameMeaning>
        ensures { result ≡ outer_named self.now name.now }
    {
        if is_given(name) {
            return Some(outer(Entity::ClassName));
        }
        self.item_named(name)
    }

    /// The signature of the routine or prototype that the item with this place is.
    pub fn routine_sig(&self, item: usize) -> Option<&'a Sig>
        ensures { MatchOption result (routine_sig self.now item
            ≡ None) (λ s. routine_sig self.now item ≡ Some s.now) }
    {
        let program = self.program();
        match program.items.get(item) {
            Some(found) => item_sig(found),
            None => None,
        }
    }

    /// The signature of the routine or prototype that the member with this place of a class is.
    pub fn method_sig(&self, class: usize, member: usize) -> Option<&'a Sig>
        ensures { MatchOption result (method_sig self.now class member
            ≡ None) (λ s. method_sig self.now class member ≡ Some s.now) }
    {
        match self.class_at(class) {
            Some(found) => match found.members.get(member) {
                Some(member) => form_sig(&member.form),
                None => None,
            },
            None => None,
        }
    }

    /// What an object of the class is built with.
    pub fn constructor_params(&self, class: usize) -> &'a [Param]
        ensures { result.now ≡ constructor_params self.now class }
    {
        params_at(&self.params, class)
    }

    /// The names of the mutex members of the class with this place besides its destructor, as far as they have numbers.
    pub fn mutex_members(&self, class: usize) -> &[&Name]
        ensures names { (c : Class) → class_at self.now class ≡ Some c →
            map (λ n. n.now) result.now ≡ take MEMBERS (mutex_members c) }
        ensures few { length result.now ≤ MEMBERS }
    {
        names_at(&self.numbered, class)
    }

    /// The constructors outside of classes of the class of this name, in order.
    pub fn constructors_of<'x>(&'x self, name: &Name) -> &'x [&'x Routine]
        ensures { map (λ r. r.now) result.now ≡ constructors_in name.now self.now.items }
    {
        let routines = self.constructors.of_class(name);
        routines
    }

    /// The value of a constant, none where no constant of the name has one.
    pub fn constant(&self, name: &Name) -> Option<i64>
        ensures { result ≡ value_of_name (constants_of self.now.items) name.now }
    {
        self.bases.constant(name)
    }
}
