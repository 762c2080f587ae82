// The values of constants by name, outside of classes and in them.

ghost use Rattle.std.specs.Prelude.{◌≡◌, ◌<◌, ◌||◌, ℕ, List, IfOk, OnOk, is_some, length};
ghost use Rattle.std.specs.List.{list_any};
ghost use Rattle.uc_tree.specs.Names.{same_name};
ghost use Rattle.uc_tree.specs.Cells.{declares_name, member_form_named};
ghost use Rattle.uc_tree.specs.ProgramViews.{member_form_at};
ghost use Rattle.uc_names.specs.Blocks.{found};
ghost use Rattle.uc_layout.specs.Known.{known_by, shown_by, inside_by};

use crate::named::{NameValues, is_member};
use crate::places::{ConstantValues, place_in};
use std::alloc::{AllocError, Global};
use uc_names::scope::Scope;
use uc_tree::class::{Member, MemberForm};
use uc_tree::declare::Declarator;
use uc_tree::name::Name;

impl<'a> NameValues for ConstantValues<'a> {
    ghost value_named = { known_by };

    fn value(&self, name: &Name) -> Option<i64> {
        match place_in(self.places, name) {
            Some(place) => match self.values.get(place) {
                Some(value) => *value,
                None => None,
            },
            None => None,
        }
    }
}

/// The same among these members of a class, which hide constants of their names. It goes through the members for each name
/// that is a constant's.
#[derive(Clone, Copy)]
pub struct HiddenByList<'a> {
    pub known: ConstantValues<'a>,
    pub members: &'a [Member],
}

impl<'a> NameValues for HiddenByList<'a> {
    ghost value_named = { shown_by };

    fn value(&self, name: &Name) -> Option<i64> {
        match self.known.value(name) {
            Some(value) => {
                if is_member(self.members, name) {
                    None
                } else {
                    Some(value)
                }
            }
            None => None,
        }
    }
}

/// The same among members whose names are in a table.
#[derive(Clone, Copy)]
pub struct HiddenByTable<'a> {
    pub known: ConstantValues<'a>,
    pub members: &'a Scope,
}

impl<'a> NameValues for HiddenByTable<'a> {
    ghost value_named = { inside_by };

    fn value(&self, name: &Name) -> Option<i64> {
        if self.members.find(name.bytes()).is_some() {
            return None;
        }
        let value = self.known.value(name);
        value
    }
}

fn note_name(names: &mut Scope, name: &Name) -> Result<(), AllocError>
    requires { 0 < length names.old }
    ensures open { OnOk result (0 < length names.new) }
    ensures noted { OnOk result ((x : List ℕ) →
        is_some (found names.new x) ≡ (is_some (found names.old x) || same_name name.now x)) }
{
    names.declare(name.bytes(), 0)?;
    Ok(())
}

fn note_declarators(names: &mut Scope, declarators: &[Declarator]) -> Result<(), AllocError>
    requires { 0 < length names.old }
    ensures open { OnOk result (0 < length names.new) }
    ensures noted { OnOk result ((x : List ℕ) →
        is_some (found names.new x)
        ≡ (is_some (found names.old x) || declares_name x declarators.now)) }
{
    for declarator in declarators {
        note_name(names, &declarator.name)?;
    }
    Ok(())
}

fn note_form(names: &mut Scope, form: &MemberForm) -> Result<(), AllocError>
    requires { 0 < length names.old }
    ensures open { OnOk result (0 < length names.new) }
    ensures noted { OnOk result ((x : List ℕ) →
        is_some (found names.new x)
        ≡ (is_some (found names.old x) || member_form_named x (member_form_at form.now))) }
{
    match form {
        MemberForm::Fields { declarators, .. } => {
            note_declarators(names, declarators)?;
            Ok(())
        }
        MemberForm::Routine { routine } => {
            note_name(names, &routine.sig.name)?;
            Ok(())
        }
        MemberForm::Proto { sig } => {
            note_name(names, &sig.name)?;
            Ok(())
        }
    }
}

/// The names of these members of a class.
pub fn names_of_members(alloc: Global, members: &[Member]) -> Result<Scope, AllocError>
    ensures { IfOk result (λ names. (x : List ℕ) →
        is_some (found names x) ≡ list_any (λ m. member_form_named x m.form) members.now) }
{
    let mut names = Scope::new(alloc);
    names.open()?;
    for member in members {
        note_form(&mut names, &member.form)?;
    }
    Ok(names)
}
