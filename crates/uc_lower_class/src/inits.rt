// The initialisers of a constructor, by the names of its fields.

ghost use Rattle.std.specs.Prelude.{◌≡◌, ◌++◌, IfOk, OnOk, map};
ghost use Rattle.uc_tree.specs.Expressions.{exprs_of};
ghost use Rattle.uc_tree.specs.Objects.{declared_fields, fields_of, form_fields};
ghost use Rattle.uc_tree.specs.ProgramViews.{member_form_at};
ghost use Rattle.uc_layout.specs.Places.{IsPlaces};
ghost use Rattle.uc_lower_class.specs.Inits.{init_exprs, names_of};

use std::alloc::{AllocError, Global};
use uc_layout::places::{no_places, note_place, place_in};
use uc_names::scope::Scope;
use uc_tree::class::{Class, Init, Member, MemberForm};
use uc_tree::declare::Declarator;
use uc_tree::expr::Expr;
use uc_tree::name::Name;

/// The places of initialisers by the names of their fields; of two the first counts.
pub(crate) fn places_of(alloc: Global, inits: &[Init]) -> Result<Scope, AllocError>
    ensures { IfOk result (λ places. IsPlaces (map (λ x. x.name) inits.now) places) }
{
    let mut places = no_places(alloc)?;
    for (place, init) in inits.iter().enumerate() {
        note_place(&mut places, &init.name, place)?;
    }
    Ok(places)
}

fn args_of(init: &Init) -> &[Expr]
    ensures { exprs_of result.now ≡ init.now.args }
{
    &init.args
}

/// The arguments with which the field of a name starts.
pub(crate) fn args_for<'a>(inits: &'a [Init], places: &Scope, name: &Name) -> &'a [Expr]
    requires { IsPlaces (map (λ x. x.name) inits.now) places.now }
    ensures { exprs_of result.now ≡ init_exprs inits.now name.now }
{
    match place_in(places, name) {
        Some(place) => match inits.get(place) {
            Some(init) => args_of(init),
            None => &[],
        },
        None => &[],
    }
}

fn name_of(declarator: &Declarator) -> &Name
    ensures { result.now ≡ declarator.now.name }
{
    &declarator.name
}

fn note_declarators<'a>(
    names: &mut Vec<&'a Name>,
    declarators: &'a [Declarator],
) -> Result<(), AllocError>
    ensures { OnOk result (map (λ n. n.now) names.new.items
        ≡ map (λ n. n.now) names.old.items ++ map (λ d. d.name) declarators.now) }
{
    for declarator in declarators {
        names.push(name_of(declarator))?;
    }
    Ok(())
}

fn note_member<'a>(names: &mut Vec<&'a Name>, form: &'a MemberForm) -> Result<(), AllocError>
    ensures { OnOk result (map (λ n. n.now) names.new.items
        ≡ map (λ n. n.now) names.old.items ++ names_of (form_fields (member_form_at form.now))) }
{
    match form {
        MemberForm::Fields { declarators, .. } => {
            note_declarators(names, declarators)?;
            Ok(())
        }
        MemberForm::Routine { .. } => Ok(()),
        MemberForm::Proto { .. } => Ok(()),
    }
}

fn names_in<'a>(alloc: Global, members: &'a [Member]) -> Result<Vec<&'a Name>, AllocError>
    ensures { IfOk result (λ v. map (λ n. n.now) v.items ≡ names_of (fields_of members.now)) }
{
    let mut names = Vec::new(alloc);
    for member in members {
        note_member(&mut names, &member.form)?;
    }
    Ok(names)
}

/// The names of the fields of a class, in order.
pub(crate) fn names_of_fields<'a>(
    alloc: Global,
    class: &'a Class,
) -> Result<Vec<&'a Name>, AllocError>
    ensures { IfOk result (λ v. map (λ n. n.now) v.items ≡ names_of (fields_of class.now.members)) }
{
    names_in(alloc, &class.members)
}
