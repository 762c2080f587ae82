// Tables of items by name.

ghost use Rattle.std.specs.Prelude.{◌≡◌, IfOk, None, Some, option_map};
ghost use Rattle.uc_tree.specs.Statements.{stmts_of};
ghost use Rattle.uc_rules.specs.ClassBreaks.{is_empty_body};
ghost use Rattle.uc_rules.specs.ItemBreaks.{outer_name};
ghost use Rattle.uc_rules.specs.Names.{is_constructor, is_here};
ghost use Rattle.uc_check_index.specs.Firsts.{AreFirsts};
ghost use Rattle.uc_check_index.specs.Topics.{built_by, built_class, class_name, class_of, constant_name, forward_name, name_of, proto_name, routine_name};

use crate::firsts::{no_firsts, note_name};
use crate::topics::NameTopic;
use std::alloc::{AllocError, Global};
use uc_names::scope::Scope;
use uc_tree::class::{Routine, Sig};
use uc_tree::kinds::{Owner, Role};
use uc_tree::name::Name;
use uc_tree::program::{Item, ItemForm};
use uc_tree::stmt::Stmt;

/// Whether it stands for itself, in no class.
pub fn is_here(owner: &Owner) -> bool
    ensures { result ≡ is_here owner.now }
{
    matches!(owner, Owner::Here)
}

fn is_constructor(role: Role) -> bool
    ensures { result ≡ is_constructor role }
{
    matches!(role, Role::Constructor)
}

fn is_empty_body(body: &[Stmt]) -> bool
    ensures { result ≡ is_empty_body (stmts_of body.now) }
{
    body.first().is_none()
}

fn outer_name(sig: &Sig) -> Option<&Name>
    ensures { option_map (λ n. n.now) result ≡ outer_name sig.now }
{
    if is_here(&sig.owner) {
        Some(&sig.name)
    } else {
        None
    }
}

fn class_of(owner: &Owner) -> Option<&Name>
    ensures { option_map (λ n. n.now) result ≡ class_of owner.now }
{
    match owner {
        Owner::Class(name) => Some(name),
        _ => None,
    }
}

fn built_by(routine: &Routine) -> Option<&Name>
    ensures { option_map (λ n. n.now) result ≡ built_by routine.now }
{
    if is_constructor(routine.sig.role) && !is_empty_body(&routine.body) {
        class_of(&routine.sig.owner)
    } else {
        None
    }
}

fn class_name(item: &Item) -> Option<&Name>
    ensures { option_map (λ n. n.now) result ≡ class_name item.now }
{
    match &item.form {
        ItemForm::Class { class } => Some(&class.name),
        _ => None,
    }
}

fn forward_name(item: &Item) -> Option<&Name>
    ensures { option_map (λ n. n.now) result ≡ forward_name item.now }
{
    match &item.form {
        ItemForm::Forward { forward } => Some(&forward.name),
        _ => None,
    }
}

fn routine_name(item: &Item) -> Option<&Name>
    ensures { option_map (λ n. n.now) result ≡ routine_name item.now }
{
    match &item.form {
        ItemForm::Routine { routine } => outer_name(&routine.sig),
        _ => None,
    }
}

fn proto_name(item: &Item) -> Option<&Name>
    ensures { option_map (λ n. n.now) result ≡ proto_name item.now }
{
    match &item.form {
        ItemForm::Proto { sig } => Some(&sig.name),
        _ => None,
    }
}

fn constant_name(item: &Item) -> Option<&Name>
    ensures { option_map (λ n. n.now) result ≡ constant_name item.now }
{
    match &item.form {
        ItemForm::Constant { constant } => Some(&constant.name),
        _ => None,
    }
}

fn built_class(item: &Item) -> Option<&Name>
    ensures { option_map (λ n. n.now) result ≡ built_class item.now }
{
    match &item.form {
        ItemForm::Routine { routine } => built_by(routine),
        _ => None,
    }
}

fn name_of(topic: NameTopic, item: &Item) -> Option<&Name>
    ensures { option_map (λ n. n.now) result ≡ name_of topic item.now }
{
    match topic {
        NameTopic::Class => class_name(item),
        NameTopic::Forward => forward_name(item),
        NameTopic::Routine => routine_name(item),
        NameTopic::Proto => proto_name(item),
        NameTopic::Constant => constant_name(item),
        NameTopic::Builder => built_class(item),
    }
}

/// The first place of each name on a topic.
pub fn firsts_by_name(alloc: Global, items: &[Item], topic: NameTopic) -> Result<Scope, AllocError>
    ensures { IfOk result (λ firsts. AreFirsts (name_of topic) items.now firsts) }
{
    let mut firsts = no_firsts(alloc)?;
    for (place, item) in items.iter().enumerate() {
        note_name(&mut firsts, name_of(topic, item), place)?;
    }
    Ok(firsts)
}
