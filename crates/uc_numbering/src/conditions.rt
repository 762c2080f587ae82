// The numbers of conditions.

ghost use Rattle.std.specs.Prelude.{◌≡◌, ◌++◌, IfOk, OnOk, map, option_and_then};
ghost use Rattle.uc_tree.specs.declared.limits.TheConstants.{LAST_CONDITION};
ghost use Rattle.uc_tree.specs.Capped.{capped};
ghost use Rattle.uc_tree.specs.Constants.{constants_of};
ghost use Rattle.uc_tree.specs.Cells.{seen_in};
ghost use Rattle.uc_tree.specs.Numbering.{at_most, condition_count, condition_number, condition_number_in, conditions_of, elements_of, form_conditions};
ghost use Rattle.uc_tree.specs.ProgramViews.{member_form_at};

use std::alloc::{AllocError, Global};
use uc_layout::sizes::Sizes;
use uc_tree::class::{Class, Member, MemberForm};
use uc_tree::declare::Declarator;
use uc_tree::kinds::Base;
use uc_tree::limits::LAST_CONDITION;
use uc_tree::name::Name;

fn push_declarators<'a>(
    found: &mut Vec<&'a Declarator>,
    declarators: &'a [Declarator],
) -> Result<(), AllocError>
    ensures { OnOk result (map (λ d. d.now) found.new.items
        ≡ map (λ d. d.now) found.old.items ++ declarators.now) }
{
    for declarator in declarators {
        found.push(declarator)?;
    }
    Ok(())
}

fn push_form<'a>(found: &mut Vec<&'a Declarator>, form: &'a MemberForm) -> Result<(), AllocError>
    ensures { OnOk result (map (λ d. d.now) found.new.items
        ≡ map (λ d. d.now) found.old.items ++ form_conditions (member_form_at form.now)) }
{
    match form {
        MemberForm::Fields {
            base,
            declarators,
            ..
        } => match base {
            Base::Void => Ok(()),
            Base::Int => Ok(()),
            Base::Char => Ok(()),
            Base::Bool => Ok(()),
            Base::Condition => {
                push_declarators(found, declarators)?;
                Ok(())
            }
            Base::Cluster => Ok(()),
            Base::Processor => Ok(()),
            Base::Named(_) => Ok(()),
        },
        MemberForm::Routine { .. } => Ok(()),
        MemberForm::Proto { .. } => Ok(()),
    }
}

/// The conditions of a class, as their declarators in textual order.
pub fn conditions_in<'a>(
    alloc: Global,
    members: &'a [Member],
) -> Result<Vec<&'a Declarator>, AllocError>
    ensures { IfOk result (λ v. map (λ d. d.now) v.items ≡ conditions_of members.now) }
{
    let mut found = Vec::new(alloc);
    for member in members {
        push_form(&mut found, &member.form)?;
    }
    Ok(found)
}

fn condition_at(number: u64) -> Option<u16>
    ensures { result ≡ at_most LAST_CONDITION number }
{
    if number <= u64::from(LAST_CONDITION) {
        Some(number as u16)
    } else {
        None
    }
}

// The number of a condition among these of a class.
fn number_among(
    sizes: &Sizes,
    class: &Class,
    conditions: &[&Declarator],
    name: &Name,
) -> Option<u16>
    ensures { result ≡ option_and_then (at_most LAST_CONDITION)
        (condition_number_in (seen_in (constants_of sizes.now.items) class.now) 0
        (map (λ d. d.now) conditions.now) name.now) }
{
    let mut number: u64 = 0;
    for declarator in conditions {
        if number > u64::from(LAST_CONDITION) {
            return None;
        }
        if declarator.name.is(name.bytes()) {
            return condition_at(number);
        }
        number += u64::from(sizes.elements_in(class, declarator));
    }
    None
}

/// The number of the condition of this name in a class, where an array has the number of its first element.
pub fn condition_number(
    alloc: Global,
    sizes: &Sizes,
    class: &Class,
    name: &Name,
) -> Result<Option<u16>, AllocError>
    ensures { IfOk result (λ number. number ≡ condition_number sizes.now class.now name.now) }
{
    let conditions = conditions_in(alloc, &class.members)?;
    let number = number_among(sizes, class, &conditions, name);
    Ok(number)
}

/// How many conditions a class has, an array counted by its length. The place is that of the class among the classes of the
/// program, events included. A class that has itself in its fields, directly or through others, has none. The greatest number
/// stands for all that are greater.
pub fn condition_count(
    alloc: Global,
    sizes: &Sizes,
    place: usize,
    class: &Class,
) -> Result<u64, AllocError>
    ensures { IfOk result (λ count. count ≡ capped (condition_count sizes.now place class.now)) }
{
    if sizes.has_itself(place) {
        return Ok(0);
    }
    let conditions = conditions_in(alloc, &class.members)?;
    let count = count_of(sizes, class, &conditions);
    Ok(count)
}

fn count_of(sizes: &Sizes, class: &Class, conditions: &[&Declarator]) -> u64
    ensures { result ≡ capped
        (elements_of (seen_in (constants_of sizes.now.items) class.now)
        (map (λ d. d.now) conditions.now)) }
{
    let mut count: u64 = 0;
    for declarator in conditions {
        count = count.saturating_add(u64::from(sizes.elements_in(class, declarator)));
    }
    count
}
