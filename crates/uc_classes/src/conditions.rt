// How many conditions a class has, with the names of its members in a table.

ghost use Rattle.std.specs.Prelude.{◌≡◌, ℕ, List, IfOk, is_some, map};
ghost use Rattle.std.specs.List.{list_any};
ghost use Rattle.uc_tree.specs.Capped.{capped};
ghost use Rattle.uc_tree.specs.Cells.{member_form_named, seen_in};
ghost use Rattle.uc_tree.specs.Constants.{constants_of, elements};
ghost use Rattle.uc_tree.specs.Numbering.{condition_count, conditions_of, elements_of};
ghost use Rattle.uc_types.specs.Lengths.{lengths_by};

use std::alloc::{AllocError, Global};
use uc_layout::held::elements_of;
use uc_layout::known::names_of_members;
use uc_numbering::conditions::conditions_in;
use uc_tree::class::Class;
use uc_tree::declare::Declarator;
use uc_types::listing::Lengths;
use uc_types::tables::Tables;

// A class whose conditions are counted, with its lengths.
#[derive(Clone, Copy)]
struct ConditionCount<'a> {
    tables: &'a Tables<'a>,
    class: &'a Class,
    lengths: Lengths<'a>,
    ghost lengths_are: { lengths_by lengths ≡ seen_in (constants_of tables.now.items) class.now },
}

fn count_of(counted: &ConditionCount, declarator: &Declarator) -> u32
    ensures { result ≡ elements
        (seen_in (constants_of counted.now.tables.now.items) counted.now.class.now) declarator.now }
{
    elements_of(&counted.lengths, declarator)
}

fn sum_of(counted: &ConditionCount, conditions: &[&Declarator]) -> u64
    ensures { result ≡ capped
        (elements_of (seen_in (constants_of counted.now.tables.now.items) counted.now.class.now)
        (map (λ d. d.now) conditions.now)) }
{
    let mut count: u64 = 0;
    for declarator in conditions {
        count = count.saturating_add(u64::from(count_of(counted, declarator)));
    }
    count
}

fn count_among<'x>(
    alloc: Global,
    tables: &'x Tables<'x>,
    class: &'x Class,
    conditions: &[&Declarator],
) -> Result<u64, AllocError>
    ensures { IfOk result (λ count. count
        ≡ capped (elements_of (seen_in (constants_of tables.now.items) class.now)
        (map (λ d. d.now) conditions.now))) }
{
    if conditions.is_empty() {
        return Ok(0);
    }
    let names = names_of_members(alloc, &class.members)?;
    let lengths = Lengths {
        sizes: tables.sizes(),
        members: &names,
    };
    let counted = ConditionCount {
        tables,
        class,
        lengths,
    };
    let count = sum_of(&counted, conditions);
    drop(names);
    Ok(count)
}

/// How many conditions the class with this place has, an array counted by its length; none where it has itself in its fields.
/// The greatest number stands for all that are greater.
pub fn count_conditions<'x>(
    alloc: Global,
    tables: &'x Tables<'x>,
    place: usize,
    class: &'x Class,
) -> Result<u64, AllocError>
    ensures { IfOk result (λ count. count ≡ capped (condition_count tables.now place class.now)) }
{
    if tables.sizes().has_itself(place) {
        return Ok(0);
    }
    let conditions = conditions_in(alloc, &class.members)?;
    count_among(alloc, tables, class, &conditions)
}
