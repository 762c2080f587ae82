// The classes and the constants of a program, in textual order.

ghost use Rattle.std.specs.Prelude.{◌≡◌, IfOk, List, ◌∷◌, MatchOption, map};
ghost use Rattle.uc_tree.specs.Cells.{classes_of};
ghost use Rattle.uc_tree.specs.Constants.{constants_of};
ghost use Rattle.uc_tree.specs.Programs.{Item};

use std::alloc::{AllocError, Global};
use uc_tree::class::Class;
use uc_tree::program::{Constant, Item, ItemForm};

// The constant that an item is.
fn constant_in(item: &Item) -> Option<&Constant>
    ensures { MatchOption result ((is : List Item) →
        constants_of (item.now ∷ is) ≡ constants_of is) (λ c. (is : List Item) →
        constants_of (item.now ∷ is) ≡ c.now ∷ constants_of is) }
{
    match &item.form {
        ItemForm::Class { .. } => None,
        ItemForm::Routine { .. } => None,
        ItemForm::Constant { constant } => Some(constant),
        ItemForm::Proto { .. } => None,
        ItemForm::Forward { .. } => None,
        ItemForm::Using { .. } => None,
    }
}

// The class that an item is.
fn class_in(item: &Item) -> Option<&Class>
    ensures { MatchOption result ((is : List Item) →
        classes_of (item.now ∷ is) ≡ classes_of is) (λ c. (is : List Item) →
        classes_of (item.now ∷ is) ≡ c.now ∷ classes_of is) }
{
    match &item.form {
        ItemForm::Class { class } => Some(class),
        ItemForm::Routine { .. } => None,
        ItemForm::Constant { .. } => None,
        ItemForm::Proto { .. } => None,
        ItemForm::Forward { .. } => None,
        ItemForm::Using { .. } => None,
    }
}

/// The constants among these items.
pub fn constants_in<'a>(alloc: Global, items: &'a [Item]) -> Result<Vec<&'a Constant>, AllocError>
    ensures { IfOk result (λ v. map (λ c. c.now) v.items ≡ constants_of items.now) }
{
    let mut found = Vec::new(alloc);
    for item in items {
        if let Some(constant) = constant_in(item) {
            found.push(constant)?;
        }
    }
    Ok(found)
}

/// The classes among these items, events included.
pub fn classes_in<'a>(alloc: Global, items: &'a [Item]) -> Result<Vec<&'a Class>, AllocError>
    ensures { IfOk result (λ v. map (λ c. c.now) v.items ≡ classes_of items.now) }
{
    let mut found = Vec::new(alloc);
    for item in items {
        if let Some(class) = class_in(item) {
            found.push(class)?;
        }
    }
    Ok(found)
}
