// What is looked up of the members of classes: the parameters of their constructors, and the names of their mutex members.

ghost use Rattle.std.specs.Prelude.{◌≡◌, [], IfOk, map, option_map, slice_get, unwrap_or};
ghost use Rattle.uc_types.specs.Members.{built_with};

use crate::tables::constructor_among;
use std::alloc::{AllocError, Global};
use uc_tree::class::Class;
use uc_tree::kinds::Param;
use uc_tree::name::Name;

fn params_of(class: &Class) -> &[Param]
    ensures { result.now ≡ built_with class.now }
{
    match constructor_among(&class.members) {
        Some(sig) => &sig.params,
        None => &[],
    }
}

/// What objects of each of these classes are built with.
pub fn params_in_each<'a>(
    alloc: Global,
    classes: &[&'a Class],
) -> Result<Vec<&'a [Param]>, AllocError>
    ensures { IfOk result (λ v. map (λ x. x.now) v.items
        ≡ map built_with (map (λ c. c.now) classes.now)) }
{
    let mut all = Vec::new(alloc);
    for class in classes {
        let class: &'a Class = class;
        all.push(params_of(class))?;
    }
    Ok(all)
}

/// The parameters with this place, none beyond the last.
pub fn params_at<'a>(all: &[&'a [Param]], class: usize) -> &'a [Param]
    ensures { result.now ≡ unwrap_or (option_map (λ x. x.now) (slice_get all.now class)) [] }
{
    match all.get(class) {
        Some(params) => params,
        None => &[],
    }
}

/// The names with this place, none beyond the last.
pub fn names_at<'x>(all: &'x [Vec<&'x Name>], class: usize) -> &'x [&'x Name]
    ensures { map (λ n. n.now) result.now
        ≡ unwrap_or (option_map (λ ns. map (λ n. n.now) ns.items) (slice_get all.now class)) [] }
{
    if let Some(names) = all.get(class) {
        return names.as_slice();
    }
    &[]
}
