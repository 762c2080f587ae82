// The names of a program in tables.

ghost use Rattle.std.specs.Prelude.{◌≡◌, IfOk, map};
ghost use Rattle.uc_tree.specs.Cells.{classes_of};
ghost use Rattle.uc_types.specs.Members.{numbered_in};

use std::alloc::{AllocError, Global};
use uc_layout::lists::classes_in;
use uc_numbering::members::members_of;
use uc_tree::class::Class;
use uc_tree::name::Name;
use uc_tree::program::Program;
use uc_types::tables::Tables;

// The names of the mutex members of each of these classes, as far as they have numbers.
fn numbered_in_each<'a>(
    alloc: Global,
    classes: &[&'a Class],
) -> Result<Vec<Vec<&'a Name>>, AllocError>
    ensures { IfOk result (λ v. map (λ ns. map (λ n. n.now) ns.items) v.items
        ≡ map numbered_in (map (λ c. c.now) classes.now)) }
{
    let mut all = Vec::new(alloc);
    for class in classes {
        let class: &'a Class = class;
        all.push(members_of(alloc, class)?)?;
    }
    Ok(all)
}

fn numbered_in_classes<'a>(
    alloc: Global,
    program: &'a Program,
) -> Result<Vec<Vec<&'a Name>>, AllocError>
    ensures { IfOk result (λ v. map (λ ns. map (λ n. n.now) ns.items) v.items
        ≡ map numbered_in (classes_of program.now.items)) }
{
    let classes = classes_in(alloc, &program.items)?;
    numbered_in_each(alloc, &classes)
}

/// The names of a program.
pub fn tables_of<'a>(alloc: Global, program: &'a Program) -> Result<Tables<'a>, AllocError>
    ensures { IfOk result (λ t. t ≡ program.now) }
{
    let numbered = numbered_in_classes(alloc, program)?;
    Tables::new(alloc, program, numbered)
}
