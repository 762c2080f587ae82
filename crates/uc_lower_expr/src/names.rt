// What names stand for.

ghost use Rattle.std.specs.Prelude.{◌≡◌, ◌||◌, MatchOption, None};
ghost use Rattle.uc_resolve.specs.Resolve.{has_number, known_named};
ghost use Rattle.uc_lower_expr.specs.Parts.{IsVariable, standing_by};

use crate::fields::value_of_base;
use crate::meaning::{ExprMeaning, Standing};
use crate::program_names::ProgramNames;
use uc_code::draft::Draft;
use uc_tree::kinds::Ty;
use uc_tree::name::Name;

/// A variable in scope: the first of its cells, whether that holds a place or a number, as that of a reference, a mutex object, a
/// cluster or a processor does, and what is told of it.
#[derive(Clone, Copy)]
pub struct Variable {
    pub cell: u32,
    pub held: bool,
    pub told: ExprMeaning,
}

// What is known by its number is the number that it holds, a reference is the place.
fn standing_of(number: bool, by_ref: bool, cell: u32) -> Standing
    ensures { result ≡ standing_by number by_ref cell }
{
    if number {
        Standing::Number
    } else if by_ref {
        Standing::Place
    } else {
        Standing::Variable(cell)
    }
}

fn is_held(number: bool, by_ref: bool) -> bool
    ensures { result ≡ (number || by_ref) }
{
    number || by_ref
}

pub(crate) fn variable_named(out: &Draft, names: &ProgramNames, name: &Name) -> Option<Variable>
    ensures { MatchOption result (known_named out.now.names name.now
        ≡ None) (λ v. IsVariable names.now out.now.names name.now v) }
{
    match out.find(name.bytes()) {
        Some(known) => {
            let number = has_number(&known.ty, names);
            Some(Variable {
                cell: known.cell,
                held: is_held(number, known.ty.by_ref),
                told: ExprMeaning {
                    elements: known.ty.len,
                    standing: standing_of(number, known.ty.by_ref, known.cell),
                    ..value_of_base(names.sizes(), &known.ty.base)
                },
            })
        }
        None => None,
    }
}

// Whether what has this type is known by its number: an array is not.
fn has_number(ty: &Ty, names: &ProgramNames) -> bool
    ensures { result ≡ has_number names.now ty.now }
{
    ty.len.is_none() && names.sizes().is_numbered(&ty.base)
}
