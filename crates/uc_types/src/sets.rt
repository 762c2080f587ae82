// Sets of names, as tables in which each name stands once.

ghost use Rattle.std.specs.Prelude.{◌≡◌, ◌<◌, ◌||◌, ℕ, List, false, IfOk, OnOk, is_some, length};
ghost use Rattle.std.specs.List.{list_any};
ghost use Rattle.uc_tree.specs.Names.{same_name};
ghost use Rattle.uc_names.specs.Blocks.{found};

use std::alloc::{AllocError, Global};
use uc_names::scope::Scope;
use uc_tree::class::Init;
use uc_tree::kinds::Param;
use uc_tree::name::Name;

/// No names.
pub fn no_names(alloc: Global) -> Result<Scope, AllocError>
    ensures open { IfOk result (λ names. 0 < length names) }
    ensures none { IfOk result (λ names. (x : List ℕ) → is_some (found names x) ≡ false) }
{
    let mut names = Scope::new(alloc);
    names.open()?;
    Ok(names)
}

/// One more name.
pub fn note_name(names: &mut Scope, name: &Name) -> Result<(), AllocError>
    requires { 0 < length names.old }
    ensures open { OnOk result (0 < length names.new) }
    ensures noted { OnOk result ((x : List ℕ) →
        is_some (found names.new x) ≡ (is_some (found names.old x) || same_name name.now x)) }
{
    names.declare(name.bytes(), 0)?;
    Ok(())
}

/// Whether a name is among them.
pub fn has_name(names: &Scope, name: &Name) -> bool
    ensures { result ≡ is_some (found names.now name.now) }
{
    names.find(name.bytes()).is_some()
}

/// The names of these parameters.
pub fn names_of_params(alloc: Global, params: &[Param]) -> Result<Scope, AllocError>
    ensures { IfOk result (λ names. (x : List ℕ) →
        is_some (found names x) ≡ list_any (λ p. same_name p.name x) params.now) }
{
    let mut names = no_names(alloc)?;
    for param in params {
        note_name(&mut names, &param.name)?;
    }
    Ok(names)
}

/// The names of these initialisers.
pub fn names_of_inits(alloc: Global, inits: &[Init]) -> Result<Scope, AllocError>
    ensures { IfOk result (λ names. (x : List ℕ) →
        is_some (found names x) ≡ list_any (λ i. same_name i.name x) inits.now) }
{
    let mut names = no_names(alloc)?;
    for init in inits {
        note_name(&mut names, &init.name)?;
    }
    Ok(names)
}
