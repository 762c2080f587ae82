// Tables of the first place of each key.

ghost use Rattle.std.specs.Prelude.{◌≡◌, ℕ, List, [], ◌∷◌, IfOk, OnOk, Option, Some, length, option_map};
ghost use Rattle.uc_names.specs.Blocks.{found};
ghost use Rattle.uc_check_index.specs.Firsts.{is_before, noted};

use std::alloc::{AllocError, Global};
use uc_names::scope::Scope;
use uc_tree::name::Name;

/// A table of no key.
pub fn no_firsts(alloc: Global) -> Result<Scope, AllocError>
    ensures { IfOk result (λ firsts. firsts ≡ [] ∷ []) }
{
    let mut firsts = Scope::new(alloc);
    firsts.open()?;
    Ok(firsts)
}

/// Notes a key at this place, where it stands at no place before. Memory is wanting where the place is not below 2^32.
pub fn note(firsts: &mut Scope, key: &[u8], place: usize) -> Result<(), AllocError>
    requires { length firsts.old ≡ 1 }
    ensures { OnOk result (firsts.new ≡ noted firsts.old (Some key.now) place) }
{
    match u32::try_from(place) {
        Ok(id) => {
            firsts.declare(key, id)?;
            Ok(())
        }
        Err(_) => Err(AllocError),
    }
}

/// The same of a name, where there is one.
pub fn note_name(firsts: &mut Scope, name: Option<&Name>, place: usize) -> Result<(), AllocError>
    requires { length firsts.old ≡ 1 }
    ensures { OnOk result (firsts.new
        ≡ noted firsts.old (option_map (λ n. n.now) name.entry) place) }
{
    match name {
        Some(name) => note(firsts, name.bytes(), place),
        None => Ok(()),
    }
}

/// The same of a key that was made, where there is one.
pub fn note_key(
    firsts: &mut Scope,
    key: Result<Option<Vec<u8>>, AllocError>,
    place: usize,
) -> Result<(), AllocError>
    requires { length firsts.old ≡ 1 }
    ensures { OnOk result ((bytes : Option (List ℕ)) →
        IfOk key (λ k. option_map (λ v. v.items) k ≡ bytes) →
        firsts.new ≡ noted firsts.old bytes place) }
{
    match key? {
        Some(key) => note(firsts, &key, place),
        None => Ok(()),
    }
}

/// The first place of a key.
pub fn first_in(firsts: &Scope, key: &[u8]) -> Option<usize>
    ensures { result ≡ found firsts.now key.now }
{
    match firsts.find(key) {
        Some(place) => Some(place as usize),
        None => None,
    }
}

/// Whether a place is one before this.
pub fn is_before(place: Option<usize>, end: usize) -> bool
    ensures { result ≡ is_before place end }
{
    match place {
        Some(place) => place < end,
        None => false,
    }
}
