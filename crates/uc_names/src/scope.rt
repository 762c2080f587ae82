// Blocks of names.

ghost use Rattle.std.specs.Prelude.{◌≡◌, ◌<◌, ◌≤◌, ◌-◌, [], ◌∷◌, IfOk, OnOk, OnErr, not, is_some, length, drop, get_or, reverse, if◌then◌else◌};
ghost use Rattle.uc_names.specs.Blocks.{declared, found, id_in, is_declared};
ghost use Rattle.uc_names.specs.Kept.{Agrees, bindings, is_from, newer_than};

use crate::newest::Newest;
use std::alloc::{AllocError, Global};
use std::marker::Model;

/// A declaration: the number of its name, its id, and the place of the newest declaration that it hides, which its name has
/// again when its block is closed.
#[derive(Clone, Copy)]
struct Declaration {
    name: usize,
    id: u32,
    hidden: Option<usize>,
}

/// Nested blocks of names. In each block a name is declared at most once, and hides declarations of its name in the blocks
/// around it. Contracts see the open blocks, the innermost first: each is the names that it declares with their ids.
#[derive(Drop)]
pub struct Scope {
    names: Newest,
    declared: Vec<Declaration>,
    starts: Vec<usize>,
}

impl Model for Scope {
    ghost use Rattle.std.specs.Prelude.{List, length, reverse};
    ghost use Rattle.uc_names.specs.Blocks.{Block};

    ghost Value = { List Block };

    ghost use Rattle.uc_names.specs.Kept.{Agrees, bindings, parted, Starts};

    ghost view = { λ a. parted (bindings a.names a.declared.items) (reverse a.starts.items) };

    ghost invariant = { λ a. Agrees a.names (reverse a.declared.items) × Starts (length a.declared.items) (reverse a.starts.items) };
}

impl Scope {
    /// No open block.
    pub fn new(alloc: Global) -> Scope
        ensures { result ≡ [] }
    {
        Scope {
            names: Newest::new(alloc),
            declared: Vec::new(alloc),
            starts: Vec::new(alloc),
        }
    }

    /// Opens a block in the innermost one.
    pub fn open(&mut self) -> Result<(), AllocError>
        ensures opened { OnOk result (self.new ≡ [] ∷ self.old) }
        ensures err { OnErr result (self.new ≡ self.old) }
    {
        self.starts.push(self.declared.len())?;
        Ok(())
    }

    /// Declares a name in the innermost block, and says whether it did: a name that stands there already keeps its id.
    pub fn declare(&mut self, name: &[u8], id: u32) -> Result<bool, AllocError>
        requires { 0 < length self.old }
        ensures answer { IfOk result (λ new. new ≡ not (is_declared self.old name.now)) }
        ensures declared { IfOk result (λ new. self.new
            ≡ (if new then declared self.old name.now id else self.old)) }
        ensures err { OnErr result (self.new ≡ self.old) }
    {
        let start = innermost(&self.starts);
        let new = declare_from(&mut self.names, &mut self.declared, start, name, id)?;
        Ok(new)
    }

    /// The id of the innermost declaration of a name, none where no open block declares it.
    pub fn find(&self, name: &[u8]) -> Option<u32>
        ensures { result ≡ found self.now name.now }
    {
        match self.names.place_of(name) {
            Some(place) => Some(self.declared[place].id),
            None => None,
        }
    }

    /// Closes the innermost block. What its declarations hid is seen again.
    pub fn close(&mut self)
        requires { 0 < length self.old }
        ensures { self.new ≡ drop 1 self.old }
    {
        if let Some(start) = self.starts.pop() {
            take_back(&mut self.names, &mut self.declared, start);
        }
    }
}

// The place where the innermost block starts.
fn innermost(starts: &[usize]) -> usize
    ensures { result ≡ get_or (reverse starts.now) 0 0 }
{
    match starts.last() {
        Some(start) => *start,
        None => 0,
    }
}

// Whether a declaration stands in the block that starts here.
fn is_from(place: Option<usize>, start: usize) -> bool
    ensures { result ≡ is_from start place }
{
    match place {
        Some(place) => start <= place,
        None => false,
    }
}

// Declares a name, where no declaration from this place on does.
fn declare_from(
    names: &mut Newest,
    declared: &mut Vec<Declaration>,
    start: usize,
    name: &[u8],
    id: u32,
) -> Result<bool, AllocError>
    requires { Agrees names.old (reverse declared.old.items) }
    ensures agrees { Agrees names.new (reverse declared.new.items) }
    ensures answer { IfOk result (λ new. new
        ≡ not (is_some (id_in (newer_than start (bindings names.old declared.old.items)) name.now))) }
    ensures declared { IfOk result (λ new. bindings names.new declared.new.items
        ≡ (if new then (name.now, id) ∷ bindings names.old declared.old.items
        else bindings names.old declared.old.items)) }
    ensures err { OnErr result (bindings names.new declared.new.items
        ≡ bindings names.old declared.old.items) }
{
    let number = names.see(name)?;
    let hidden = names.place(number);
    if is_from(hidden, start) {
        return Ok(false);
    }
    let place = declared.len();
    declared.push(Declaration {
        name: number,
        id,
        hidden,
    })?;
    names.set_place(number, Some(place));
    Ok(true)
}

// Takes declarations back until so many are left.
fn take_back(names: &mut Newest, declared: &mut Vec<Declaration>, start: usize)
    requires agrees { Agrees names.old (reverse declared.old.items) }
    requires within { start ≤ length declared.old.items }
    ensures agrees { Agrees names.new (reverse declared.new.items) }
    ensures declared { bindings names.new declared.new.items
        ≡ drop (length declared.old.items - start) (bindings names.old declared.old.items) }
{
    for _place in start..declared.len() {
        match declared.pop() {
            Some(declaration) => names.set_place(declaration.name, declaration.hidden),
            None => return,
        }
    }
}
