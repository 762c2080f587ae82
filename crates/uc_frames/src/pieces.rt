// Items that are printed at once.

ghost use Rattle.std.specs.Prelude.{◌≡◌, ◌≤◌, ◌++◌, [], drop, length, replicate, OnOk, OnErr, true, false};
ghost use Rattle.uc_entry.specs.declared.request.Request.TheVariants as ask;
ghost use Rattle.uc_entry.specs.declared.request.TheConstants.{PRINT_ITEMS};
ghost use Rattle.uc_machine.specs.Quiet.{blank, with_piece, print_of};
ghost use Rattle.uc_frames.specs.Machine.{request_of};

use std::alloc::{AllocError, Global};
use std::marker::Model;
use uc_entry::request::{PRINT_ITEMS, Piece, Request};

/// At most as many items as one request prints, the first one first.
#[derive(Drop)]
pub struct Pieces {
    items: Vec<Piece>,
}

impl Model for Pieces {
    ghost use Rattle.std.specs.Prelude.{List, ◌≤◌, length};
    ghost use Rattle.uc_entry.specs.declared.request.TheConstants.{PRINT_ITEMS};
    ghost use Rattle.uc_entry.specs.declared.request.Piece.{Piece};

    ghost Value = { List Piece };

    ghost view = { λ p. p.items.items };

    ghost invariant = { λ p. length p.items.items ≤ PRINT_ITEMS };
}

impl Pieces {
    /// No item.
    pub fn new(alloc: Global) -> Pieces
        ensures { result ≡ [] }
    {
        Pieces {
            items: Vec::new(alloc),
        }
    }

    /// One more item, in front of the others, if there is room.
    pub fn add(&mut self, piece: Piece) -> Result<(), AllocError>
        ensures ok { OnOk result (self.new ≡ with_piece piece self.old) }
        ensures err { OnErr result (self.new ≡ self.old) }
    {
        if self.items.len() < PRINT_ITEMS as usize {
            self.items.insert(0, piece)?;
        }
        Ok(())
    }

    /// Writes the request to print these items where one is lent, if there are any; else that stays as it is. The answer is whether there
    /// are.
    pub fn put_request(&self, request: &mut Request) -> bool
        ensures some { result ≡ true → request_of self.now ≡ Some request.new }
        ensures none { result ≡ false → request_of self.now ≡ None }
        ensures stays { result ≡ false → request.new ≡ request.old }
    {
        if self.items.is_empty() {
            return false;
        }
        put_print(request, self.items.as_slice());
        true
    }
}

/// Writes the request to print these items where one is lent, so that its room is not copied.
#[inline(always)]
pub fn put_print(request: &mut Request, pieces: &[Piece])
    requires { length pieces.now ≤ PRINT_ITEMS }
    ensures { request.new ≡ print_of pieces.now }
{
    put_blanks(request, pieces.len() as u8);
    if let Request::Print { items, .. } = request {
        put_items(items, pieces);
    }
}

// So many items are printed, all blank.
#[inline(always)]
fn put_blanks(request: &mut Request, count: u8)
    ensures { request.new ≡ ask.Print count (replicate PRINT_ITEMS blank) }
{
    *request = Request::Print {
        n: count,
        items: [Piece { form: 0, value: 0 }; 32],
    };
}

// These are the first items.
#[inline(always)]
fn put_items(items: &mut [Piece; 32], pieces: &[Piece])
    requires { length pieces.now ≤ PRINT_ITEMS }
    ensures { items.new ≡ pieces.now ++ drop (length pieces.now) items.old }
{
    items[..pieces.len()].copy_from_slice(pieces);
}
