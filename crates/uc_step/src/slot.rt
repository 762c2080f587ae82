// Where the requests of a task are written.

ghost use Rattle.std.specs.Prelude.{◌≡◌, ◌∷◌, [], true, false, Some, None};
ghost use Rattle.uc_entry.specs.declared.request.Asked.{Asked};
ghost use Rattle.uc_entry.specs.declared.request.Request.TheVariants as ask;
ghost use Rattle.uc_frames.specs.Machine.{request_of};
ghost use Rattle.uc_machine.specs.Quiet.{print_of};
ghost use Rattle.uc_step.specs.Effects.{PrintsOne};

use std::marker::Model;
use uc_entry::request::{Asked, Piece, Request};
use uc_frames::pieces::{Pieces, put_print};

/// The room for what a task asks, each request over the one before it. It knows where that prints one item: behind it all is blank,
/// so that the next item is written alone. Contracts see what was asked last.
#[derive(Drop)]
pub struct Slot {
    pub(crate) asked: Asked,
    pub(crate) is_item: bool,
}

impl Model for Slot {
    ghost use Rattle.std.specs.Prelude.{◌≡◌, true};
    ghost use Rattle.uc_entry.specs.declared.request.Asked.{Asked};
    ghost use Rattle.uc_step.specs.Effects.{PrintsOne};

    ghost Value = { Asked };

    ghost view = { λ s. s.asked };

    ghost invariant = { λ s. s.is_item ≡ true → PrintsOne s.asked.request };
}

impl Slot {
    /// The end of the task is asked.
    pub fn new() -> Slot
        ensures { result ≡ record { request = ask.End; line = 0 } }
    {
        Slot {
            asked: Asked {
                request: Request::End,
                line: 0,
            },
            is_item: false,
        }
    }

    /// What was asked last.
    pub fn get(&self) -> &Asked
        ensures { result.now ≡ self.now }
    {
        &self.asked
    }

    /// Asks so, in this line.
    pub fn put(&mut self, request: Request, line: u32)
        ensures { self.new ≡ record { request = request; line = line } }
    {
        self.is_item = false;
        self.asked.line = line;
        self.asked.request = request;
    }

    /// Asks to print an item, in this line.
    #[inline(always)]
    pub fn put_item(&mut self, piece: Piece, line: u32)
        ensures { self.new ≡ record { request = print_of (piece ∷ []); line = line } }
    {
        self.asked.line = line;
        if self.is_item {
            put_over(&mut self.asked.request, piece);
        } else {
            put_print(&mut self.asked.request, &[piece]);
            self.is_item = true;
        }
    }

    /// Asks to print these items, in this line, if there are any; else what was asked last stays, but for its line. The answer is whether
    /// there are.
    pub fn put_items(&mut self, pieces: &Pieces, line: u32) -> bool
        ensures some { result ≡ true → request_of pieces.now ≡ Some self.new.request }
        ensures line { result ≡ true → self.new.line ≡ line }
        ensures none { result ≡ false → request_of pieces.now ≡ None }
        ensures stays { result ≡ false → self.new ≡ record { request = self.old.request; line = line } }
    {
        self.is_item = false;
        self.asked.line = line;
        pieces.put_request(&mut self.asked.request)
    }
}

// Another item in the place of the one that is printed.
#[inline(always)]
fn put_over(request: &mut Request, piece: Piece)
    requires { PrintsOne request.old }
    ensures { request.new ≡ print_of (piece ∷ []) }
{
    if let Request::Print { items, .. } = request {
        items[0] = piece;
    }
}
