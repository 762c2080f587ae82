// A seat, and the value that it has out.
ghost use Rattle.std.specs.Prelude.{◌≡◌, false, []};
ghost use Rattle.std.specs.Borrow.{sem};
ghost use Rattle.uc_lock.specs.Rule.{kept_of};
ghost use Rattle.uc_lock.specs.Meanings.{summary};
ghost use Rattle.uc_lock.specs.declared.view.Stage.TheVariants.{Idle};
ghost use Rattle.uc_lock.specs.Lending.{LendsValue};

use crate::Journaled;
use crate::view::Token;
use std::marker::Model;

/// What a thread takes and gives with. Contracts see which lock it is of and what that was made with, the seat's number,
/// whether it has the value out, the journal that it has seen, and its own items.
#[derive(Drop)]
pub struct Seat<V: Journaled> {
    pub(crate) token: Token<V>,
    // The number that is served while the seat has the turn.
    pub(crate) ticket: u64,
    pub(crate) number: u32,
}

impl<V: Journaled> Model for Seat<V> {
    ghost use Rattle.std.specs.Prelude.{◌≡◌, false, []};
    ghost use Rattle.uc_lock.specs.Meanings.{Sitting, Rests, has_turn};

    ghost Value = { Sitting V.Key V.Item };

    ghost view = { λ s. record { lock = s.token.table_id; terms = s.token.me.0.terms; number = s.number; holds = has_turn s.token.me.0.stage; seen = s.token.me.0.seen; own = s.token.me.0.own } };

    ghost invariant = { λ s. (s.token.me.0.spent ≡ false) × (s.token.me.0.joined ≡ []) × (s.number ≡ s.token.me.0.number) × Rests s.ticket s.token.me.1 s.token.me.0.stage };
}

impl<V: Journaled> Seat<V> {
    // A seat that does not have the value out.
    pub(crate) fn of(token: Token<V>, number: u32) -> Seat<V>
        requires number { number ≡ token.me.0.number }
        requires idle { (token.me.0.stage ≡ Idle) × (token.me.1 ≡ []) }
        requires open { (token.me.0.spent ≡ false) × (token.me.0.joined ≡ []) }
        ensures { result ≡ record {
          lock = token.table_id;
          terms = token.me.0.terms;
          number = number;
          holds = false;
          seen = token.me.0.seen;
          own = token.me.0.own;
        } }
    {
        Seat {
            token,
            ticket: 0,
            number,
        }
    }

    // The plain seat, idle and with nothing of other seats.
    pub(crate) fn into_token(self) -> Token<V>
        requires { self.holds ≡ false }
        ensures lock { result.table_id ≡ self.lock }
        ensures idle { (result.me.0.stage ≡ Idle) × (result.me.1 ≡ []) }
        ensures open { (result.me.0.spent ≡ false) × (result.me.0.joined ≡ []) }
        ensures terms { result.me.0.terms ≡ self.terms }
        ensures summary { kept_of result.me.0 ≡ summary self }
    {
        let Seat {
            token,
            ticket: _,
            number: _,
        } = self;
        token
    }

    /// The seat's number, which its items carry as their maker.
    pub fn number(&self) -> u32
        ensures { result ≡ self.now.number }
    {
        self.number
    }
}

/// The value, out of the lock. It may not be dropped, so it ends in `give`. Contracts see it as the value.
pub struct Held<V> {
    pub(crate) inner: V,
}

impl<V> Model for Held<V> {
    ghost use Rattle.std.specs.Prelude.{◌≡◌};

    ghost Value = { V };

    ghost view = { λ h. h.inner };
}

impl<V> Held<V> {
    /// The value. What is written to it stays.
    pub fn value(&mut self) -> &mut V
        ensures* writes_back { sem 𝓛 (LendsValue V.row self.entry result) }
        ensures value { result.now ≡ self.old }
    {
        &mut self.inner
    }
}
