// The first break found so far.

ghost use Rattle.std.specs.Prelude.{◌≡◌, Bool, None, Some, false, true};
ghost use Rattle.uc_rules.specs.Asked.{unless};
ghost use Rattle.uc_rules.specs.Firsts.{after, before, is_owner_number, sooner};

use std::marker::Model;
use uc_rules::rule::{Break, Rule};
use uc_tree::pos::Pos;

/// The first break found so far. Contracts see it as an option.
#[derive(Drop)]
pub struct Found {
    first: Option<Break>,
}

impl Model for Found {
    ghost use Rattle.std.specs.Prelude.{Option};
    ghost use Rattle.uc_rules.specs.declared.rule.Break.{Break};

    ghost Value = { Option Break };

    ghost view = { λ a. a.first };
}

impl Found {
    /// No break.
    pub fn new() -> Found
        ensures { result ≡ None }
    {
        Found { first: None }
    }

    /// The first break.
    pub fn first(&self) -> Option<Break>
        ensures { result ≡ self.now }
    {
        self.first
    }

    /// Whether a break of this rule at this place would be the first. Where it would not, what it rests on need not be tested.
    #[tactic(auto, using(crate::proofs::Open::opening))]
    pub fn is_open(&self, rule: Rule, pos: Pos) -> bool
        ensures open { result ≡ true →
            after self.now (unless false rule pos) ≡ Some (record { rule = rule; pos = pos }) }
        ensures shut { result ≡ false → (holds : Bool) →
            after self.now (unless holds rule pos) ≡ self.now }
    {
        match self.first {
            None => true,
            Some(old) => is_before(Break { rule, pos }, old),
        }
    }

    /// One more break.
    pub fn note(&mut self, rule: Rule, pos: Pos)
        ensures { self.new ≡ sooner self.old (record { rule = rule; pos = pos }) }
    {
        let new = Break { rule, pos };
        match self.first {
            None => self.first = Some(new),
            Some(old) => {
                if is_before(new, old) {
                    self.first = Some(new);
                }
            }
        }
    }

    /// A break where the test fails.
    pub fn note_unless(&mut self, holds: bool, rule: Rule, pos: Pos)
        ensures { self.new ≡ after self.old (unless holds rule pos) }
    {
        if !holds {
            self.note(rule, pos);
        }
    }
}

fn is_owner_number(number: u8) -> bool
    ensures { result ≡ is_owner_number number }
{
    24 < number
}

fn is_before(a: Break, b: Break) -> bool
    ensures { result ≡ before a b }
{
    let number = a.rule.number();
    let other = b.rule.number();
    (!is_owner_number(number) && is_owner_number(other))
        || (!(is_owner_number(number) && !is_owner_number(other))
            && (a.pos.line < b.pos.line
                || (a.pos.line == b.pos.line
                    && (a.pos.col < b.pos.col || (a.pos.col == b.pos.col && number < other)))))
}
