// The rules of the language by their numbers and names, and the breaks of rules.

ghost use Rattle.std.specs.Prelude.{◌≡◌};
ghost use Rattle.uc_rules.specs.RuleNames.{rule_number, rule_name};

use uc_tree::pos::Pos;

/// The rules that a program keeps: those on its text, and those on who owns what.
#[derive(Clone, Copy)]
pub enum Rule {
    S1,
    S2,
    S3,
    S4,
    S5,
    S6,
    S7,
    S8,
    S9,
    S10,
    S11,
    S12,
    S13,
    S14,
    S15,
    S16,
    S17,
    S18,
    S19,
    S20,
    S21,
    S22,
    S23,
    S24,
    O1,
    O2,
    O3,
    O4,
    O5,
    O6,
    O7,
    O8,
    O9,
}

impl Rule {
    /// The number of the rule, from 1. Of the breaks at one place the one of the least number is told.
    pub fn number(self) -> u8
        ensures { result ≡ rule_number self }
    {
        match self {
            Rule::S1 => 1,
            Rule::S2 => 2,
            Rule::S3 => 3,
            Rule::S4 => 4,
            Rule::S5 => 5,
            Rule::S6 => 6,
            Rule::S7 => 7,
            Rule::S8 => 8,
            Rule::S9 => 9,
            Rule::S10 => 10,
            Rule::S11 => 11,
            Rule::S12 => 12,
            Rule::S13 => 13,
            Rule::S14 => 14,
            Rule::S15 => 15,
            Rule::S16 => 16,
            Rule::S17 => 17,
            Rule::S18 => 18,
            Rule::S19 => 19,
            Rule::S20 => 20,
            Rule::S21 => 21,
            Rule::S22 => 22,
            Rule::S23 => 23,
            Rule::S24 => 24,
            Rule::O1 => 25,
            Rule::O2 => 26,
            Rule::O3 => 27,
            Rule::O4 => 28,
            Rule::O5 => 29,
            Rule::O6 => 30,
            Rule::O7 => 31,
            Rule::O8 => 32,
            Rule::O9 => 33,
        }
    }

    /// What is said on err of a break of the rule.
    pub fn name(self) -> &'static [u8]
        ensures { result.now ≡ rule_name self }
    {
        match self {
            Rule::S1 => b"rule S1",
            Rule::S2 => b"rule S2",
            Rule::S3 => b"rule S3",
            Rule::S4 => b"rule S4",
            Rule::S5 => b"rule S5",
            Rule::S6 => b"rule S6",
            Rule::S7 => b"rule S7",
            Rule::S8 => b"rule S8",
            Rule::S9 => b"rule S9",
            Rule::S10 => b"rule S10",
            Rule::S11 => b"rule S11",
            Rule::S12 => b"rule S12",
            Rule::S13 => b"rule S13",
            Rule::S14 => b"rule S14",
            Rule::S15 => b"rule S15",
            Rule::S16 => b"rule S16",
            Rule::S17 => b"rule S17",
            Rule::S18 => b"rule S18",
            Rule::S19 => b"rule S19",
            Rule::S20 => b"rule S20",
            Rule::S21 => b"rule S21",
            Rule::S22 => b"rule S22",
            Rule::S23 => b"rule S23",
            Rule::S24 => b"rule S24",
            Rule::O1 => b"rule O1",
            Rule::O2 => b"rule O2",
            Rule::O3 => b"rule O3",
            Rule::O4 => b"rule O4",
            Rule::O5 => b"rule O5",
            Rule::O6 => b"rule O6",
            Rule::O7 => b"rule O7",
            Rule::O8 => b"rule O8",
            Rule::O9 => b"rule O9",
        }
    }
}

/// A rule that is broken, and the place.
#[derive(Clone, Copy)]
pub struct Break {
    pub rule: Rule,
    pub pos: Pos,
}
