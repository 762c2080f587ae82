// The laws of the nesting of trees. Each function does nothing: its contract is the law.

ghost use Rattle.uc_nesting.specs.Laws.{ExprWithin, StmtWithin, ProgramWithin, ParsedWithin, Shallow};

/// What tokens spell within some levels has a tree of at most as many.
pub fn law_within()
    ensures expr { ExprWithin }
    ensures stmt { StmtWithin }
    ensures program { ProgramWithin }
{}

/// What a parser gives that finds programs within the limit of nesting has a tree within it.
pub fn law_parsed()
    ensures { ParsedWithin }
{}

/// A tree of few levels is not deep.
pub fn law_shallow()
    ensures { Shallow }
{}
