// The laws of the grammar. Each function does nothing: its contract is the law.

ghost use Rattle.uc_grammar.specs.Text.{IsExpr, IsStmt, IsProgram, ExprFails, StmtFails, ProgramFails, OnePiece, MoreRoom, SyntaxRefuses, TooDeepRefuses, TooDeepIsFar, ExprFirst, StmtFirst, ProgramFirst, LevelsStand, NameBegins};

/// At a place there is at most one expression, one statement and one program, whatever their nesting.
pub fn law_one_piece()
    ensures expr { OnePiece IsExpr }
    ensures stmt { OnePiece IsStmt }
    ensures program { OnePiece IsProgram }
{}

/// What is spelled within some levels is spelled within more.
pub fn law_more_room()
    ensures expr { MoreRoom IsExpr }
    ensures stmt { MoreRoom IsStmt }
    ensures program { MoreRoom IsProgram }
{}

/// A fault Syntax at a token refuses all tokens that begin as these do up to and with it, at any nesting.
pub fn law_syntax()
    ensures expr { SyntaxRefuses IsExpr ExprFails }
    ensures stmt { SyntaxRefuses IsStmt StmtFails }
    ensures program { SyntaxRefuses IsProgram ProgramFails }
{}

/// A fault TooDeep refuses these tokens within the allowed nesting.
pub fn law_too_deep()
    ensures expr { TooDeepRefuses IsExpr ExprFails }
    ensures stmt { TooDeepRefuses IsStmt StmtFails }
    ensures program { TooDeepRefuses IsProgram ProgramFails }
{}

/// Where there is a piece of greater nesting, the token of TooDeep is the first at which something in it stands too deep.
pub fn law_too_deep_is_first()
    ensures expr { ExprFirst }
    ensures stmt { StmtFirst }
    ensures program { ProgramFirst }
{}

/// A fault TooDeep comes only behind half as many tokens as there are levels: no token enters more than two.
pub fn law_too_deep_is_far()
    ensures expr { TooDeepIsFar ExprFails }
    ensures stmt { TooDeepIsFar StmtFails }
    ensures program { TooDeepIsFar ProgramFails }
{}

/// Each level of operators is a chain of pieces of the next tighter one.
pub fn law_levels()
    ensures { LevelsStand }
{}

/// An expression that begins with a name is one with that first primary.
pub fn law_name_begins()
    ensures { NameBegins }
{}
