// Tokens of a program text.

ghost use Rattle.std.specs.Prelude.{◌≡◌};
ghost use Rattle.uc_tree.specs.Spelling.{word_spelling, sign_spelling};

use crate::name::{Name, Text};
use crate::pos::Pos;

/// A token: what it is, the offset of its first byte in the text, from 0, and its place there.
#[derive(Drop)]
pub struct Token {
    pub kind: TokenKind,
    pub at: u32,
    pub pos: Pos,
}

/// What a token is.
#[derive(Drop)]
pub enum TokenKind {
    /// A name that is no word.
    Name(Name),
    /// A decimal number, from 0 to `NUMBER_MAX`.
    Number(i64),
    /// The code of a character literal, below 128.
    Character(u8),
    /// The value of a text literal, of at most `TEXT_BYTES` bytes.
    Text(Text),
    Word(Word),
    Sign(Sign),
}

/// The words that are never names, in the order of the table of tokens.
#[derive(Clone, Copy, Debug)]
pub enum Word {
    /// `class`
    Class,
    /// `_Coroutine`
    Coroutine,
    /// `_Monitor`
    Monitor,
    /// `_Cormonitor`
    Cormonitor,
    /// `_Task`
    Task,
    /// `_Event`, and its other spelling `_Exception`
    Event,
    /// `_Mutex`
    Mutex,
    /// `_Nomutex`
    Nomutex,
    /// `public`
    Public,
    /// `private`
    Private,
    /// `protected`
    Protected,
    /// `void`
    Void,
    /// `int`
    Int,
    /// `char`
    Char,
    /// `bool`
    Bool,
    /// `const`
    Const,
    /// `uCondition`
    Condition,
    /// `uCluster`
    Cluster,
    /// `uProcessor`
    Processor,
    /// `if`
    If,
    /// `else`
    Else,
    /// `while`
    While,
    /// `do`
    Do,
    /// `for`
    For,
    /// `break`
    Break,
    /// `continue`
    Continue,
    /// `return`
    Return,
    /// `try`
    Try,
    /// `catch`
    Catch,
    /// `_CatchResume`
    CatchResume,
    /// `_Throw`
    ThrowEvent,
    /// `_Resume`
    ResumeEvent,
    /// `_At`
    At,
    /// `_Enable`
    Enable,
    /// `_Disable`
    Disable,
    /// `_Accept`
    Accept,
    /// `_When`
    When,
    /// `_Else`
    AcceptElse,
    /// `or`
    Or,
    /// `cout`
    Cout,
    /// `cin`
    Cin,
    /// `endl`
    Endl,
    /// `osacquire`
    Osacquire,
    /// `true`
    True,
    /// `false`
    False,
    /// `using`
    Using,
    /// `namespace`
    Namespace,
    /// `std`
    Std,
    /// `resume`
    Resume,
    /// `suspend`
    Suspend,
    /// `yield`
    Yield,
    /// `migrate`
    Migrate,
    /// `uMain`
    UMain,
}

/// The signs, in the order of the table of tokens.
#[derive(Clone, Copy, PartialEq, Eq, Debug)]
pub enum Sign {
    /// `{`
    OpenBrace,
    /// `}`
    CloseBrace,
    /// `(`
    OpenParen,
    /// `)`
    CloseParen,
    /// `[`
    OpenBracket,
    /// `]`
    CloseBracket,
    /// `;`
    Semicolon,
    /// `,`
    Comma,
    /// `.`
    Dot,
    /// `:`
    Colon,
    /// `::`
    Scope,
    /// `~`
    Tilde,
    /// `&`
    And,
    /// `=`
    Assign,
    /// `+=`
    AddAssign,
    /// `-=`
    SubAssign,
    /// `*=`
    MulAssign,
    /// `/=`
    DivAssign,
    /// `%=`
    RemAssign,
    /// `++`
    Increment,
    /// `--`
    Decrement,
    /// `||`
    OrOr,
    /// `&&`
    AndAnd,
    /// `==`
    Equal,
    /// `!=`
    NotEqual,
    /// `<`
    Less,
    /// `<=`
    LessEqual,
    /// `>`
    Greater,
    /// `>=`
    GreaterEqual,
    /// `<<`
    ShiftLeft,
    /// `>>`
    ShiftRight,
    /// `+`
    Plus,
    /// `-`
    Minus,
    /// `*`
    Star,
    /// `/`
    Slash,
    /// `%`
    Percent,
    /// `!`
    Not,
    /// `...`
    Ellipsis,
}

impl Word {
    /// Every word, in the order of the table of tokens.
    pub const ALL: [Word; 53] = [
        Word::Class,
        Word::Coroutine,
        Word::Monitor,
        Word::Cormonitor,
        Word::Task,
        Word::Event,
        Word::Mutex,
        Word::Nomutex,
        Word::Public,
        Word::Private,
        Word::Protected,
        Word::Void,
        Word::Int,
        Word::Char,
        Word::Bool,
        Word::Const,
        Word::Condition,
        Word::Cluster,
        Word::Processor,
        Word::If,
        Word::Else,
        Word::While,
        Word::Do,
        Word::For,
        Word::Break,
        Word::Continue,
        Word::Return,
        Word::Try,
        Word::Catch,
        Word::CatchResume,
        Word::ThrowEvent,
        Word::ResumeEvent,
        Word::At,
        Word::Enable,
        Word::Disable,
        Word::Accept,
        Word::When,
        Word::AcceptElse,
        Word::Or,
        Word::Cout,
        Word::Cin,
        Word::Endl,
        Word::Osacquire,
        Word::True,
        Word::False,
        Word::Using,
        Word::Namespace,
        Word::Std,
        Word::Resume,
        Word::Suspend,
        Word::Yield,
        Word::Migrate,
        Word::UMain,
    ];

    /// The bytes of the word.
    pub fn spelling(self) -> &'static [u8]
        ensures { result.now ≡ word_spelling self }
    {
        match self {
            Word::Class => b"class",
            Word::Coroutine => b"_Coroutine",
            Word::Monitor => b"_Monitor",
            Word::Cormonitor => b"_Cormonitor",
            Word::Task => b"_Task",
            Word::Event => b"_Event",
            Word::Mutex => b"_Mutex",
            Word::Nomutex => b"_Nomutex",
            Word::Public => b"public",
            Word::Private => b"private",
            Word::Protected => b"protected",
            Word::Void => b"void",
            Word::Int => b"int",
            Word::Char => b"char",
            Word::Bool => b"bool",
            Word::Const => b"const",
            Word::Condition => b"uCondition",
            Word::Cluster => b"uCluster",
            Word::Processor => b"uProcessor",
            Word::If => b"if",
            Word::Else => b"else",
            Word::While => b"while",
            Word::Do => b"do",
            Word::For => b"for",
            Word::Break => b"break",
            Word::Continue => b"continue",
            Word::Return => b"return",
            Word::Try => b"try",
            Word::Catch => b"catch",
            Word::CatchResume => b"_CatchResume",
            Word::ThrowEvent => b"_Throw",
            Word::ResumeEvent => b"_Resume",
            Word::At => b"_At",
            Word::Enable => b"_Enable",
            Word::Disable => b"_Disable",
            Word::Accept => b"_Accept",
            Word::When => b"_When",
            Word::AcceptElse => b"_Else",
            Word::Or => b"or",
            Word::Cout => b"cout",
            Word::Cin => b"cin",
            Word::Endl => b"endl",
            Word::Osacquire => b"osacquire",
            Word::True => b"true",
            Word::False => b"false",
            Word::Using => b"using",
            Word::Namespace => b"namespace",
            Word::Std => b"std",
            Word::Resume => b"resume",
            Word::Suspend => b"suspend",
            Word::Yield => b"yield",
            Word::Migrate => b"migrate",
            Word::UMain => b"uMain",
        }
    }
}

impl Sign {
    /// Every sign, the longest first.
    pub const ALL: [Sign; 38] = [
        Sign::Ellipsis,
        Sign::Scope,
        Sign::AddAssign,
        Sign::SubAssign,
        Sign::MulAssign,
        Sign::DivAssign,
        Sign::RemAssign,
        Sign::Increment,
        Sign::Decrement,
        Sign::OrOr,
        Sign::AndAnd,
        Sign::Equal,
        Sign::NotEqual,
        Sign::LessEqual,
        Sign::GreaterEqual,
        Sign::ShiftLeft,
        Sign::ShiftRight,
        Sign::OpenBrace,
        Sign::CloseBrace,
        Sign::OpenParen,
        Sign::CloseParen,
        Sign::OpenBracket,
        Sign::CloseBracket,
        Sign::Semicolon,
        Sign::Comma,
        Sign::Dot,
        Sign::Colon,
        Sign::Tilde,
        Sign::And,
        Sign::Assign,
        Sign::Less,
        Sign::Greater,
        Sign::Plus,
        Sign::Minus,
        Sign::Star,
        Sign::Slash,
        Sign::Percent,
        Sign::Not,
    ];

    /// The bytes of the sign.
    pub fn spelling(self) -> &'static [u8]
        ensures { result.now ≡ sign_spelling self }
    {
        match self {
            Sign::OpenBrace => b"{",
            Sign::CloseBrace => b"}",
            Sign::OpenParen => b"(",
            Sign::CloseParen => b")",
            Sign::OpenBracket => b"[",
            Sign::CloseBracket => b"]",
            Sign::Semicolon => b";",
            Sign::Comma => b",",
            Sign::Dot => b".",
            Sign::Colon => b":",
            Sign::Scope => b"::",
            Sign::Tilde => b"~",
            Sign::And => b"&",
            Sign::Assign => b"=",
            Sign::AddAssign => b"+=",
            Sign::SubAssign => b"-=",
            Sign::MulAssign => b"*=",
            Sign::DivAssign => b"/=",
            Sign::RemAssign => b"%=",
            Sign::Increment => b"++",
            Sign::Decrement => b"--",
            Sign::OrOr => b"||",
            Sign::AndAnd => b"&&",
            Sign::Equal => b"==",
            Sign::NotEqual => b"!=",
            Sign::Less => b"<",
            Sign::LessEqual => b"<=",
            Sign::Greater => b">",
            Sign::GreaterEqual => b">=",
            Sign::ShiftLeft => b"<<",
            Sign::ShiftRight => b">>",
            Sign::Plus => b"+",
            Sign::Minus => b"-",
            Sign::Star => b"*",
            Sign::Slash => b"/",
            Sign::Percent => b"%",
            Sign::Not => b"!",
            Sign::Ellipsis => b"...",
        }
    }
}
