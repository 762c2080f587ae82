// The laws: each is a function whose contract is the law.

ghost use Rattle.uc_calls_laws.specs.Calls.{LawNoMains};

/// In the source of every program of the grammar that breaks no rule no main is called: neither that of
/// a class nor that of the program. So each of them is a part that nobody calls, and the code is in order
/// as that of other parts is.
pub fn law_no_mains()
    ensures { LawNoMains }
{}
