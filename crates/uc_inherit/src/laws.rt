// The laws of opening. Each function does nothing: its contract is the law.

ghost use Rattle.uc_inherit.specs.Laws.{LeavesOthers, NoVirtual, TakesBases, HeadsNoted, HeadsFound};

/// Tokens without heads that name a base and without `virtual` stay as they are.
pub fn law_others()
    ensures { LeavesOthers }
{}

/// No `virtual` is left.
pub fn law_no_virtual()
    ensures { NoVirtual }
{}

/// Of each head the tokens `: public name` are taken out, and no others.
pub fn law_bases()
    ensures { TakesBases }
{}

/// A head is a kind of the grammar, a name, `: public`, a name and `{`; and its kind begins where the note says.
pub fn law_heads()
    ensures noted { HeadsNoted }
    ensures found { HeadsFound }
{}
