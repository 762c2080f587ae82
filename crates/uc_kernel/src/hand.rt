//! The members in a hand.
ghost use Rattle.std.specs.Prelude.{◌≡◌, ◌≤◌, None, MatchOption};
ghost use Rattle.uc_entry.specs.Keyed.{find};
ghost use Rattle.uc_kernel.specs.Numbered.{without};
ghost use Rattle.uc_kernel.specs.AtRest.{AreApart, Stands};

use uc_entry::list::List;

/// Where the members of an object stand.
fn position<M>(hand: &List<(u64, M)>, object: u32) -> Option<u32>
    ensures { MatchOption result (find object hand.now.items
        ≡ None) (λ i. Stands object hand.now.items i) }
{
    for at in 0..hand.len() {
        if hand.get(at).0 == object as u64 {
            return Some(at);
        }
    }
    None
}

/// Takes the members of an object out, if they are there. The others keep their order.
#[inline(always)]
pub fn take_from<M>(hand: &mut List<(u64, M)>, object: u32) -> Option<M>
    requires apart { AreApart hand.old.items }
    ensures value { result ≡ find object hand.old.items }
    ensures items { hand.new.items ≡ without object hand.old.items }
    ensures spare { hand.old.spare ≤ hand.new.spare }
{
    match position(hand, object) {
        None => None,
        Some(at) => {
            let (_, members) = hand.take(at);
            Some(members)
        }
    }
}
