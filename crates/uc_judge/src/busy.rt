// Whether an entry destroys what is in use.

ghost use Rattle.std.specs.Prelude.{◌≡◌};
ghost use Rattle.uc_tree.specs.Programs.{Site};
ghost use Rattle.uc_acts.specs.Journal.{Journal};
ghost use Rattle.uc_acts.specs.Doors.{destroys_busy};
ghost use Rattle.uc_explain.specs.Seen.{AreViewsOf};
ghost use Rattle.uc_judge.specs.ClauseStacks.{AreStacks};
ghost use Rattle.std.specs.Prelude.{List};

use crate::stacks::Stacks;
use uc_entry::entry::{Entry, EntryKind};
use uc_explain::Views;

/// Whether an entry would destroy an object at which others stand, or let in the caller of its destructor.
pub fn destroys_busy(views: &Views, stacks: &Stacks, e: &Entry) -> bool
    ensures { (sites : List Site) (j : Journal) → AreViewsOf views.now j →
        AreStacks stacks.now sites j → result ≡ destroys_busy j e.now.kind e.now }
{
    match e.kind {
        EntryKind::Gone => views.has_others(e.object, e.task),
        EntryKind::Admit => {
            stacks.calls_destructor(e.object, e.task) && views.has_others(e.object, e.task)
        }
        _ => false,
    }
}
