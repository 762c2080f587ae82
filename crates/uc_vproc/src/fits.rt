// What a task may ask, by the objects in its hand and those that are there.
ghost use Rattle.std.specs.Prelude.{◌≡◌, ◌<◌, ℕ, true, false, length, slice_index_or};
ghost use Rattle.uc_tree.specs.declared.limits.TheConstants.{TASKS};
ghost use Rattle.uc_entry.specs.declared.request.Request.TheVariants as ask;
ghost use Rattle.uc_acts.specs.Journal.{held, is_over};
ghost use Rattle.uc_acts.specs.Known.{has, object_count, owner};
ghost use Rattle.uc_acts.specs.KernelRuns.{KernelRuns, Fits, IsMade};
ghost use Rattle.uc_step_laws.specs.Hands.{HasForm};
ghost use Rattle.uc_site_laws.specs.Naming.{NamesKnown};
ghost use Rattle.uc_state_laws.specs.Marked.{EventKnown};
ghost use Rattle.uc_kernel.specs.Numbered.{keys};
ghost use Rattle.uc_vproc.specs.Registries.{AreThere, Tells};
ghost use Rattle.uc_vproc.specs.Places.{place_of, IsBare, IsOwned};

use crate::registry::Registry;
use uc_entry::list::List;
use uc_entry::request::Request;
use uc_frames::members::Members;
use uc_frames::task::Task;
use uc_kernel::kernel::Kernel;

/// What a request is to fit: nothing, an object in hand, one in hand that is no task's own, one that is there, one
/// that is a task's own, a cluster, or a processor.
#[derive(Drop)]
pub enum Place {
    Anywhere,
    At(u32),
    Unowned(u32),
    Outside(u32),
    Owned(u32),
    Cluster(u32),
    Processor(u32),
}

/// Whether what a task with this hand asks fits, by what may be asked for. What it prints and reads is in a form that fits, the
/// members, accept statements and events that it names are there, and what it calls is not in its hand.
pub fn fits(
    kernel: &Kernel<Option<Task>, Members>,
    registry: &Registry,
    task: u32,
    hand: &List<(u64, Members)>,
    request: &Request,
) -> bool
    requires runs { KernelRuns kernel.now.opts kernel.now.sites kernel.now.input kernel.now.journal }
    requires going { is_over kernel.now.journal ≡ false }
    requires known { task < TASKS }
    requires hand { keys hand.now.items ≡ held task kernel.now.journal }
    requires form { HasForm request.now }
    requires names { NamesKnown kernel.now.sites request.now }
    requires event { EventKnown request.now }
    requires apart { (o m : ℕ) → request.now ≡ ask.Call o m →
        has (held task kernel.now.journal) o ≡ false }
    requires told { Tells kernel.now.opts kernel.now.journal registry.now }
    ensures { result ≡ true →
        Fits kernel.now.opts kernel.now.sites kernel.now.journal task request.now }
{
    let own = kernel.own_object(task);
    match place_for(own, request) {
        Place::Anywhere => true,
        Place::At(object) => holds(hand, object),
        Place::Unowned(object) => is_bare(kernel, &registry.there, hand, object),
        Place::Outside(object) => is_there(&registry.there, object),
        Place::Owned(object) => is_sought(kernel, &registry.there, object),
        Place::Cluster(cluster) => cluster < registry.clusters,
        Place::Processor(processor) => processor < registry.processors,
    }
}

// What a request is to fit, of a task with this own object.
fn place_for(own: u32, request: &Request) -> Place
    ensures { result ≡ place_of own request.now }
{
    match *request {
        Request::Poll { .. } => Place::Anywhere,
        Request::Yield => Place::Anywhere,
        Request::Slice => Place::Anywhere,
        Request::Fail => Place::Anywhere,
        Request::Fault { .. } => Place::Anywhere,
        Request::Make { .. } => Place::Anywhere,
        Request::Cluster => Place::Anywhere,
        Request::Print { .. } => Place::Anywhere,
        Request::Read { .. } => Place::Anywhere,
        Request::Made { object } => Place::At(object),
        Request::Leave { object, .. } => Place::At(object),
        Request::Wait { object, .. } => Place::At(object),
        Request::Signal { object, .. } => Place::At(object),
        Request::SignalBlock { object, .. } => Place::At(object),
        Request::Empty { object, .. } => Place::At(object),
        Request::Front { object, .. } => Place::At(object),
        Request::Gone { object } => Place::At(object),
        Request::End => Place::At(own),
        Request::Accept { object, .. } => Place::At(object),
        Request::Spawn { object } => Place::Unowned(object),
        Request::Call { object, .. } => Place::Outside(object),
        Request::Raise { object, .. } => Place::Owned(object),
        Request::ClusterEnd { cluster } => Place::Cluster(cluster),
        Request::Processor { cluster } => Place::Cluster(cluster),
        Request::Migrate { cluster } => Place::Cluster(cluster),
        Request::ProcessorEnd { processor } => Place::Processor(processor),
    }
}

// Whether the members of an object are in a hand.
fn holds(hand: &List<(u64, Members)>, object: u32) -> bool
    ensures { result ≡ has (keys hand.now.items) object }
{
    for at in 0..hand.len() {
        if hand.get(at).0 == object as u64 {
            return true;
        }
    }
    false
}

// Whether an object is in hand and no task's own.
fn is_bare(
    kernel: &Kernel<Option<Task>, Members>,
    there: &[bool],
    hand: &List<(u64, Members)>,
    object: u32,
) -> bool
    requires runs { KernelRuns kernel.now.opts kernel.now.sites kernel.now.input kernel.now.journal }
    requires going { is_over kernel.now.journal ≡ false }
    requires there { AreThere there.now kernel.now.journal }
    ensures { result ≡ true → IsBare (keys hand.now.items) object kernel.now.journal }
{
    if !is_there(there, object) {
        return false;
    }
    if !holds(hand, object) {
        return false;
    }
    !kernel.is_owned(object)
}

// Whether an object is a task's own.
fn is_sought(kernel: &Kernel<Option<Task>, Members>, there: &[bool], object: u32) -> bool
    requires runs { KernelRuns kernel.now.opts kernel.now.sites kernel.now.input kernel.now.journal }
    requires going { is_over kernel.now.journal ≡ false }
    requires there { AreThere there.now kernel.now.journal }
    ensures { result ≡ true → IsOwned object kernel.now.journal }
{
    if !is_there(there, object) {
        return false;
    }
    kernel.is_owned(object)
}

// Whether an object is told to be there.
fn is_there(there: &[bool], object: u32) -> bool
    ensures { result ≡ slice_index_or there.now object false }
{
    match there.get(object as usize) {
        None => false,
        Some(is) => *is,
    }
}
