#![tactic(auto)]
// The check of whatever tables are lent: it needs nothing of them, looks at each of their records once, and walks each of
// their chains once.
ghost use Rattle.std.specs.Prelude.{◌≡◌, is_some, ◌+◌, ◌*◌, ◌≤◌};
ghost use Rattle.tables.specs.Layout.{locks_in};
ghost use Rattle.tables.specs.Sound.{sound};
ghost use Rattle.table_fields.specs.Sizes.{Sized};
ghost use Rattle.table_names.specs.Promises.{Slotted};
ghost use Rattle.check_resources.specs.Passes.{Fine};
ghost use Rattle.check_tables.specs.Chains.{sides_fine, Checked, Queues, Homes};
ghost use Rattle.check_tables.specs.Surveys.{Surveyed};

use check_chains::{blocked_fine, denied_met, free_locks_met, free_resources_fine, notices_fine};
use check_queues::resource_walk;
use check_resources::{header_fine, resource_fine, row_at, sizes_right};
use table_chains::Hints;
use table_fields::{LOCK_RESOURCE, LOCKS, RESOURCES, lock_word};

// What the check passed on its way where a name was looked up: its resource, if there is one, and the last lock on the grant
// chain of that; 0 is none. Nothing is promised of the last lock.
#[derive(Clone, Copy)]
pub struct NameSighting {
    pub found: Option<u32>,
    pub last: u32,
}

// What the pass over the resources finds where each is fine and each lock stands on one home chain: so many resources are
// free, and so many locks belong on the blocked and on the notice chain. And the lock before the watched one, and the last
// one, on the grant chain of the watched resource; 0 is none. Nothing is promised of these two: whoever uses them looks at
// their records before it believes them, and is spared a walk along the chain.
#[derive(Clone, Copy)]
pub struct HomeCounts {
    pub free: u32,
    pub blocked: u32,
    pub noticed: u32,
    pub hints: Hints,
}

// Checks each resource, and its queues if it is in use. `others` locks were met on the other home chains, `denied` of
// them on the chain of denied locks. Together with those on the queues they must be all the locks that there are. What
// stands before the watched lock is added up without a test, since it is on one chain only. If no lock is watched, the sum
// means nothing.
#[tactic(auto, using(crate::proofs::FreeOrUsed::in_use))]
fn queues(
    words: &[u32],
    slots: &[u8],
    others: u32,
    denied: u32,
    resource: u32,
    lock: u32,
) -> Option<HomeCounts>
    requires fine { Fine words.now }
    requires slotted { Slotted words.now slots.now }
    requires others_bound { (others ≤ 2 * locks_in words.now) × (denied ≤ locks_in words.now) }
    ensures { Queues words.now slots.now others denied result }
{
    let n = words[LOCKS];
    let mut met = others;
    let mut blocked = 0;
    let mut noticed = denied;
    let mut free = 0;
    let mut before = 0;
    let mut last = 0;
    for r in 1..words[RESOURCES] + 1 {
        let x = row_at(words, r);
        if !resource_fine(words, slots, r, x) {
            return None;
        }
        if n < met {
            return None;
        }
        if x.bytes == 0 {
            free += 1;
        } else {
            let found = resource_walk(words, r, lock)?;
            met += found.met;
            blocked += found.blocked;
            noticed += found.noticed;
            before |= found.hints.before;
            if r == resource {
                last = found.hints.last;
            }
        }
    }
    if met != n {
        return None;
    }
    Some(HomeCounts {
        free,
        blocked,
        noticed,
        hints: Hints { before, last },
    })
}

// Each lock stands on one home chain: free, denied, or a queue of a resource.
#[tactic(auto, using(crate::proofs::ResourceSums::home_tests))]
fn homes(words: &[u32], slots: &[u8], resource: u32, lock: u32) -> Option<HomeCounts>
    requires fine { Fine words.now }
    requires slotted { Slotted words.now slots.now }
    ensures { Homes words.now slots.now result }
{
    let free = free_locks_met(words)?;
    let denied = denied_met(words)?;
    queues(words, slots, free + denied, denied, resource, lock)
}

// The chains of free resources, of blocked locks and of notices have as many records as were counted, and the names
// differ. This is a function of its own because the check then compiles to faster code.
#[tactic(auto, unfolding(crate::specs::Chains::sides_fine))]
fn sides(words: &[u32], slots: &[u8], found: HomeCounts) -> bool
    requires { Checked words.now slots.now found }
    ensures { result ≡ sides_fine words.now slots.now }
{
    free_resources_fine(words, found.free)
        && blocked_fine(words, found.blocked)
        && notices_fine(words, found.noticed)
        && check_names::names_differ(words, slots)
}

// The check: sizes and header, then the home chains, then the other chains and the names. Sound tables are answered with
// what was passed of what is watched. The sizes are tested here even if the caller has done so: the compiler then knows in
// every loop how many records there are, and the code is faster.
#[tactic(auto, using(crate::proofs::CheckPasses::sounding))]
fn all_fine(words: &[u32], slots: &[u8], resource: u32, lock: u32) -> Option<Hints>
    ensures { is_some result ≡ sound words.now slots.now }
{
    if !sizes_right(words, slots) {
        return None;
    }
    if !header_fine(words) {
        return None;
    }
    let found = homes(words, slots, resource, lock)?;
    if !sides(words, slots, found) {
        return None;
    }
    Some(found.hints)
}

// Whether the tables are sound. The slices are passed on as `[..]` of themselves and not as they came: the compiler
// then passes their addresses and lengths in registers and not through memory.
pub fn sound(words: &[u32], slots: &[u8]) -> bool
    ensures { result ≡ sound words.now slots.now }
{
    all_fine(&words[..], &slots[..], 0, 0).is_some()
}

// The resource of a lock, as its record says, which may be any number; 0 if there is no such lock.
fn resource_of(words: &[u32], lock: u32) -> u32
    requires { Sized words.now }
{
    if lock == 0 {
        return 0;
    }
    if words[LOCKS] < lock {
        return 0;
    }
    lock_word(words, lock, LOCK_RESOURCE)
}

// The same for a call that moves or frees a lock: if the tables are sound, what stands before it on its grant chain, and
// last there.
#[tactic(auto, using(crate::proofs::CheckPasses::sounding))]
pub fn survey(words: &[u32], slots: &[u8], lock: u32) -> Option<Hints>
    ensures { is_some result ≡ sound words.now slots.now }
{
    if !sizes_right(words, slots) {
        return None;
    }
    let resource = resource_of(words, lock);
    all_fine(&words[..], &slots[..], resource, lock)
}

// The same for a call that asks for a lock on a name. The name is looked up first, so that the check knows which resource
// to watch.
#[tactic(auto, using(crate::proofs::CheckPasses::surveying))]
pub fn survey_name(words: &[u32], slots: &[u8], name: &[u8]) -> Option<NameSighting>
    ensures { Surveyed words.now slots.now name.now result }
{
    if !sizes_right(words, slots) {
        return None;
    }
    let found = table_names::find(words, slots, name);
    let hints = all_fine(&words[..], &slots[..], found.unwrap_or(0), 0)?;
    Some(NameSighting {
        found,
        last: hints.last,
    })
}
