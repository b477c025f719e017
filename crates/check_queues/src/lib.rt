#![tactic(auto)]
// One resource's queues: each lock on them is fine, the held modes are compatible, the counts of the modes are true, and no
// head can be granted.
ghost use Rattle.std.specs.Prelude.{◌≡◌, true, ◌+◌, ◌-◌, ◌*◌, ◌^◌, ◌<◌, ◌≤◌};
ghost use Rattle.tables.specs.Lists.{bit};
ghost use Rattle.tables.specs.State.{noticed, state_waiting, most_locks};
ghost use Rattle.tables.specs.Layout.{of_resource, word_in, resources_in, locks_in, read_lock};
ghost use Rattle.table_fields.specs.Sizes.{Sized};
ghost use Rattle.table_names.specs.Names.{named};
ghost use Rattle.check_laws.specs.Check.{home_steps, digit, fits_beside, tail_steps, grant_walk, convert_from, convert_walk, heads_wait, counts_fine};
ghost use Rattle.check_resources.specs.Passes.{Fine};
ghost use Rattle.check_chains.specs.Walks.{Met};
ghost use Rattle.check_queues.specs.QueueWalks.{Walked, holders_in, HoldersWalked, Heads, Counted};

use check_chains::{Chain, met};
use check_laws::HolderCount;
use check_locks::{stands_converting, stands_granted};
use table_chains::Hints;
use table_fields::{
    LOCK_ASKED, LOCK_HELD, LOCK_NEXT, LOCKS, RESOURCE_CONVERT, RESOURCE_GRANT, RESOURCE_WAIT,
    counts_at, is_noticed, lock_at, lock_word, resource_word,
};

// The held modes are added up as digits of so many bits. There are fewer locks than such a digit can count.
const DIGIT_BITS: u32 = 12;

const DIGIT: u64 = 1 << DIGIT_BITS;

// What the walk along a grant chain finds, and two locks that it passed: the one before the watched lock, and the last
// one; 0 is none. Nothing is promised of these two. They are a hint where in the chain to look, for code that looks at
// their records before it believes it.
#[derive(Clone, Copy)]
pub struct Grants {
    pub found: HolderCount,
    pub hints: Hints,
}

// What the walks along a resource's queues find if nothing is wrong: how many locks; how many of them belong on the
// blocked chain, and how many on the notice chain; and what was passed on the grant chain.
#[derive(Clone, Copy)]
pub struct Census {
    pub met: u32,
    pub blocked: u32,
    pub noticed: u32,
    pub hints: Hints,
}

// Whether lock k belongs on the notice chain, as a number to add up.
fn notice_bit(words: &[u32], k: u32) -> u32
    requires sized { Sized words.now }
    requires le_k { (1 ≤ k) × (k ≤ locks_in words.now) }
    ensures { (result ≡ bit (noticed (read_lock words.now k))) × (result ≤ 1) }
{
    u32::from(is_noticed(lock_at(words, k)))
}

// The held mode as a number to add up: a digit for each mode from CR on. NL adds nothing.
#[tactic(auto, using(crate::proofs::HolderWalks::digit_shifts, crate::proofs::HolderWalks::digit_small))]
fn digit(held: u32) -> u64
    requires { held < 6 }
    ensures { (result ≡ digit held) × (result ≤ 2 ^ 48) }
{
    (1u64 << (DIGIT_BITS * held)) >> DIGIT_BITS
}

// Walks along a resource's grant chain: each held mode must fit those before it.
#[tactic(auto, using(crate::proofs::HolderWalks::holders))]
fn grant_walk(words: &[u32], r: u32, watched: u32) -> Option<Grants>
    requires fine { Fine words.now }
    requires le_r { (1 ≤ r) × (r ≤ resources_in words.now) }
    requires r_value { named words.now r ≡ true }
    ensures { Walked (locks_in words.now) (grant_walk words.now r) (holders_in result) }
{
    let n = words[LOCKS];
    let mut k = resource_word(words, r, RESOURCE_GRANT);
    let mut met = 0;
    let mut set = 0;
    let mut noticed = 0;
    let mut digits = 0;
    let mut before = 0;
    let mut last = 0;
    while k != 0 {
        if n <= met {
            return None;
        }
        if n < k {
            return None;
        }
        if !stands_granted(words, r, k) {
            return None;
        }
        let held = lock_word(words, k, LOCK_HELD);
        if !modes::fits_by_masks(set, held) {
            return None;
        }
        set = modes::with_mode(set, held);
        noticed += notice_bit(words, k);
        digits += digit(held);
        let next = lock_word(words, k, LOCK_NEXT);
        if next == watched {
            before = k;
        }
        last = k;
        k = next;
        met += 1;
    }
    Some(Grants {
        found: HolderCount {
            met,
            modes: set,
            noticed,
            digits,
        },
        hints: Hints { before, last },
    })
}

// The mode fits the set and the convert head's mode.
#[tactic(auto, unfolding(check_laws::specs::Check::fits_beside))]
fn fits_beside(head: u32, set: u32, mode: u32) -> bool
    requires head_bound { head < 6 }
    requires set_bound { set < 64 }
    requires mode_bound { mode < 6 }
    ensures { result ≡ fits_beside head set mode }
{
    modes::fits_by_masks(modes::with_mode(set, head), mode)
}

// Walks along the locks behind the convert head: each held mode must fit those before it, the granted ones and the
// head's. The set that is answered leaves the head's mode out, the sum does not. `before` is 1 if the head belongs on
// the notice chain.
#[tactic(auto, using(crate::proofs::HolderWalks::holders))]
fn tail_walk(
    words: &[u32],
    r: u32,
    head: u32,
    first: u32,
    granted: u32,
    before: u32,
) -> Option<HolderCount>
    requires fine { Fine words.now }
    requires le_r { (1 ≤ r) × (r ≤ resources_in words.now) }
    requires r_value { named words.now r ≡ true }
    requires head_bound { head < 6 }
    requires granted_bound { granted < 64 }
    requires before_bound { before ≤ 1 }
    ensures { Walked (locks_in words.now - 1) (tail_steps words.now r head (locks_in words.now - 1) first granted before) result }
{
    let last = words[LOCKS];
    let n = last - 1;
    let mut k = first;
    let mut met = 0;
    let mut set = granted;
    let mut noticed = before;
    let mut digits = digit(head);
    while k != 0 {
        if n <= met {
            return None;
        }
        if last < k {
            return None;
        }
        if !stands_converting(words, r, k) {
            return None;
        }
        let held = lock_word(words, k, LOCK_HELD);
        if !fits_beside(head, set, held) {
            return None;
        }
        set = modes::with_mode(set, held);
        noticed += notice_bit(words, k);
        digits += digit(held);
        k = lock_word(words, k, LOCK_NEXT);
        met += 1;
    }
    Some(HolderCount {
        met,
        modes: set,
        noticed,
        digits,
    })
}

// Walks along the convert chain from its head c on: c's held mode must fit the granted ones.
#[tactic(auto, using(crate::proofs::ResourceQueues::converting))]
fn convert_from(words: &[u32], r: u32, c: u32, granted: u32) -> Option<HolderCount>
    requires fine { Fine words.now }
    requires le_r { (1 ≤ r) × (r ≤ resources_in words.now) }
    requires r_value { named words.now r ≡ true }
    requires le_c { 1 ≤ c }
    requires granted_bound { granted < 64 }
    ensures { Walked (locks_in words.now) (convert_from words.now r c granted) result }
{
    let n = words[LOCKS];
    if n < c {
        return None;
    }
    if !stands_converting(words, r, c) {
        return None;
    }
    let held = lock_word(words, c, LOCK_HELD);
    if !modes::fits_by_masks(granted, held) {
        return None;
    }
    let first = lock_word(words, c, LOCK_NEXT);
    let rest = tail_walk(words, r, held, first, granted, notice_bit(words, c))?;
    Some(HolderCount {
        met: rest.met + 1,
        ..rest
    })
}

#[tactic(auto, using(crate::proofs::ResourceQueues::convert_none, crate::proofs::ResourceQueues::convert_some))]
fn convert_walk(words: &[u32], r: u32, granted: u32) -> Option<HolderCount>
    requires fine { Fine words.now }
    requires le_r { (1 ≤ r) × (r ≤ resources_in words.now) }
    requires r_value { named words.now r ≡ true }
    requires granted_bound { granted < 64 }
    ensures { Walked (locks_in words.now) (convert_walk words.now r granted) result }
{
    let c = resource_word(words, r, RESOURCE_CONVERT);
    if c == 0 {
        return Some(HolderCount {
            met: 0,
            modes: granted,
            noticed: 0,
            digits: 0,
        });
    }
    convert_from(words, r, c, granted)
}

// How many locks the wait chain of r has; none if it does not end, or has a lock that does not belong there.
#[tactic(auto, using(check_chains::proofs::WalkStarts::chains))]
fn waiting_met(words: &[u32], r: u32) -> Option<u32>
    requires sized { Sized words.now }
    requires le_r { (1 ≤ r) × (r ≤ resources_in words.now) }
    requires r_value { named words.now r ≡ true }
    ensures { Met (locks_in words.now) (home_steps words.now state_waiting r (word_in words.now (of_resource r 3))) result }
{
    let first = resource_word(words, r, RESOURCE_WAIT);
    met(words, Chain::Waiting(r), LOCK_NEXT, first)
}

// The convert head is kept out by the others' modes. If there is no convert head, the wait head is kept out by the
// granted ones.
#[tactic(auto, using(crate::proofs::ResourceQueues::head_tests))]
fn heads_wait(words: &[u32], r: u32, granted: u32, others: u32) -> bool
    requires fine { Fine words.now }
    requires le_r { (1 ≤ r) × (r ≤ resources_in words.now) }
    requires heads { Heads words.now r }
    requires granted_bound { (granted < 64) × (others < 64) }
    ensures { result ≡ heads_wait words.now r granted others }
{
    let c = resource_word(words, r, RESOURCE_CONVERT);
    if c != 0 {
        return !modes::fits_by_masks(others, lock_word(words, c, LOCK_ASKED));
    }
    let w = resource_word(words, r, RESOURCE_WAIT);
    if w == 0 {
        return true;
    }
    !modes::fits_by_masks(granted, lock_word(words, w, LOCK_ASKED))
}

// The counts of r are true, where `met` locks hold a mode and `digits` is their modes added up: they are as many in all,
// and the same as digits. If they are as many in all, none is too large for a digit.
#[tactic(auto, using(crate::proofs::ResourceQueues::count_tests))]
fn counts_fine(words: &[u32], r: u32, met: u32, digits: u64) -> bool
    requires sized { Sized words.now }
    requires le_r { (1 ≤ r) × (r ≤ resources_in words.now) }
    requires met_bound { met ≤ 2 * most_locks }
    ensures { result ≡ counts_fine words.now r met digits }
{
    let x = counts_at(words, r);
    let cr = u64::from(x.cr);
    let cw = u64::from(x.cw);
    let pr = u64::from(x.pr);
    let pw = u64::from(x.pw);
    let ex = u64::from(x.ex);
    if u64::from(x.nl) + cr + cw + pr + pw + ex != u64::from(met) {
        return false;
    }
    cr + DIGIT * (cw + DIGIT * (pr + DIGIT * (pw + DIGIT * ex))) == digits
}

// What is found of a resource whose granted and converting locks are as g and c say.
#[tactic(auto, using(crate::proofs::ResourceQueues::queue_tests))]
fn wait_part(words: &[u32], r: u32, g: Grants, c: HolderCount) -> Option<Census>
    requires fine { Fine words.now }
    requires le_r { (1 ≤ r) × (r ≤ resources_in words.now) }
    requires r_value { named words.now r ≡ true }
    requires holders_walked { HoldersWalked words.now r g.found c }
    ensures { Counted words.now r result }
{
    let w = waiting_met(words, r)?;
    if !heads_wait(words, r, g.found.modes, c.modes) {
        return None;
    }
    Some(Census {
        met: g.found.met + c.met + w,
        blocked: c.met + w,
        noticed: g.found.noticed + c.noticed,
        hints: g.hints,
    })
}

// What is found of a resource whose granted locks are as g says.
#[tactic(auto, using(crate::proofs::ResourceQueues::queue_tests))]
fn convert_part(words: &[u32], r: u32, g: Grants) -> Option<Census>
    requires fine { Fine words.now }
    requires le_r { (1 ≤ r) × (r ≤ resources_in words.now) }
    requires r_value { named words.now r ≡ true }
    requires walked { Walked (locks_in words.now) (grant_walk words.now r) (Some g.found) }
    ensures { Counted words.now r result }
{
    let c = convert_walk(words, r, g.found.modes)?;
    if !counts_fine(words, r, g.found.met + c.met, g.found.digits + c.digits) {
        return None;
    }
    wait_part(words, r, g, c)
}

// The locks on the three queues of a resource in use.
#[tactic(auto, using(crate::proofs::ResourceQueues::queue_tests))]
pub fn resource_walk(words: &[u32], r: u32, watched: u32) -> Option<Census>
    requires fine { Fine words.now }
    requires le_r { (1 ≤ r) × (r ≤ resources_in words.now) }
    requires r_value { named words.now r ≡ true }
    ensures { Counted words.now r result }
{
    let g = grant_walk(words, r, watched)?;
    convert_part(words, r, g)
}
