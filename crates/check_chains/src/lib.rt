#![tactic(auto)]
// How many records each chain has, in whatever tables are lent. A walk counts down how many records are left to meet, so
// that it ends. Along a home chain it also tests each lock.
// In a run of records the successor of each is the next number, as in fresh tables. A walk has an inner loop for runs:
// the next record's place is then known before the link is read, so the processor need not wait for the link. The inner
// loop stands in the same function: a call for each run was measured to be slower on full tables, where runs are short.
ghost use Rattle.std.specs.Prelude.{◌≡◌, not, ◌+◌, ◌≤◌, ◌<◌};
ghost use Rattle.tables.specs.State.{state_free, state_denied};
ghost use Rattle.tables.specs.Layout.{lock_width, of_header, resources_in, locks_in, word_in};
ghost use Rattle.table_fields.specs.Sizes.{Sized};
ghost use Rattle.table_names.specs.Names.{named};
ghost use Rattle.check_laws.specs.Check.{home_steps, free_resources_fine, blocked_fine, notices_fine};
ghost use Rattle.check_resources.specs.Passes.{free_count, blocked_count, noticed_count};
ghost use Rattle.check_chains.specs.Walks.{Met, free_met, OnUsed, belongs_on, locks_met};

use check_locks::{stands_denied, stands_free, stands_waiting};
use check_resources::in_use;
use table_fields::{
    BLOCKED, DENIED, FREE_LOCKS, FREE_RESOURCES, LOCK_NEXT, LOCK_NEXT_BLOCKED, LOCK_NEXT_NOTICE,
    LOCKS, NOTICES, RESOURCE_NEXT, RESOURCES, is_blocked, is_noticed, lock_at, lock_word,
    resource_word,
};

// The chains of locks that one loop walks. The last is the wait chain of a resource. The compiler makes a loop for
// each.
#[derive(Clone, Copy)]
pub enum Chain {
    Free,
    Blocked,
    Notices,
    Waiting(u32),
}

// Resource r has no name.
fn nameless(words: &[u32], r: u32) -> bool
    requires sized { Sized words.now }
    requires le_r { (1 ≤ r) × (r ≤ resources_in words.now) }
    ensures { result ≡ not (named words.now r) }
{
    !in_use(words, r)
}

// How many resources the free chain has; none if it does not end, or has a resource in use.
#[tactic(auto, using(crate::proofs::ChainWalk::walk_loop, crate::proofs::WalkStarts::starts))]
fn free_met(words: &[u32]) -> Option<u32>
    requires { Sized words.now }
    ensures { Met (resources_in words.now) (free_met words.now) result }
{
    let n = words[RESOURCES];
    let mut r = words[FREE_RESOURCES];
    let mut left = n;
    while r != 0 {
        loop {
            if left == 0 {
                return None;
            }
            left -= 1;
            if n < r {
                return None;
            }
            if !nameless(words, r) {
                return None;
            }
            let beside = r + 1;
            let next = resource_word(words, r, RESOURCE_NEXT);
            if next != beside {
                r = next;
                break;
            }
            r = beside;
        }
    }
    Some(n - left)
}

// Lock k belongs on the chain. On a home chain its fields must be right too.
#[tactic(auto, unfolding(crate::specs::Walks::belongs_on))]
fn belongs(words: &[u32], chain: Chain, k: u32) -> bool
    requires sized { Sized words.now }
    requires le_k { (1 ≤ k) × (k ≤ locks_in words.now) }
    requires on_used { OnUsed words.now chain }
    ensures { result ≡ belongs_on words.now chain k }
{
    match chain {
        Chain::Free => stands_free(words, k),
        Chain::Blocked => is_blocked(lock_at(words, k)),
        Chain::Notices => is_noticed(lock_at(words, k)),
        Chain::Waiting(r) => stands_waiting(words, r, k),
    }
}

// How many locks the chain has from the first on, where the field of each names the next; none if it does not end, or
// has a lock that does not belong there.
#[tactic(auto, using(crate::proofs::ChainWalk::walk_loop, crate::proofs::WalkStarts::starts))]
pub fn met(words: &[u32], chain: Chain, field: usize, first: u32) -> Option<u32>
    requires sized { Sized words.now }
    requires on_used { OnUsed words.now chain }
    requires field_lt_lock_width { field < lock_width }
    ensures { Met (locks_in words.now) (locks_met words.now chain field first) result }
{
    let n = words[LOCKS];
    let mut k = first;
    let mut left = n;
    while k != 0 {
        loop {
            if left == 0 {
                return None;
            }
            left -= 1;
            if n < k {
                return None;
            }
            if !belongs(words, chain, k) {
                return None;
            }
            let beside = k + 1;
            let next = lock_word(words, k, field);
            if next != beside {
                k = next;
                break;
            }
            k = beside;
        }
    }
    Some(n - left)
}

// How many locks the chain of free locks has.
#[tactic(auto, using(crate::proofs::WalkStarts::chains))]
pub fn free_locks_met(words: &[u32]) -> Option<u32>
    requires { Sized words.now }
    ensures { Met (locks_in words.now) (home_steps words.now state_free 0 (word_in words.now (of_header 3))) result }
{
    met(words, Chain::Free, LOCK_NEXT, words[FREE_LOCKS])
}

// The same of the chain of denied locks, which is short: it has no inner loop.
#[tactic(auto, using(crate::proofs::ChainWalk::walk_loop, crate::proofs::WalkStarts::starts))]
pub fn denied_met(words: &[u32]) -> Option<u32>
    requires { Sized words.now }
    ensures { Met (locks_in words.now) (home_steps words.now state_denied 0 (word_in words.now (of_header 4))) result }
{
    let n = words[LOCKS];
    let mut k = words[DENIED];
    let mut left = n;
    while k != 0 {
        if left == 0 {
            return None;
        }
        left -= 1;
        if n < k {
            return None;
        }
        if !stands_denied(words, k) {
            return None;
        }
        k = lock_word(words, k, LOCK_NEXT);
    }
    Some(n - left)
}

// The free, the blocked and the notice chain: as many as belong there, and no others.
#[tactic(auto, using(crate::proofs::WalkStarts::chains))]
pub fn free_resources_fine(words: &[u32], count: u32) -> bool
    requires sized { Sized words.now }
    requires count_value { count ≡ free_count words.now }
    ensures { result ≡ free_resources_fine words.now }
{
    free_met(words) == Some(count)
}

#[tactic(auto, using(crate::proofs::WalkStarts::chains))]
pub fn blocked_fine(words: &[u32], count: u32) -> bool
    requires sized { Sized words.now }
    requires count_value { count ≡ blocked_count words.now }
    ensures { result ≡ blocked_fine words.now }
{
    met(words, Chain::Blocked, LOCK_NEXT_BLOCKED, words[BLOCKED]) == Some(count)
}

#[tactic(auto, using(crate::proofs::WalkStarts::chains))]
pub fn notices_fine(words: &[u32], count: u32) -> bool
    requires sized { Sized words.now }
    requires count_value { count ≡ noticed_count words.now }
    ensures { result ≡ notices_fine words.now }
{
    met(words, Chain::Notices, LOCK_NEXT_NOTICE, words[NOTICES]) == Some(count)
}
