#![tactic(auto)]
// Breaking deadlocks: the first blocked lock that leads back to itself, found in the lent words.
ghost use Rattle.std.specs.Prelude.{◌≡◌, ◌≢◌, ◌*◌, ◌≤◌, length};
ghost use Rattle.tables.specs.Numbered.{numbered};
ghost use Rattle.tables.specs.Validity.{Core};
ghost use Rattle.rules.specs.Deadlock.{deadlocked, victim};
ghost use Rattle.table_fields.specs.Sizes.{lock_places};
ghost use Rattle.table_chains.specs.Promises.{Some, Tells};
ghost use Rattle.deadlock_graph.specs.Promises.{seen};
ghost use Rattle.deadlock_graph.specs.Links.{link_width};
ghost use Rattle.deadlock_search.specs.Searches.{first_of, HasList, OnList, FirstUnmarked, Looks, Looked, SoughtLock};
ghost use Rattle.deadlock_search.specs.Searches.{Following, Followed, Searching, Entered, Searched, Trying, Ready, Room, Free};

use deadlock_graph::{
    LINK_AHEAD, LINK_HOLDER, LINK_MATE, LINK_NEXT, LINK_OWNER, LINKS, bars, blocked_locks, link,
};
use deadlock_lines::link_lines;
use deadlock_owners::number_owners;
use deadlock_prune::{clear_ends, clear_free_lines};
use table_fields::{LOCK_PLACES, RESOURCE_PLACES, lock_count};

// The first lock without a mark on an owner's list, from `first` on, or 0. The number is stored as the head of the list, where
// 0 is none: an Option would be turned back into it. So it is with the head that `first_of` answers. The words are not read
// here: the contract speaks of the state in them.
fn unmarked_from(words: &[u32], links: &[u16], marks: &[bool; LOCK_PLACES], first: u16) -> u16
    requires { OnList words.now links.now marks.now first }
    ensures { FirstUnmarked words.now links.now marks.now first result }
{
    let mut b = first;
    while b != 0 {
        if !marks[b as usize] {
            return b;
        }
        b = link(links, b, LINK_MATE);
    }
    0
}

// The first lock on the list of the owner of the holder j.
#[tactic(auto, using(crate::proofs::OwnerLists::first_laws))]
fn first_of(links: &[u16], heads: &[u16], j: u16) -> u16
    requires { HasList links.now j heads.now }
    ensures { result ≡ first_of links.now heads.now j }
{
    let owner = link(links, j, LINK_OWNER);
    heads[owner as usize]
}

// Whether the owner of the holder j has a blocked lock without a mark and j is in a's way. That lock is the first on the
// owner's list then: locks with a mark go from the front of the list first, so that a search passes each of them once and reads
// no words of a holder whose owner has none left.
fn stops(
    words: &[u32],
    links: &[u16],
    marks: &[bool; LOCK_PLACES],
    a: u16,
    j: u16,
    heads: &mut [u16],
) -> bool
    requires looks { Looks words.now links.now a j heads.old marks.now }
    requires j_nonzero { j ≢ 0 }
    ensures { Looked words.now links.now a j heads.old marks.now heads.new result }
{
    let first = first_of(links, heads, j);
    if first == 0 {
        return false;
    }
    let b = unmarked_from(words, links, marks, first);
    let owner = link(links, j, LINK_OWNER);
    heads[owner as usize] = b;
    if b == 0 {
        return false;
    }
    bars(words, a, j)
}

// The first such holder, from `at` on. Holders in NL are left out.
fn seek(
    words: &[u32],
    links: &[u16],
    marks: &[bool; LOCK_PLACES],
    a: u16,
    at: u16,
    heads: &mut [u16],
) -> Option<u16>
    requires { Looks words.now links.now a at heads.old marks.now }
    ensures { SoughtLock words.now links.now a at heads.old marks.now heads.new result }
{
    let mut j = at;
    while j != 0 {
        if stops(words, links, marks, a, j, heads) {
            return Some(j);
        }
        j = link(links, j, LINK_NEXT);
    }
    None
}

// Whether the target is found by way of b, where there is such a lock: through locks without a mark.
#[cycle(follow_follow_owners_search)]
fn follow(
    words: &[u32],
    links: &[u16],
    b: u16,
    target: u16,
    depth: u16,
    heads: &mut [u16],
    marks: &mut [bool; LOCK_PLACES],
) -> bool
    requires { Following words.now links.now b target depth heads.old marks.old }
    ensures { Followed words.now links.now b target heads.old marks.old heads.new marks.new result }
{
    if b == 0 {
        return false;
    }
    if b == target {
        return true;
    }
    if marks[b as usize] {
        return false;
    }
    marks[b as usize] = true;
    search(words, links, b, target, depth - 1, heads, marks)
}

// Whether the target is found by way of the blocked locks of the owners that are in the way of `from`.
#[cycle(follow_follow_owners_search)]
fn follow_owners(
    words: &[u32],
    links: &[u16],
    from: u16,
    target: u16,
    depth: u16,
    heads: &mut [u16],
    marks: &mut [bool; LOCK_PLACES],
) -> bool
    requires { Entered words.now links.now from target depth heads.old marks.old }
    ensures { Searched words.now links.now from target heads.old marks.old heads.new marks.new result }
{
    let mut at = link(links, from, LINK_HOLDER);
    while let Some(j) = seek(words, links, marks, from, at, heads) {
        let b = first_of(links, heads, j);
        if follow(words, links, b, target, depth, heads, marks) {
            return true;
        }
        at = j;
    }
    false
}

// Whether the target is found from `from`, which is entered, through locks without a mark and in no more steps than the
// depth. The lock right ahead comes first: it leads to those further ahead.
#[cycle(follow_follow_owners_search)]
fn search(
    words: &[u32],
    links: &[u16],
    from: u16,
    target: u16,
    depth: u16,
    heads: &mut [u16],
    marks: &mut [bool; LOCK_PLACES],
) -> bool
    requires { Searching words.now links.now from target depth heads.old marks.old }
    ensures { Searched words.now links.now from target heads.old marks.old heads.new marks.new result }
{
    if depth == 0 {
        return false;
    }
    if follow(
        words,
        links,
        link(links, from, LINK_AHEAD),
        target,
        depth,
        heads,
        marks,
    ) {
        return true;
    }
    follow_owners(words, links, from, target, depth, heads, marks)
}

// Whether the blocked lock a leads back to itself. A search begins with the owners' whole lists. No cycle passes a cleared
// lock, so these have their marks from the start.
fn on_cycle(
    words: &[u32],
    links: &[u16],
    firsts: &[u16],
    a: u16,
    depth: u16,
    cleared: &[bool; LOCK_PLACES],
    heads: &mut [u16],
) -> bool
    requires trying { Trying words.now links.now a depth firsts.now cleared.now }
    requires heads_len { length heads.old ≡ length firsts.now }
    ensures { result ≡ deadlocked (seen words.now) a }
{
    if cleared[a as usize] {
        return false;
    }
    table_names::copy_numbers(heads, firsts);
    let mut marks = *cleared;
    search(words, links, a, a, depth, heads, &mut marks)
}

// The first lock on the blocked chain that leads back to itself. A lock that does not is cleared: no later search enters it. A
// search is never deeper than the count of blocked locks that were left.
fn first_on_cycle(
    words: &[u32],
    links: &[u16],
    firsts: &[u16],
    left: u16,
    mut cleared: [bool; LOCK_PLACES],
    heads: &mut [u16],
) -> Option<u32>
    requires ready { Ready words.now links.now left firsts.now cleared }
    requires heads_len { length heads.old ≡ length firsts.now }
    ensures { result ≡ numbered (victim (seen words.now)) }
{
    for k in blocked_locks(words) {
        if on_cycle(words, links, firsts, k, left, &cleared, heads) {
            return Some(u32::from(k));
        }
        cleared[k as usize] = true;
    }
    None
}

// The same where free lines are cleared, with arrays that are as large as the tables need.
fn victim_in(
    words: &[u32],
    cleared: &mut [bool; LOCK_PLACES],
    links: &mut [u16],
    firsts: &mut [u16],
    heads: &mut [u16],
) -> Option<u32>
    requires { Room words.now cleared.old links.old firsts.old heads.old }
    ensures { result ≡ numbered (victim (seen words.now)) }
{
    let mut lasts = [0; RESOURCE_PLACES];
    link_lines(words, cleared, links, &mut lasts);
    number_owners(words, &lasts, links, firsts, heads);
    let left = clear_ends(words, links, &mut lasts, cleared);
    if left == 0 {
        return None;
    }
    first_on_cycle(words, links, firsts, left, *cleared, heads)
}

// Places and links for up to 32, 256 and 1,024 locks: to clear the large arrays takes longer than a break on small tables.
const SMALL_PLACES: usize = 33;

const SMALL_LINKS: usize = LINKS * SMALL_PLACES;

const MIDDLE_PLACES: usize = 257;

const MIDDLE_LINKS: usize = LINKS * MIDDLE_PLACES;

const LARGE_LINKS: usize = LINKS * LOCK_PLACES;

// The same with arrays of so many places and links.
fn victim_sized<const PLACES: usize, const LINK_WORDS: usize>(
    words: &[u32],
    free: &mut [bool; LOCK_PLACES],
) -> Option<u32>
    requires free { Free PLACES words.now free.old }
    requires rows { LINK_WORDS ≡ link_width * PLACES }
    requires few { PLACES ≤ lock_places }
    ensures { result ≡ numbered (victim (seen words.now)) }
{
    let mut links = [0; LINK_WORDS];
    let mut firsts = [0; PLACES];
    let mut heads = [0; PLACES];
    victim_in(words, free, &mut links, &mut firsts, &mut heads)
}

// The lock that is denied to break a deadlock. Where no owner of a blocked lock holds more than NL where a lock is blocked,
// there is none, and nothing is searched.
pub fn victim(words: &[u32]) -> Option<u32>
    requires { Some Core words.now }
    ensures { Tells Core (λ t. numbered (victim t)) words.now result }
{
    let mut free = [false; LOCK_PLACES];
    if clear_free_lines(words, &mut free) {
        return None;
    }
    let locks = lock_count(words) as usize;
    if locks < SMALL_PLACES {
        return victim_sized::<SMALL_PLACES, SMALL_LINKS>(words, &mut free);
    }
    if locks < MIDDLE_PLACES {
        return victim_sized::<MIDDLE_PLACES, MIDDLE_LINKS>(words, &mut free);
    }
    victim_sized::<LOCK_PLACES, LARGE_LINKS>(words, &mut free)
}
