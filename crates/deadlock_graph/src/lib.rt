#![tactic(auto, using(crate::proofs::HolderWalks::holder_laws))]
// Blocked locks in the lent words: who has a lock, who is in whose way, and the locks of a chain one after the other. The
// definitions and laws that `deadlock_lines`, `deadlock_owners`, `deadlock_prune` and `deadlock_search` share are here, so
// that an edit of their code does not prove these again.
//
// A lock number has 16 bits here and in those crates: none is above 1,024. It is wide only where a word is read.
ghost use Rattle.std.specs.Prelude.{◌≡◌, ◌≢◌, ◌+◌, ◌*◌, ◌≤◌, ◌<◌, eqb, set, length};
ghost use Rattle.tables.specs.Lists.{first, next};
ghost use Rattle.tables.specs.State.{lock};
ghost use Rattle.std.specs.Iterator.{item_count};
ghost use Rattle.tables.specs.Layout.{of_header, of_resource, of_lock, resources_in, word_in, onward};
ghost use Rattle.tables.specs.Grants.{holders};
ghost use Rattle.tables.specs.Validity.{Core};
ghost use Rattle.rules.specs.Deadlock.{in_the_way, owner};
ghost use Rattle.table_chains.specs.Promises.{Some};
ghost use Rattle.table_chains.specs.Walking.{At, Walking};
ghost use Rattle.deadlock_graph.specs.Promises.{seen, Blocked, Asks, StandsOn, OnChain, Stepped};
ghost use Rattle.deadlock_graph.specs.Holders.{Holds};
ghost use Rattle.deadlock_graph.specs.Links.{link_width, link_of};

use modes::goes_with;
use table_fields::{
    BLOCKED, LOCK_ASKED, LOCK_CLIENT, LOCK_HELD, LOCK_NEXT, LOCK_NEXT_BLOCKED, LOCK_RESOURCE,
    LOCK_STATE, RESOURCE_CONVERT, RESOURCE_GRANT, RESOURCE_WAIT, STATE_GRANTED, header_word,
    lock_word, resource_word,
};

// What is kept of each lock, in a row of links at its number: the lock right ahead of it on its line; the holder at which it
// begins to look who is in its way; its owner's number; the next blocked lock of its owner; the next holder on its resource
// that holds more than NL, if it does so itself.
pub const LINKS: usize = 5;

pub const LINK_AHEAD: usize = 0;

pub const LINK_HOLDER: usize = 1;

pub const LINK_OWNER: usize = 2;

pub const LINK_MATE: usize = 3;

pub const LINK_NEXT: usize = 4;

// The locks of a chain, one after the other: the word FIELD of each names the next, or 0.
#[derive(Drop)]
pub struct Chain<'a, const FIELD: usize> {
    words: &'a [u32],
    next: u16,
}

impl<'a, const FIELD: usize> Iterator for Chain<'a, FIELD> {
    type Item = u16;

    ghost can_next = { λ s. OnChain FIELD s.words.now s.next };

    ghost next_gives = { λ s r t. Stepped FIELD s.words.now s.next r t.words.now t.next };

    ghost remaining = { item_count (λ s. onward s.words.now FIELD s.next) };

    fn next(&mut self) -> Option<u16> {
        let k = self.next;
        if k == 0 {
            return None;
        }
        self.next = lock_word(self.words, k as u32, FIELD) as u16;
        Some(k)
    }
}

// The blocked locks.
pub fn blocked_locks<'a>(words: &'a [u32]) -> Chain<'a, LOCK_NEXT_BLOCKED>
    requires { Some Core words.now }
    ensures starts { result.next ≡ word_in words.now (of_header 5) }
    ensures same { result.words.now ≡ words.now }
    ensures walks { OnChain 1 result.words.now result.next }
{
    Chain {
        words,
        next: header_word(words, BLOCKED) as u16,
    }
}

// The locks of a home chain, from `first` on.
pub fn locks_from<'a>(words: &'a [u32], first: u16) -> Chain<'a, LOCK_NEXT>
    requires { Walking words.now 0 first }
    ensures starts { result.next ≡ first }
    ensures same { result.words.now ≡ words.now }
    ensures walks { OnChain 0 result.words.now result.next }
{
    Chain { words, next: first }
}

// The line of resource r: the first that converts, and the first that waits. Each is a name for one line, which several crates
// call, and answers the word as it stands in the table, where 0 is none.
pub fn first_converting(words: &[u32], r: u32) -> u16
    requires some { Some Core words.now }
    requires le_r { (1 ≤ r) × (r ≤ resources_in words.now) }
    ensures { result ≡ word_in words.now (of_resource r 2) }
{
    resource_word(words, r, RESOURCE_CONVERT) as u16
}

pub fn first_waiting(words: &[u32], r: u32) -> u16
    requires some { Some Core words.now }
    requires le_r { (1 ≤ r) × (r ≤ resources_in words.now) }
    ensures { result ≡ word_in words.now (of_resource r 3) }
{
    resource_word(words, r, RESOURCE_WAIT) as u16
}

// The holders on resource r, those that are granted and then those that convert: the first, and the one after k.
pub fn first_holder(words: &[u32], r: u32) -> u16
    requires some { Some Core words.now }
    requires le_r { (1 ≤ r) × (r ≤ resources_in words.now) }
    ensures { result ≡ first (holders (seen words.now) r) }
{
    let granted = resource_word(words, r, RESOURCE_GRANT);
    if granted != 0 {
        return granted as u16;
    }
    first_converting(words, r)
}

pub fn next_holder(words: &[u32], k: u16) -> u16
    requires { Holds words.now k }
    ensures { result ≡ next k (holders (seen words.now) (lock (seen words.now) k).resource) }
{
    let after = lock_word(words, k as u32, LOCK_NEXT);
    if after != 0 {
        return after as u16;
    }
    if lock_word(words, k as u32, LOCK_STATE) != STATE_GRANTED {
        return 0;
    }
    first_converting(words, lock_word(words, k as u32, LOCK_RESOURCE))
}

// Who owns lock k. A blocked lock leads to the blocked locks of the owners that are in its way.
pub fn owner_of(words: &[u32], k: u16) -> usize
    requires { At words.now k }
    ensures { result ≡ owner (lock (seen words.now) k) }
{
    lock_word(words, k as u32, LOCK_CLIENT) as usize
}

// The resource on which the blocked lock k stands.
pub fn resource_of(words: &[u32], k: u16) -> u32
    requires { Blocked words.now k }
    ensures { StandsOn words.now k result }
{
    lock_word(words, k as u32, LOCK_RESOURCE)
}

// Whether lock k holds NL, which is in nobody's way.
pub fn holds_null(words: &[u32], k: u16) -> bool
    requires { At words.now k }
    ensures { result ≡ eqb (lock (seen words.now) k).held 0 }
{
    lock_word(words, k as u32, LOCK_HELD) == 0
}

// The mode that lock k asks for.
pub fn asked_of(words: &[u32], k: u16) -> usize
    requires { At words.now k }
    ensures { Asks words.now k result }
{
    lock_word(words, k as u32, LOCK_ASKED) as usize
}

// Whether the mode that j holds is incompatible with the mode that a, another lock, asks for.
pub fn in_the_way(words: &[u32], a: u32, j: u32) -> bool
    requires at { At words.now a }
    requires at_2 { At words.now j }
    ensures { result ≡ in_the_way (seen words.now) a j }
{
    let held = lock_word(words, j, LOCK_HELD);
    let asked = lock_word(words, a, LOCK_ASKED);
    (j != a) & !goes_with(held, asked)
}

// The same for the search, of lock numbers in 16 bits. The matrix is not asked of NL, which most locks hold that convert.
pub fn bars(words: &[u32], a: u16, j: u16) -> bool
    requires at { At words.now a }
    requires at_2 { At words.now j }
    ensures { result ≡ in_the_way (seen words.now) a j }
{
    if holds_null(words, j) {
        return false;
    }
    let mode = lock_word(words, j as u32, LOCK_HELD);
    let asked = lock_word(words, a as u32, LOCK_ASKED);
    (j != a) & !goes_with(mode, asked)
}

// A link of lock k, and the store of one.
pub fn link(links: &[u16], k: u16, field: usize) -> u16
    requires field_lt_link_width { field < link_width }
    requires field_in_bounds { link_width * k + field < length links.now }
    ensures { result ≡ link_of links.now k field }
{
    links[LINKS * k as usize + field]
}

pub fn put_link(links: &mut [u16], k: u16, field: usize, x: u16)
    requires field_lt_link_width { field < link_width }
    requires field_in_bounds { link_width * k + field < length links.old }
    ensures { links.new ≡ set links.old (link_width * k + field) x }
{
    links[LINKS * k as usize + field] = x;
}
