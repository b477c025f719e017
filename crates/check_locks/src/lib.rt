#![tactic(auto)]
// Tests of a lock that is met on a home chain, one for each state.
ghost use Rattle.std.specs.Prelude.{◌≡◌, true, ◌&&◌, ◌||◌, ◌≤◌, eqb};
ghost use Rattle.tables.specs.State.{noticed, state_free, state_granted, state_converting, state_waiting, state_denied};
ghost use Rattle.tables.specs.Layout.{of_lock, resources_in, locks_in, word_in};
ghost use Rattle.tables.specs.Sound.{client_right, modes_right, granted_completion};
ghost use Rattle.table_fields.specs.Sizes.{Sized};
ghost use Rattle.table_names.specs.Names.{named};
ghost use Rattle.check_laws.specs.Check.{stands};

use table_fields::{
    COMPLETION_CONVERSION_DENIED, COMPLETION_DENIED, COMPLETION_GRANTED, COMPLETION_NONE,
    LAST_CLIENT, LAST_MODE, LOCK_NEXT_BLOCKED, LOCK_NEXT_NOTICE, MARK_NONE, STATE_CONVERTING,
    STATE_DENIED, STATE_FREE, STATE_GRANTED, STATE_WAITING, is_noticed, lock_at, lock_word,
};
use tables::Lock;

// The lock has a client.
#[tactic(auto, unfolding(tables::specs::Sound::client_right))]
fn client_right(l: Lock) -> bool
    ensures { result ≡ client_right l.client }
{
    (1 <= l.client) & (l.client <= LAST_CLIENT)
}

// It holds and asks for a mode from 0 to 5, and its mark is at most 5.
#[tactic(auto, unfolding(tables::specs::Sound::modes_right))]
fn modes_right(l: Lock) -> bool
    ensures { result ≡ modes_right l }
{
    (l.held <= LAST_MODE) & (l.asked <= LAST_MODE) & (l.mark <= LAST_MODE)
}

// The granted lock has no completion, or one that says that it was granted or that its conversion was denied.
fn granted_completion(l: Lock) -> bool
    ensures { result ≡ granted_completion l.completion }
{
    (l.completion == COMPLETION_NONE)
        | (l.completion == COMPLETION_GRANTED)
        | (l.completion == COMPLETION_CONVERSION_DENIED)
}

// The lock k, whose record is l, belongs on the notice chain, or its link there is zero.
fn notice_link_right(words: &[u32], k: u32, l: Lock) -> bool
    requires sized { Sized words.now }
    requires le_k { (1 ≤ k) × (k ≤ locks_in words.now) }
    ensures { result ≡ (noticed l || eqb (word_in words.now (of_lock k 2)) 0) }
{
    is_noticed(l) | (lock_word(words, k, LOCK_NEXT_NOTICE) == 0)
}

// The same of a granted lock, and its completion is right. Most locks have no notice: the link's test is then all that is
// left.
#[tactic(auto, using(crate::proofs::LockStates::notice_some, crate::proofs::LockStates::notice_none))]
fn notice_right(words: &[u32], k: u32, l: Lock) -> bool
    requires sized { Sized words.now }
    requires le_k { (1 ≤ k) × (k ≤ locks_in words.now) }
    ensures { result ≡ (granted_completion l.completion && (noticed l || eqb (word_in words.now (of_lock k 2)) 0)) }
{
    if is_noticed(l) {
        return granted_completion(l);
    }
    lock_word(words, k, LOCK_NEXT_NOTICE) == 0
}

// These tests are of a lock that is met on a home chain: its state and its resource are that chain's, its other fields
// are right, and its link on the blocked or the notice chain is zero if it does not belong there. Of a free lock all
// but its home link is zero.
#[tactic(auto, using(crate::proofs::LockStates::free_stands))]
pub fn stands_free(words: &[u32], k: u32) -> bool
    requires sized { Sized words.now }
    requires le_k { (1 ≤ k) × (k ≤ locks_in words.now) }
    ensures { result ≡ stands words.now state_free 0 k }
{
    let l = lock_at(words, k);
    (l.state == STATE_FREE)
        & (l.resource == 0)
        & (l.client == 0)
        & (l.held == 0)
        & (l.asked == 0)
        & (l.completion == COMPLETION_NONE)
        & (l.mark == MARK_NONE)
        & (lock_word(words, k, LOCK_NEXT_BLOCKED) == 0)
        & (lock_word(words, k, LOCK_NEXT_NOTICE) == 0)
}

// A denied lock: it has a client and a completion that is unread, and no mark.
#[tactic(auto, using(crate::proofs::LockStates::denied_stands))]
pub fn stands_denied(words: &[u32], k: u32) -> bool
    requires sized { Sized words.now }
    requires le_k { (1 ≤ k) × (k ≤ locks_in words.now) }
    ensures { result ≡ stands words.now state_denied 0 k }
{
    let l = lock_at(words, k);
    (l.state == STATE_DENIED)
        & (l.resource == 0)
        & client_right(l)
        & (l.held == 0)
        & (l.asked == 0)
        & (l.completion == COMPLETION_DENIED)
        & (l.mark == MARK_NONE)
        & (lock_word(words, k, LOCK_NEXT_BLOCKED) == 0)
}

// A lock granted on resource r, which is in use: it asks for nothing, and it may have an unread completion and a mark. The
// notice is looked at last, after a `return` of its own: the walk along the grant chain then needs fewer registers.
#[tactic(auto, using(crate::proofs::LockStates::granted_off, crate::proofs::LockStates::granted_on))]
pub fn stands_granted(words: &[u32], r: u32, k: u32) -> bool
    requires sized { Sized words.now }
    requires le_k { (1 ≤ k) × (k ≤ locks_in words.now) }
    requires le_r { (1 ≤ r) × (r ≤ resources_in words.now) }
    requires r_value { named words.now r ≡ true }
    ensures { result ≡ stands words.now state_granted r k }
{
    let l = lock_at(words, k);
    let right = (l.state == STATE_GRANTED)
        & (l.resource == r)
        & client_right(l)
        & modes_right(l)
        & (l.asked == 0)
        & (lock_word(words, k, LOCK_NEXT_BLOCKED) == 0);
    if !right {
        return false;
    }
    notice_right(words, k, l)
}

// A lock converting on resource r, which is in use: it may have a mark.
#[tactic(auto, using(crate::proofs::LockStates::converting_stands))]
pub fn stands_converting(words: &[u32], r: u32, k: u32) -> bool
    requires sized { Sized words.now }
    requires le_k { (1 ≤ k) × (k ≤ locks_in words.now) }
    requires le_r { (1 ≤ r) × (r ≤ resources_in words.now) }
    requires r_value { named words.now r ≡ true }
    ensures { result ≡ stands words.now state_converting r k }
{
    let l = lock_at(words, k);
    (l.state == STATE_CONVERTING)
        & (l.resource == r)
        & client_right(l)
        & modes_right(l)
        & (l.completion == COMPLETION_NONE)
        & notice_link_right(words, k, l)
}

// A lock waiting on resource r, which is in use: it holds nothing and has no mark.
#[tactic(auto, using(crate::proofs::LockStates::waiting_stands))]
pub fn stands_waiting(words: &[u32], r: u32, k: u32) -> bool
    requires sized { Sized words.now }
    requires le_k { (1 ≤ k) × (k ≤ locks_in words.now) }
    requires le_r { (1 ≤ r) × (r ≤ resources_in words.now) }
    requires r_value { named words.now r ≡ true }
    ensures { result ≡ stands words.now state_waiting r k }
{
    let l = lock_at(words, k);
    (l.state == STATE_WAITING)
        & (l.resource == r)
        & client_right(l)
        & modes_right(l)
        & (l.completion == COMPLETION_NONE)
        & (l.held == 0)
        & (l.mark == MARK_NONE)
        & (lock_word(words, k, LOCK_NEXT_NOTICE) == 0)
}
