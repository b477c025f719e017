#![tactic(auto)]
// When a lock begins to wait, each lock that is in its way is told: it gets a mark, and a place on the notice chain if it
// has none there. The end of the notice chain is looked for once, and each lock that joins is the next end.
ghost use Rattle.std.specs.Prelude.{◌≡◌};
ghost use Rattle.tables.specs.State.{with_notice, lock};
ghost use Rattle.tables.specs.Grants.{fits};
ghost use Rattle.rules.specs.Calls.{larger, mark_lock, tell_obstacles};
ghost use Rattle.tables.specs.Validity.{Core};
ghost use Rattle.table_chains.specs.Promises.{Some, Turns, Tells};
ghost use Rattle.table_fields.specs.Sizes.{Kept};
ghost use Rattle.marks.specs.Telling.{tell, notices_end};
ghost use Rattle.marks.specs.Promises.{Markable, Tellable, Hearing, Heard, Begun};

use deadlock_graph::in_the_way;
use table_fields::{
    LOCK_ASKED, LOCK_NEXT, LOCK_NEXT_NOTICE, LOCK_RESOURCE, NOTICES, RESOURCE_CONVERT,
    RESOURCE_GRANT, counts_at, is_noticed, lock_at, lock_start, lock_word, put_lock, resource_word,
};
use tables::Lock;

// The lock l as it is when it has been told of the mode.
fn with_mark(l: Lock, mode: u32) -> Lock
    ensures { result ≡ with_notice l.completion (larger mode l.mark) l }
{
    let mark = mode.max(l.mark);
    Lock { mark, ..l }
}

// The lock j, which holds a mode, is told that it is in the way of the mode. Where it has no notice yet it joins the
// notice chain, whose last cell is at `end`. Answers where the last cell is then.
fn mark_lock(words: &mut [u32], j: u32, mode: u32, end: usize) -> usize
    requires some { Some (Markable j mode) words.old }
    requires end_value { end ≡ notices_end words.old }
    ensures turns { Turns (Markable j mode) (mark_lock mode j) words.old words.new }
    ensures value { result ≡ notices_end words.new }
    ensures kept { Kept words.old words.new }
{
    let l = lock_at(words, j);
    if is_noticed(l) {
        put_lock(words, j, with_mark(l, mode));
        return end;
    }
    words[end] = j;
    put_lock(words, j, with_mark(l, mode));
    lock_start(words, j) + LOCK_NEXT_NOTICE
}

// The lock j, which holds a mode where k waits, is told if it is in the way of k.
fn tell(words: &mut [u32], k: u32, j: u32, end: usize) -> usize
    requires some { Some (Tellable k j) words.old }
    requires end_value { end ≡ notices_end words.old }
    ensures turns { Turns (Tellable k j) (tell k j) words.old words.new }
    ensures value { result ≡ notices_end words.new }
    ensures kept { Kept words.old words.new }
{
    if !in_the_way(words, k, j) {
        return end;
    }
    let mode = lock_word(words, k, LOCK_ASKED);
    mark_lock(words, j, mode, end)
}

// Each lock of a queue, of which `first` is the first, is told if it is in the way of k.
fn tell_each(words: &mut [u32], k: u32, first: u32, end: usize) -> usize
    requires hearing { Hearing k first words.old }
    requires end_value { end ≡ notices_end words.old }
    ensures heard { Heard k first words.old words.new }
    ensures value { result ≡ notices_end words.new }
    ensures kept { Kept words.old words.new }
{
    let mut last = end;
    let mut j = first;
    while j != 0 {
        last = tell(words, k, j, last);
        j = lock_word(words, j, LOCK_NEXT);
    }
    last
}

// Where the last cell of the notice chain is, which holds 0.
fn notices_end(words: &[u32]) -> usize
    requires { Some Core words.now }
    ensures { result ≡ notices_end words.now }
{
    let cells = table_chains::lock_cells(words, NOTICES, LOCK_NEXT_NOTICE);
    cells.holding(words, 0)
}

// Whoever is in the way of the lock k is told, those granted there first, then those converting.
fn tell_all(words: &mut [u32], k: u32)
    requires { Some (Begun k) words.old }
    ensures { Turns (Begun k) (tell_obstacles k) words.old words.new }
{
    let end = notices_end(words);
    let r = lock_word(words, k, LOCK_RESOURCE);
    let granted = resource_word(words, r, RESOURCE_GRANT);
    let last = tell_each(words, k, granted, end);
    let converting = resource_word(words, r, RESOURCE_CONVERT);
    tell_each(words, k, converting, last);
}

// Whether what the lock k asks for is compatible with every mode that another holds there, by the counts. It grants
// nothing, so the masks tell it, in less time than the table.
fn unhindered(words: &[u32], k: u32) -> bool
    requires { Some (Begun k) words.now }
    ensures { Tells (Begun k) (λ t. fits t (lock t k).resource k (lock t k).asked) words.now result }
{
    let l = lock_at(words, k);
    modes::fits_by_masks(
        queues::modes_of_others(counts_at(words, l.resource), l),
        l.asked,
    )
}

// The lock k has begun to wait, and whoever is in its way is told. Nobody is if it waits only because others do.
pub fn tell_obstacles(words: &mut [u32], k: u32)
    requires { Some (Begun k) words.old }
    ensures { Turns (Begun k) (tell_obstacles k) words.old words.new }
{
    if unhindered(words, k) {
        return;
    }
    tell_all(words, k);
}
