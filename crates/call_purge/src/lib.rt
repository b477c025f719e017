#![tactic(auto)]
// A purge, in place: every lock of a client is freed, and then each resource on which it stood is settled.
ghost use Rattle.std.specs.Prelude.{◌≡◌, ◌<◌, length};
ghost use Rattle.tables.specs.State.{most_locks};
ghost use Rattle.tables.specs.Validity.{Core};
ghost use Rattle.rules.specs.Calls.{purge_lock, purge_change};
ghost use Rattle.rules.specs.Accepted.{Purgeable};
ghost use Rattle.table_fields.specs.Sizes.{resource_places};
ghost use Rattle.table_chains.specs.Promises.{Changes, Resourced};
ghost use Rattle.queues.specs.Promises.{Locked, SomeTables};
ghost use Rattle.answers.specs.Answers.{purge_answer};
ghost use Rattle.answers.specs.Promises.{Makes};
ghost use Rattle.call_purge.specs.PurgedLocks.{counts_of, added, Few, spoil};
ghost use Rattle.call_purge.specs.PurgedLocks.{purge_own, mark_own, count_own, purge_all, mark_all, count_all, Frees};
ghost use Rattle.table_chains.specs.Marks.{marked};
ghost use Rattle.call_purge.specs.SettledResources.{settle_if, settle_marked};

use answers::Purged;
use modes::Mode;
use table_fields::{RESOURCE_PLACES, is_blocked, is_unread, lock_at, lock_count, resource_count};
use tables::Lock;

// Flag 2: the value is made not valid.
const SPOIL: u32 = 2;

// What no lock counts for.
const NO_COUNTS: Purged = Purged {
    freed: 0,
    blocked: 0,
    unread: 0,
};

// What the lock l counts for.
fn counts_of(l: Lock) -> Purged
    ensures { result ≡ counts_of l }
{
    Purged {
        freed: 1,
        blocked: u32::from(is_blocked(l)),
        unread: u32::from(is_unread(l)),
    }
}

// The counts of both, each at most all locks that there may be, so that the sums fit.
fn added(a: Purged, b: Purged) -> Purged
    requires few { Few most_locks a }
    requires few_2 { Few most_locks b }
    ensures { result ≡ added a b }
{
    Purged {
        freed: a.freed + b.freed,
        blocked: a.blocked + b.blocked,
        unread: a.unread + b.unread,
    }
}

// Where lock k holds PW or EX, the value of its resource becomes not valid.
fn spoil_value(words: &mut [u32], slots: &mut [u8], k: u32)
    requires { SomeTables (Locked k) words.old slots.old }
    ensures { Changes (Locked k) (spoil k) words.old slots.old words.new slots.new }
{
    let l = lock_at(words, k);
    if l.held < Mode::PW as u32 {
        return;
    }
    queues::leave_value(words, slots, true, SPOIL, b"", l.resource);
}

// The lock k is freed with its notice.
#[tactic(auto, using(crate::proofs::OneLock::purge_laws))]
fn purge_lock(words: &mut [u32], slots: &mut [u8], k: u32)
    requires { SomeTables (Locked k) words.old slots.old }
    ensures { Changes (Locked k) (purge_lock k) words.old slots.old words.new slots.new }
{
    spoil_value(words, slots, k);
    queues::free_lock(words, k, 0);
}

// If lock k is the client's, its resource is marked and the lock is purged. Answers what it counts for, as it was. A
// denied lock stands on no resource: it marks place 0.
fn purge_own(words: &mut [u32], slots: &mut [u8], client: u32, k: u32, marks: &mut [bool]) -> Purged
    requires some_tables { SomeTables (Locked k) words.old slots.old }
    requires marks_len { length marks.old ≡ resource_places }
    ensures { Frees (Locked k) (purge_own client k) (mark_own client k marks.old) (count_own client k) words.old slots.old words.new slots.new marks.new result }
{
    let l = lock_at(words, k);
    if l.client != client {
        return NO_COUNTS;
    }
    marks[l.resource as usize] = true;
    purge_lock(words, slots, k);
    counts_of(l)
}

// The client's locks are purged, ascending, and their resources marked. Answers what they count for.
fn purge_locks(words: &mut [u32], slots: &mut [u8], client: u32, marks: &mut [bool]) -> Purged
    requires some_tables { SomeTables Core words.old slots.old }
    requires marks_len { length marks.old ≡ resource_places }
    ensures { Frees Core (purge_all client) (mark_all client marks.old) (count_all client) words.old slots.old words.new slots.new marks.new result }
{
    let mut counts = NO_COUNTS;
    for k in 1..lock_count(words) + 1 {
        let own = purge_own(words, slots, client, k, marks);
        counts = added(counts, own);
    }
    counts
}

// The resource r is settled, if it is marked.
#[tactic(auto, using(crate::proofs::MarkedResources::settle_laws))]
fn settle_if_marked(words: &mut [u32], slots: &mut [u8], marks: &[bool], r: u32)
    requires some_tables { SomeTables (Resourced r) words.old slots.old }
    requires r_in_bounds { r < length marks.now }
    ensures { Changes (Resourced r) (settle_if (marked marks.now r) r) words.old slots.old words.new slots.new }
{
    if !marks[r as usize] {
        return;
    }
    queues::settle(words, slots, r, 0);
}

// The marked resources are settled, ascending.
fn settle_marked(words: &mut [u32], slots: &mut [u8], marks: &[bool])
    requires some_tables { SomeTables Core words.old slots.old }
    requires marks_len { length marks.now ≡ resource_places }
    ensures { Changes Core (settle_marked marks.now) words.old slots.old words.new slots.new }
{
    for r in 1..resource_count(words) + 1 {
        settle_if_marked(words, slots, marks, r);
    }
}

// All locks of the client are freed; then the resources on which it stood are settled. Answers what was counted.
pub fn purge_change(words: &mut [u32], slots: &mut [u8], client: u32) -> Purged
    requires { SomeTables (Purgeable client) words.old slots.old }
    ensures { Makes (Purgeable client) (purge_change client) words.old slots.old words.new slots.new (purge_answer result) }
{
    let mut marks = [false; RESOURCE_PLACES];
    let counts = purge_locks(words, slots, client, &mut marks);
    settle_marked(words, slots, &marks);
    counts
}
