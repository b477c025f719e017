#![tactic(auto)]
// Releasing a lock, and cancelling one that is blocked: what these calls change, in place on the lent words and slots.
ghost use Rattle.std.specs.Prelude.{◌≡◌};
ghost use Rattle.rules.specs.Calls.{accepted, release_change, restored, cancel_change};
ghost use Rattle.rules.specs.Accepted.{Releasable, Cancellable};
ghost use Rattle.table_chains.specs.Promises.{Some, Turns};
ghost use Rattle.queues.specs.Promises.{SomeTables};
ghost use Rattle.answers.specs.Answers.{cancel_answer};
ghost use Rattle.answers.specs.Promises.{Makes, MakesWords};
ghost use Rattle.call_release.specs.Promises.{Restorable, restore};

use answers::Cancelled;
use modes::Mode;
use table_chains::Hints;
use table_fields::lock_at;
use tables::Lock;

// A hint at the last lock of the grant chain when k has left it.
fn last_without(k: u32, hints: Hints) -> u32 {
    if hints.last == k {
        return hints.before;
    }
    hints.last
}

// The lock k, which is granted, is freed, and its resource settled. PW and EX are the modes that may leave a value. The hints
// are at the lock before it on the grant chain, and at the last one there.
pub fn release_change(
    words: &mut [u32],
    slots: &mut [u8],
    k: u32,
    flags: u32,
    value: &[u8],
    hints: Hints,
)
    requires { SomeTables (Releasable k flags value.now) words.old slots.old }
    ensures { Makes (Releasable k flags value.now) (release_change k flags value.now) words.old slots.old words.new slots.new (accepted 0 0) }
{
    let l = lock_at(words, k);
    let strong = Mode::PW as u32 <= l.held;
    queues::leave_value(words, slots, strong, flags, value, l.resource);
    queues::free_lock(words, k, hints.before);
    queues::settle(words, slots, l.resource, last_without(k, hints));
}

// What a converting lock becomes when its conversion ends without a grant: granted at the mode that it held.
pub fn restored(l: Lock, completion: u32) -> Lock
    ensures { result ≡ restored completion l }
{
    Lock {
        state: table_fields::STATE_GRANTED,
        asked: 0,
        completion,
        ..l
    }
}

// The converting lock k goes back to the grant queue at the mode that it held, and its resource is swept. `last` is a hint at
// the last lock granted there; then k is.
pub fn restore(words: &mut [u32], k: u32, completion: u32, last: u32)
    requires { Some (Restorable k completion) words.old }
    ensures { Turns (Restorable k completion) (restore k completion) words.old words.new }
{
    let old = lock_at(words, k);
    let hints = Hints { before: 0, last };
    table_chains::move_lock(words, k, restored(old, completion), hints);
    queues::sweep(words, old.resource, k);
}

// The blocked lock k gives up what it asks for: a conversion goes back to the mode that it held, a waiting request is
// freed. `last` is a hint at the last lock granted on its resource.
pub fn cancel_change(words: &mut [u32], k: u32, last: u32) -> Cancelled
    requires { Some (Cancellable k) words.old }
    ensures { MakesWords (Cancellable k) (cancel_change k) words.old words.new (cancel_answer result) }
{
    let l = lock_at(words, k);
    if l.state == table_fields::STATE_CONVERTING {
        restore(words, k, table_fields::COMPLETION_NONE, last);
        return Cancelled::Conversion;
    }
    queues::free_lock(words, k, 0);
    queues::sweep(words, l.resource, last);
    Cancelled::Request
}
