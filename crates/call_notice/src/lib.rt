#![tactic(auto)]
// Notices: a lock's completion, its mark, or both. To break a deadlock a lock is denied, which leaves its client a
// completion. A client reads its notices one by one. Both calls change the lent words in place; the slots stay as they
// are.
ghost use Rattle.std.specs.Prelude.{◌≡◌, Some as some};
ghost use Rattle.tables.specs.State.{denied_lock};
ghost use Rattle.tables.specs.Numbered.{numbered};
ghost use Rattle.tables.specs.Validity.{Core, Valid};
ghost use Rattle.rules.specs.Calls.{deny, break, notice_read, poll_notice, poll_change};
ghost use Rattle.rules.specs.Accepted.{Cancellable};
ghost use Rattle.table_chains.specs.Promises.{Some, Turns, Tells};
ghost use Rattle.answers.specs.Answers.{denial, notice};
ghost use Rattle.answers.specs.Promises.{MakesWords};
ghost use Rattle.call_notice.specs.Promises.{first_notice, Noticed};

use answers::Notice;
use table_chains::NO_HINTS;
use table_fields::{lock_at, lock_word};
use tables::Lock;

// A waiting lock as it is when its request has been denied: on no resource, until its notice is read.
fn denied(l: Lock) -> Lock
    ensures { result ≡ denied_lock l }
{
    Lock {
        client: l.client,
        state: table_fields::STATE_DENIED,
        completion: table_fields::COMPLETION_DENIED,
        mark: l.mark,
        ..table_fields::NO_LOCK
    }
}

// The lock k, which is blocked, is denied what it asks for, and its client has a notice.
fn deny(words: &mut [u32], k: u32)
    requires { Some (Cancellable k) words.old }
    ensures { Turns (Cancellable k) (deny k) words.old words.new }
{
    let l = lock_at(words, k);
    if l.state == table_fields::STATE_CONVERTING {
        call_release::restore(words, k, table_fields::COMPLETION_CONVERSION_DENIED, 0);
        return;
    }
    table_chains::move_lock(words, k, denied(l), NO_HINTS);
    queues::sweep(words, l.resource, 0);
}

// If there is a deadlock, one lock on it is denied; answers which.
pub fn break_change(words: &mut [u32]) -> Option<u32>
    requires { Some Valid words.old }
    ensures { MakesWords Valid break words.old words.new (denial result) }
{
    let victim = deadlock_search::victim(words)?;
    deny(words, victim);
    Some(victim)
}

// The first lock of the client on the notice chain.
fn first_notice(words: &[u32], client: u32) -> Option<u32>
    requires { Some Core words.now }
    ensures { Tells Core (λ t. numbered (first_notice client t)) words.now result }
{
    let mut k = table_fields::header_word(words, table_fields::NOTICES);
    while k != 0 {
        if lock_word(words, k, table_fields::LOCK_CLIENT) == client {
            return Some(k);
        }
        k = lock_word(words, k, table_fields::LOCK_NEXT_NOTICE);
    }
    None
}

// The lock as it is when its notice has been read: its completion and its mark are gone.
fn notice_read(l: Lock) -> Lock
    ensures { result ≡ notice_read l }
{
    Lock {
        completion: table_fields::COMPLETION_NONE,
        mark: table_fields::MARK_NONE,
        ..l
    }
}

// The notice of lock k is read. A denied request has no other use for its lock: it is freed.
fn take_notice(words: &mut [u32], k: u32) -> Notice
    requires { Some (Noticed k) words.old }
    ensures { MakesWords (Noticed k) (poll_notice k) words.old words.new (notice (some result)) }
{
    let l = lock_at(words, k);
    if l.completion == table_fields::COMPLETION_DENIED {
        queues::free_lock(words, k, 0);
        return Notice::RequestDenied(k);
    }
    table_chains::move_lock(words, k, notice_read(l), NO_HINTS);
    if l.completion == table_fields::COMPLETION_GRANTED {
        return Notice::Granted(k, l.mark);
    }
    if l.completion == table_fields::COMPLETION_CONVERSION_DENIED {
        return Notice::ConversionDenied(k, l.mark);
    }
    Notice::Marked(k, l.mark)
}

// The client's first notice is read, if it has one.
pub fn poll_change(words: &mut [u32], client: u32) -> Option<Notice>
    requires { Some Valid words.old }
    ensures { MakesWords Valid (poll_change client) words.old words.new (notice result) }
{
    let k = first_notice(words, client)?;
    Some(take_notice(words, k))
}
