#![tactic(auto)]
// The lock manager: the entries that end waiting and holding in other ways than by a release. A blocked lock is taken back,
// a client that is gone is purged, a deadlock is broken, and a client takes its notices. Each checks the tables, then gives
// the first refusal that fits, then makes its change, as those of `entry_locks` do.
ghost use Rattle.rules.specs.Entries.{lent, to_cancel, to_purge, to_break, to_poll, Keeps};
ghost use Rattle.answers.specs.Answers.{cancelled, purged, broken, polled};

use answers::{Cancelled, Notice, Purged, Refusal};
use check_tables::{sound, survey};

// A blocked lock waits no longer: a conversion is taken back, a waiting request is freed.
#[tactic(auto, using(entry_laws::proofs::EntryOutcomes::entering))]
pub fn cancel(words: &mut [u32], slots: &[u8], client: u32, lock: u32) -> Result<Cancelled, Refusal>
    ensures { Keeps (to_cancel client lock) (lent words.old slots.now) (cancelled result) (lent words.new slots.now) }
{
    let hints = survey(words, slots, lock).ok_or(Refusal::Unsound)?;
    call_refusals::cancel_refusal(words, client, lock)?;
    Ok(call_release::cancel_change(words, lock, hints.last))
}

// All of a client's locks are freed, as when its unit died.
#[tactic(auto, using(entry_laws::proofs::EntryOutcomes::entering))]
pub fn purge(words: &mut [u32], slots: &mut [u8], client: u32) -> Result<Purged, Refusal>
    ensures { Keeps (to_purge client) (lent words.old slots.old) (purged result) (lent words.new slots.new) }
{
    if !sound(words, slots) {
        return Err(Refusal::Unsound);
    }
    call_refusals::client_refusal(client)?;
    Ok(call_purge::purge_change(words, slots, client))
}

// The longest blocked request of a deadlock is denied. (`break` is a word of the language.)
#[tactic(auto, using(entry_laws::proofs::EntryOutcomes::entering))]
pub fn break_deadlock(words: &mut [u32], slots: &[u8]) -> Result<Option<u32>, Refusal>
    ensures { Keeps to_break (lent words.old slots.now) (broken result) (lent words.new slots.now) }
{
    if !sound(words, slots) {
        return Err(Refusal::Unsound);
    }
    Ok(call_notice::break_change(words))
}

// The client's first notice is taken.
#[tactic(auto, using(entry_laws::proofs::EntryOutcomes::entering))]
pub fn poll(words: &mut [u32], slots: &[u8], client: u32) -> Result<Option<Notice>, Refusal>
    ensures { Keeps (to_poll client) (lent words.old slots.now) (polled result) (lent words.new slots.now) }
{
    if !sound(words, slots) {
        return Err(Refusal::Unsound);
    }
    call_refusals::client_refusal(client)?;
    Ok(call_notice::poll_change(words, client))
}
