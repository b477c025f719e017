#![tactic(auto)]
// The lock manager: the entries by which clients ask for locks, over the two lent tables. Each checks the tables, then
// gives the first refusal that fits, then makes its change. Any numbers, names and values may be passed. A refused call
// changes nothing that is lent.
ghost use Rattle.std.specs.Prelude.{◌≡◌};
ghost use Rattle.rules.specs.Entries.{lent, outcome, to_request, to_convert, to_release, Keeps, start_entry};
ghost use Rattle.answers.specs.Answers.{requested, converted, done};

use answers::{Converted, Refusal, Requested};
use check_tables::{survey, survey_name};

// The lent tables become fresh ones: all records free, chained upward. They may hold anything before.
#[tactic(auto, using(call_start::proofs::StartSteps::start_laws))]
pub fn start(words: &mut [u32], slots: &mut [u8], resources: u32, locks: u32) -> Result<(), Refusal>
    ensures { outcome (done result) (lent words.new slots.new) ≡ start_entry (lent words.old slots.old) resources locks }
{
    if !call_start::sizes_right(words, slots, resources, locks) {
        return Err(Refusal::Sizes);
    }
    call_start::start_words(words, resources, locks);
    slots.fill(0);
    Ok(())
}

// A client asks for a mode on a name: it is granted at once, or waits. The name is looked up once, for the check, the
// refusals and the change.
#[tactic(auto, using(entry_laws::proofs::EntryOutcomes::entering))]
pub fn request(
    words: &mut [u32],
    slots: &mut [u8],
    client: u32,
    mode: u32,
    flags: u32,
    name: &[u8],
) -> Result<Requested, Refusal>
    ensures { Keeps (to_request client mode flags name.now) (lent words.old slots.old) (requested result) (lent words.new slots.new) }
{
    let seen = survey_name(words, slots, name).ok_or(Refusal::Unsound)?;
    let asked = call_refusals::request_refusal(words, seen.found, client, mode, flags, name)?;
    Ok(call_request::request_change(
        words, slots, seen.found, seen.last, client, asked, flags, name,
    ))
}

// A granted lock goes to another mode: in place, or it joins the convert queue.
#[tactic(auto, using(entry_laws::proofs::EntryOutcomes::entering))]
pub fn convert(
    words: &mut [u32],
    slots: &mut [u8],
    client: u32,
    lock: u32,
    mode: u32,
    flags: u32,
    value: &[u8],
) -> Result<Converted, Refusal>
    ensures { Keeps (to_convert client lock mode flags value.now) (lent words.old slots.old) (converted result) (lent words.new slots.new) }
{
    let hints = survey(words, slots, lock).ok_or(Refusal::Unsound)?;
    let asked = call_refusals::convert_refusal(words, client, lock, mode, flags, value)?;
    Ok(call_convert::convert_change(words, slots, lock, asked, flags, value, hints))
}

// A granted lock is freed.
#[tactic(auto, using(entry_laws::proofs::EntryOutcomes::entering))]
pub fn release(
    words: &mut [u32],
    slots: &mut [u8],
    client: u32,
    lock: u32,
    flags: u32,
    value: &[u8],
) -> Result<(), Refusal>
    ensures { Keeps (to_release client lock flags value.now) (lent words.old slots.old) (done result) (lent words.new slots.new) }
{
    let hints = survey(words, slots, lock).ok_or(Refusal::Unsound)?;
    call_refusals::release_refusal(words, client, lock, flags, value)?;
    call_release::release_change(words, slots, lock, flags, value, hints);
    Ok(())
}
