#![tactic(auto)]
// Start and the seven calls for C: over numbers and slices, which C lends as a pointer and a length.
// include/zamgyorud.h declares these functions.
ghost use Rattle.std.specs.Prelude.{◌≡◌};
ghost use Rattle.rules.specs.Entries.{lent, outcome, to_request, to_convert, to_release, to_cancel, to_purge, to_break, to_poll, Keeps, start_entry};
ghost use Rattle.c_answers.specs.PackedAnswers.{unpacked};

use answers::said;

#[unsafe(no_mangle)]
pub extern "C" fn zamgyorud_start(
    words: &mut [u32],
    slots: &mut [u8],
    resources: u32,
    locks: u32,
) -> u64
    ensures { outcome (unpacked result) (lent words.new slots.new) ≡ start_entry (lent words.old slots.old) resources locks }
{
    c_answers::pack(said(entry_locks::start(words, slots, resources, locks)))
}

#[unsafe(no_mangle)]
pub extern "C" fn zamgyorud_request(
    words: &mut [u32],
    slots: &mut [u8],
    client: u32,
    mode: u32,
    flags: u32,
    name: &[u8],
) -> u64
    ensures { Keeps (to_request client mode flags name.now) (lent words.old slots.old) (unpacked result) (lent words.new slots.new) }
{
    c_answers::pack(said(entry_locks::request(words, slots, client, mode, flags, name)))
}

#[unsafe(no_mangle)]
pub extern "C" fn zamgyorud_convert(
    words: &mut [u32],
    slots: &mut [u8],
    client: u32,
    lock: u32,
    mode: u32,
    flags: u32,
    value: &[u8],
) -> u64
    ensures { Keeps (to_convert client lock mode flags value.now) (lent words.old slots.old) (unpacked result) (lent words.new slots.new) }
{
    c_answers::pack(said(entry_locks::convert(words, slots, client, lock, mode, flags, value)))
}

#[unsafe(no_mangle)]
pub extern "C" fn zamgyorud_release(
    words: &mut [u32],
    slots: &mut [u8],
    client: u32,
    lock: u32,
    flags: u32,
    value: &[u8],
) -> u64
    ensures { Keeps (to_release client lock flags value.now) (lent words.old slots.old) (unpacked result) (lent words.new slots.new) }
{
    c_answers::pack(said(entry_locks::release(words, slots, client, lock, flags, value)))
}

#[unsafe(no_mangle)]
pub extern "C" fn zamgyorud_cancel(words: &mut [u32], slots: &[u8], client: u32, lock: u32) -> u64
    ensures { Keeps (to_cancel client lock) (lent words.old slots.now) (unpacked result) (lent words.new slots.now) }
{
    c_answers::pack(said(entry_recovery::cancel(words, slots, client, lock)))
}

#[unsafe(no_mangle)]
pub extern "C" fn zamgyorud_purge(words: &mut [u32], slots: &mut [u8], client: u32) -> u64
    ensures { Keeps (to_purge client) (lent words.old slots.old) (unpacked result) (lent words.new slots.new) }
{
    c_answers::pack(said(entry_recovery::purge(words, slots, client)))
}

#[unsafe(no_mangle)]
pub extern "C" fn zamgyorud_break(words: &mut [u32], slots: &[u8]) -> u64
    ensures { Keeps to_break (lent words.old slots.now) (unpacked result) (lent words.new slots.now) }
{
    c_answers::pack(said(entry_recovery::break_deadlock(words, slots)))
}

#[unsafe(no_mangle)]
pub extern "C" fn zamgyorud_poll(words: &mut [u32], slots: &[u8], client: u32) -> u64
    ensures { Keeps (to_poll client) (lent words.old slots.now) (unpacked result) (lent words.new slots.now) }
{
    c_answers::pack(said(entry_recovery::poll(words, slots, client)))
}
