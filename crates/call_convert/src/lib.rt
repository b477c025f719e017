#![tactic(auto)]
// A conversion's change, on the lent words and slots: the lock takes the mode where it stands, or joins the convert
// queue.
ghost use Rattle.std.specs.Prelude.{◌≡◌};
ghost use Rattle.modes.specs.Made.{mode_number};
ghost use Rattle.rules.specs.Calls.{held_at, asking, in_place, convert_change};
ghost use Rattle.rules.specs.Accepted.{Convertible};
ghost use Rattle.table_chains.specs.Promises.{Some, Turns, Tells, Changes};
ghost use Rattle.queues.specs.Promises.{SomeTables};
ghost use Rattle.answers.specs.Answers.{convert_answer};
ghost use Rattle.answers.specs.Promises.{Makes};
ghost use Rattle.call_convert.specs.Promises.{lowers, granted_in_place, on_convert_queue, Asks, AsksWith, ConvertsInPlace};

use answers::Converted;
use modes::Mode;
use table_chains::{Hints, NO_HINTS};
use table_fields::lock_at;
use tables::Lock;

// Flags 1 and 2 act on a conversion from PW or EX to a smaller mode.
fn lowers(held: u32, mode: Mode) -> bool
    ensures { result ≡ lowers held (mode_number mode) }
{
    (Mode::PW as u32 <= held) & ((mode as u32) < held)
}

// What the lock l becomes: it holds the mode; or it asks for the mode and keeps the one it holds.
fn held_at(l: Lock, mode: Mode) -> Lock
    ensures { result ≡ held_at (mode_number mode) l }
{
    Lock {
        state: table_fields::STATE_GRANTED,
        held: mode as u32,
        asked: 0,
        completion: table_fields::COMPLETION_NONE,
        ..l
    }
}

fn asking(l: Lock, mode: Mode) -> Lock
    ensures { result ≡ asking (mode_number mode) l }
{
    Lock {
        state: table_fields::STATE_CONVERTING,
        asked: mode as u32,
        completion: table_fields::COMPLETION_NONE,
        ..l
    }
}

// The lock k takes the mode where it stands, and leaves the value as the flags say. What it held may have kept others
// waiting: its resource is swept.
fn convert_in_place(
    words: &mut [u32],
    slots: &mut [u8],
    k: u32,
    mode: Mode,
    flags: u32,
    value: &[u8],
    last: u32,
)
    requires { SomeTables (ConvertsInPlace k (mode_number mode) flags value.now) words.old slots.old }
    ensures { Changes (ConvertsInPlace k (mode_number mode) flags value.now) (granted_in_place k (mode_number mode) flags value.now) words.old slots.old words.new slots.new }
{
    let l = lock_at(words, k);
    queues::leave_value(words, slots, lowers(l.held, mode), flags, value, l.resource);
    table_chains::move_lock(words, k, held_at(l, mode), NO_HINTS);
    queues::sweep(words, l.resource, last);
}

// The lock k joins the convert queue, and whoever is in its way is told.
fn queue_conversion(words: &mut [u32], k: u32, mode: Mode, hints: Hints)
    requires { Some (Asks k (mode_number mode)) words.old }
    ensures { Turns (Asks k (mode_number mode)) (on_convert_queue k (mode_number mode)) words.old words.new }
{
    let l = lock_at(words, k);
    table_chains::move_lock(words, k, asking(l, mode), hints);
    marks::tell_obstacles(words, k);
}

// Whether the lock k takes the mode where it stands. With flag 4 it does: a conversion that would block has been refused.
#[tactic(auto, using(crate::proofs::ConversionWays::unqueued_laws))]
fn taken_in_place(words: &[u32], k: u32, mode: Mode, flags: u32) -> bool
    requires { Some (AsksWith k (mode_number mode) flags) words.now }
    ensures { Tells (AsksWith k (mode_number mode) flags) (in_place k (mode_number mode)) words.now result }
{
    if flags::no_queue(flags) {
        return true;
    }
    queues::in_place(words, k, mode)
}

// The lock k is converted to the mode, and nothing refuses it. The hints are at the lock before it on the grant chain, and at
// the last one there.
#[tactic(auto, using(crate::proofs::ConversionWays::convert_laws))]
pub fn convert_change(
    words: &mut [u32],
    slots: &mut [u8],
    k: u32,
    mode: Mode,
    flags: u32,
    value: &[u8],
    hints: Hints,
) -> Converted
    requires { SomeTables (Convertible k (mode_number mode) flags value.now) words.old slots.old }
    ensures { Makes (Convertible k (mode_number mode) flags value.now) (convert_change k (mode_number mode) flags value.now) words.old slots.old words.new slots.new (convert_answer result) }
{
    if taken_in_place(words, k, mode, flags) {
        convert_in_place(words, slots, k, mode, flags, value, hints.last);
        return Converted::Granted;
    }
    queue_conversion(words, k, mode, hints);
    Converted::Waiting
}
