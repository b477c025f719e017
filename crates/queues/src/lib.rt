#![tactic(auto)]
// The parts of the calls' changes, in place on the lent words and slots: deciding what is granted, granting, freeing,
// settling.
ghost use Rattle.std.specs.Prelude.{◌≡◌, true, false, ◌<◌};
ghost use Rattle.modes.specs.Made.{mode_number};
ghost use Rattle.tables.specs.Lists.{first};
ghost use Rattle.tables.specs.Numbered.{numbered};
ghost use Rattle.tables.specs.State.{no_resource, resource, move_resource};
ghost use Rattle.tables.specs.Grants.{empty};
ghost use Rattle.tables.specs.Validity.{line};
ghost use Rattle.rules.specs.Queues.{granted_lock, sweep, free_lock, settle};
ghost use Rattle.rules.specs.Calls.{granted_at_once, in_place, leave_value, new_resource};
ghost use Rattle.table_chains.specs.Promises.{Some, Turns, Tells, Answers, Changes, Resourced};
ghost use Rattle.queues.specs.Holders.{with_held, modes_beside, goes_beside, own_mode};
ghost use Rattle.queues.specs.Decisions.{admits_request, admits_conversion, admits_head, read_occupancy};
ghost use Rattle.queues.specs.Promises.{Locked, GrantedLock, next_granted, advance, SomeTables, Vacant, Takes, Valued};

use modes::Mode;
use table_chains::Hints;
use table_fields::{ModeCounts, resource_word};
use tables::Lock;

// What a request or a conversion is decided from, all of it in the resource's record: the first lock on the convert
// chain and on the wait chain, or 0, and how many locks hold each mode.
#[derive(Clone, Copy)]
struct Occupancy {
    pub convert: u32,
    pub wait: u32,
    pub counts: ModeCounts,
}

// A number that is no mode: with it no lock is left out.
const NO_MODE: u32 = 6;

// The set with the mode, which `count` locks hold, if more hold it than the one that is left out, which holds `own`.
#[tactic(auto, using(crate::proofs::HeldModes::held_laws))]
fn with_held(set: u32, mode: u32, count: u32, own: u32) -> u32
    requires set_bound { set < 64 }
    requires mode_bound { mode < 6 }
    ensures { (result ≡ with_held own count mode set) × (result < 64) }
{
    if count <= u32::from(mode == own) {
        return set;
    }
    modes::with_mode(set, mode)
}

// The set of the modes that are held beside that one.
fn modes_beside(counts: ModeCounts, own: u32) -> u32
    ensures { (result ≡ modes_beside counts own) × (result < 64) }
{
    let nl = with_held(0, Mode::NL as u32, counts.nl, own);
    let cr = with_held(nl, Mode::CR as u32, counts.cr, own);
    let cw = with_held(cr, Mode::CW as u32, counts.cw, own);
    let pr = with_held(cw, Mode::PR as u32, counts.pr, own);
    let pw = with_held(pr, Mode::PW as u32, counts.pw, own);
    with_held(pw, Mode::EX as u32, counts.ex, own)
}

// The mode is compatible with each of them.
fn goes_beside(counts: ModeCounts, own: u32, mode: Mode) -> bool
    ensures { result ≡ goes_beside counts own (mode_number mode) }
{
    modes::fits(modes_beside(counts, own), mode as u32)
}

// A new request of the mode is granted at once: no conversion waits there and, unless it is for NL, no request; and the
// mode is compatible with every held mode.
#[tactic(auto, using(crate::proofs::Decisions::request_laws))]
fn admits_request(s: Occupancy, mode: Mode) -> bool
    ensures { result ≡ admits_request s (mode_number mode) }
{
    if s.convert != 0 {
        return false;
    }
    if (mode != Mode::NL) & (s.wait != 0) {
        return false;
    }
    goes_beside(s.counts, NO_MODE, mode)
}

// A granted lock that holds `own` takes the mode where it stands: the conversion is down, or no conversion waits there
// and the mode fits the other holders.
#[tactic(auto, using(crate::proofs::Decisions::conversion_laws))]
fn admits_conversion(s: Occupancy, own: u32, mode: Mode) -> bool
    requires { own < 6 }
    ensures { result ≡ admits_conversion s own (mode_number mode) }
{
    if modes::down(own, mode as u32) {
        return true;
    }
    if s.convert != 0 {
        return false;
    }
    goes_beside(s.counts, own, mode)
}

// The set of the modes that others hold where the lock l is blocked. A converting lock is not in its own way; a waiting
// one holds nothing.
#[tactic(auto, using(crate::proofs::Decisions::head_laws))]
pub fn modes_of_others(counts: ModeCounts, l: Lock) -> u32
    ensures { (result ≡ modes_beside counts (own_mode l)) × (result < 64) }
{
    if l.state == table_fields::STATE_CONVERTING {
        return modes_beside(counts, l.held);
    }
    modes_beside(counts, NO_MODE)
}

// A lock at the head of the line gets what it asks for.
#[tactic(auto, using(crate::proofs::Decisions::head_laws))]
fn admits_head(counts: ModeCounts, l: Lock) -> bool
    requires { l.asked < 6 }
    ensures { result ≡ admits_head counts l }
{
    modes::fits(modes_of_others(counts, l), l.asked)
}

// That of r, from its record.
fn occupancy_at(words: &[u32], r: u32) -> Occupancy
    requires { Some (Resourced r) words.now }
    ensures { result ≡ read_occupancy words.now r }
{
    Occupancy {
        convert: resource_word(words, r, table_fields::RESOURCE_CONVERT),
        wait: resource_word(words, r, table_fields::RESOURCE_WAIT),
        counts: table_fields::counts_at(words, r),
    }
}

// A new request of the mode is granted at once on r.
pub fn granted_at_once(words: &[u32], r: u32, mode: Mode) -> bool
    requires { Some (Resourced r) words.now }
    ensures { Tells (Resourced r) (λ t. granted_at_once t r (mode_number mode)) words.now result }
{
    admits_request(occupancy_at(words, r), mode)
}

// Whether the granted lock k can take the mode in place.
pub fn in_place(words: &[u32], k: u32, mode: Mode) -> bool
    requires { Some (GrantedLock k) words.now }
    ensures { Tells (GrantedLock k) (in_place k (mode_number mode)) words.now result }
{
    let lock = table_fields::lock_at(words, k);
    admits_conversion(occupancy_at(words, lock.resource), lock.held, mode)
}

// The lock that is next to be granted on r: the convert head, or else the wait head.
fn next_up(words: &[u32], r: u32) -> Option<u32>
    requires { Some (Resourced r) words.now }
    ensures { Tells (Resourced r) (λ t. numbered (first (line t r))) words.now result }
{
    let converting = resource_word(words, r, table_fields::RESOURCE_CONVERT);
    if converting != 0 {
        return Some(converting);
    }
    let waiting = resource_word(words, r, table_fields::RESOURCE_WAIT);
    (waiting != 0).then_some(waiting)
}

fn granted(l: Lock) -> Lock
    ensures { result ≡ granted_lock l }
{
    Lock {
        state: table_fields::STATE_GRANTED,
        held: l.asked,
        asked: 0,
        completion: table_fields::COMPLETION_GRANTED,
        ..l
    }
}

// Grants the next lock of r if that is possible, and answers which it was. `last` is a hint at the last lock granted there.
fn grant_next(words: &mut [u32], r: u32, last: u32) -> Option<u32>
    requires { Some (Resourced r) words.old }
    ensures { Answers (Resourced r) (next_granted r) (advance r) words.old words.new result }
{
    let k = next_up(words, r)?;
    let l = table_fields::lock_at(words, k);
    if !admits_head(table_fields::counts_at(words, r), l) {
        return None;
    }
    table_chains::move_lock(words, k, granted(l), Hints { before: 0, last });
    Some(k)
}

// Grants locks on r as long as the next one can be granted. `last` is a hint at the last lock granted there; each lock that
// is granted is the next such hint.
pub fn sweep(words: &mut [u32], r: u32, last: u32)
    requires { Some (Resourced r) words.old }
    ensures { Turns (Resourced r) (sweep r) words.old words.new }
{
    let mut hint = last;
    while let Some(k) = grant_next(words, r, hint) {
        hint = k;
    }
}

// The lock k becomes free. `before` is a hint at the lock before it on its home chain.
#[tactic(auto, using(crate::proofs::GrantTurns::free_laws))]
pub fn free_lock(words: &mut [u32], k: u32, before: u32)
    requires { Some (Locked k) words.old }
    ensures { Turns (Locked k) (free_lock k) words.old words.new }
{
    let hints = Hints { before, last: 0 };
    table_chains::move_lock(words, k, table_fields::NO_LOCK, hints);
}

// The resource r, on which no lock stands, becomes free.
pub fn free_resource(words: &mut [u32], slots: &mut [u8], r: u32)
    requires { SomeTables (Vacant r) words.old slots.old }
    ensures { Changes (Vacant r) (move_resource r no_resource) words.old slots.old words.new slots.new }
{
    table_chains::move_resource_words(words, r, 0, 0);
    table_names::clear_slot(slots, r);
}

// The resource r, which is free, gets a name. Its value is zero, and valid.
pub fn take_resource(words: &mut [u32], slots: &mut [u8], r: u32, name: &[u8])
    requires { SomeTables (Takes r name.now) words.old slots.old }
    ensures { Changes (Takes r name.now) (move_resource r (new_resource name.now)) words.old slots.old words.new slots.new }
{
    table_chains::move_resource_words(words, r, name.len() as u32, 1);
    table_names::store_name(slots, r, name);
}

// If `acts` is true, flags 1 and 2 do to the value of r what they say. Storing makes it valid.
pub fn leave_value(
    words: &mut [u32],
    slots: &mut [u8],
    acts: bool,
    flags: u32,
    value: &[u8],
    r: u32,
)
    requires { SomeTables (Valued flags value.now r) words.old slots.old }
    ensures { Changes (Valued flags value.now r) (leave_value acts flags value.now r) words.old slots.old words.new slots.new }
{
    if !acts {
        return;
    }
    let length = resource_word(words, r, table_fields::RESOURCE_NAME_LENGTH);
    if flags::stores(flags) {
        table_chains::move_resource_words(words, r, length, 1);
        table_names::store_value(slots, r, value);
        return;
    }
    if flags::spoils(flags) {
        table_chains::move_resource_words(words, r, length, 0);
    }
}

// No lock stands on r.
pub fn is_empty(words: &[u32], r: u32) -> bool
    requires { Some (Resourced r) words.now }
    ensures { Tells (Resourced r) (λ t. empty (resource t r)) words.now result }
{
    let granted = resource_word(words, r, table_fields::RESOURCE_GRANT);
    let converting = resource_word(words, r, table_fields::RESOURCE_CONVERT);
    let waiting = resource_word(words, r, table_fields::RESOURCE_WAIT);
    (granted == 0) & (converting == 0) & (waiting == 0)
}

// The resource r is swept, or becomes free if no lock is left on it. `last` is a hint at the last lock granted there.
#[tactic(auto, using(crate::proofs::ResourceRecord::settle_laws))]
pub fn settle(words: &mut [u32], slots: &mut [u8], r: u32, last: u32)
    requires { SomeTables (Resourced r) words.old slots.old }
    ensures { Changes (Resourced r) (settle r) words.old slots.old words.new slots.new }
{
    if is_empty(words, r) {
        free_resource(words, slots, r);
        return;
    }
    sweep(words, r, last);
}
