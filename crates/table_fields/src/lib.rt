#![tactic(auto)]
// The words of the lock manager's table: a header, a row for each resource, a row for each lock. Widths and field
// numbers stand here alone. Records are numbered from 1.
ghost use Rattle.std.specs.Prelude.{◌≡◌, ◌+◌, ◌*◌, ◌-◌, ◌<◌, ◌≤◌};
ghost use Rattle.tables.specs.State.{new_lock, blocked_lock, holds, unread, noticed};
ghost use Rattle.tables.specs.Layout.{header_width, resource_width, lock_width, of_header, of_resource, of_lock};
ghost use Rattle.tables.specs.Layout.{resources_in, locks_in, word_in, read_lock};
ghost use Rattle.tables.specs.Stores.{set_cells};
ghost use Rattle.table_fields.specs.Sizes.{Sized, Kept};
ghost use Rattle.table_fields.specs.Records.{read_fields, with_fields, read_counts};

use tables::Lock;

// The most resources and locks that tables may have.
pub const MOST_RESOURCES: usize = 256;

pub const MOST_LOCKS: usize = 1024;

// Places for what is kept of each record, at its number; 0 is no record's.
pub const RESOURCE_PLACES: usize = MOST_RESOURCES + 1;

pub const LOCK_PLACES: usize = MOST_LOCKS + 1;

// Rows.
pub const HEADER_WORDS: usize = 8;

pub const RESOURCE_WORDS: usize = 12;

pub const LOCK_WORDS: usize = 10;

// The header: how many records there are, and the first of each chain that is no resource's.
pub const RESOURCES: usize = 0;

pub const LOCKS: usize = 1;

pub const FREE_RESOURCES: usize = 2;

pub const FREE_LOCKS: usize = 3;

pub const DENIED: usize = 4;

pub const BLOCKED: usize = 5;

pub const NOTICES: usize = 6;

// The header's last word is always zero.
pub const HEADER_ZERO: usize = 7;

// A resource: the next free one, the first of each of its queues, its name's length, whether its value is valid.
pub const RESOURCE_NEXT: usize = 0;

pub const RESOURCE_GRANT: usize = 1;

pub const RESOURCE_CONVERT: usize = 2;

pub const RESOURCE_WAIT: usize = 3;

pub const RESOURCE_NAME_LENGTH: usize = 4;

pub const RESOURCE_VALID: usize = 5;

// How many locks hold each mode on it.
pub const RESOURCE_NL: usize = 6;

pub const RESOURCE_CR: usize = 7;

pub const RESOURCE_CW: usize = 8;

pub const RESOURCE_PR: usize = 9;

pub const RESOURCE_PW: usize = 10;

pub const RESOURCE_EX: usize = 11;

// A lock: what follows it on its home chain, on the blocked chain, on the notice chain; then its record.
pub const LOCK_NEXT: usize = 0;

pub const LOCK_NEXT_BLOCKED: usize = 1;

pub const LOCK_NEXT_NOTICE: usize = 2;

pub const LOCK_RESOURCE: usize = 3;

pub const LOCK_CLIENT: usize = 4;

pub const LOCK_STATE: usize = 5;

pub const LOCK_HELD: usize = 6;

pub const LOCK_ASKED: usize = 7;

pub const LOCK_COMPLETION: usize = 8;

pub const LOCK_MARK: usize = 9;

// The states of a lock.
pub const STATE_FREE: u32 = 0;

pub const STATE_GRANTED: u32 = 1;

pub const STATE_CONVERTING: u32 = 2;

pub const STATE_WAITING: u32 = 3;

pub const STATE_DENIED: u32 = 4;

// Its completions.
pub const COMPLETION_NONE: u32 = 0;

pub const COMPLETION_GRANTED: u32 = 1;

pub const COMPLETION_DENIED: u32 = 2;

pub const COMPLETION_CONVERSION_DENIED: u32 = 3;

// The mark of a lock that has none; else a mode.
pub const MARK_NONE: u32 = 0;

// Clients are 1 to 255, modes 0 to 5.
pub const LAST_CLIENT: u32 = 255;

pub const LAST_MODE: u32 = 5;

// A free lock keeps nothing.
pub const NO_LOCK: Lock = Lock {
    resource: 0,
    client: 0,
    state: STATE_FREE,
    held: 0,
    asked: 0,
    completion: COMPLETION_NONE,
    mark: MARK_NONE,
};

// A resource's record beside its links: how many bytes its name has, and whether its value is valid.
#[derive(Clone, Copy)]
pub struct ResourceFields {
    pub bytes: u32,
    pub valid: u32,
}

// How many locks hold each mode on a resource: the other words of its record.
#[derive(Clone, Copy)]
pub struct ModeCounts {
    pub nl: u32,
    pub cr: u32,
    pub cw: u32,
    pub pr: u32,
    pub pw: u32,
    pub ex: u32,
}

// How many resources the table has, and how many locks.
pub fn resource_count(words: &[u32]) -> u32
    requires { Sized words.now }
    ensures { result ≡ resources_in words.now }
{
    words[RESOURCES]
}

pub fn lock_count(words: &[u32]) -> u32
    requires { Sized words.now }
    ensures { result ≡ locks_in words.now }
{
    words[LOCKS]
}

// Where the words of resource r start.
pub fn resource_start(words: &[u32], r: u32) -> usize
    requires sized { Sized words.now }
    requires le_r { (1 ≤ r) × (r ≤ resources_in words.now) }
    ensures { result ≡ header_width + resource_width * (r - 1) }
{
    HEADER_WORDS + RESOURCE_WORDS * (r as usize - 1)
}

// Where the words of lock k start.
pub fn lock_start(words: &[u32], k: u32) -> usize
    requires sized { Sized words.now }
    requires le_k { (1 ≤ k) × (k ≤ locks_in words.now) }
    ensures { result ≡ header_width + resource_width * resources_in words.now + lock_width * (k - 1) }
{
    HEADER_WORDS + RESOURCE_WORDS * words[RESOURCES] as usize + LOCK_WORDS * (k as usize - 1)
}

pub fn header_word(words: &[u32], field: usize) -> u32
    requires sized { Sized words.now }
    requires field_lt_header_width { field < header_width }
    ensures { result ≡ word_in words.now (of_header field) }
{
    words[field]
}

#[tactic(auto, using(crate::proofs::Laws::field_laws))]
pub fn resource_word(words: &[u32], r: u32, field: usize) -> u32
    requires sized { Sized words.now }
    requires le_r { (1 ≤ r) × (r ≤ resources_in words.now) }
    requires field_lt_resource_width { field < resource_width }
    ensures { result ≡ word_in words.now (of_resource r field) }
{
    words[resource_start(words, r) + field]
}

#[tactic(auto, using(crate::proofs::Laws::field_laws))]
pub fn lock_word(words: &[u32], k: u32, field: usize) -> u32
    requires sized { Sized words.now }
    requires le_k { (1 ≤ k) × (k ≤ locks_in words.now) }
    requires field_lt_lock_width { field < lock_width }
    ensures { result ≡ word_in words.now (of_lock k field) }
{
    words[lock_start(words, k) + field]
}

// The record of lock k.
#[tactic(auto, using(crate::proofs::Laws::field_laws))]
pub fn lock_at(words: &[u32], k: u32) -> Lock
    requires sized { Sized words.now }
    requires le_k { (1 ≤ k) × (k ≤ locks_in words.now) }
    ensures { result ≡ read_lock words.now k }
{
    let start = lock_start(words, k);
    Lock {
        resource: words[start + LOCK_RESOURCE],
        client: words[start + LOCK_CLIENT],
        state: words[start + LOCK_STATE],
        held: words[start + LOCK_HELD],
        asked: words[start + LOCK_ASKED],
        completion: words[start + LOCK_COMPLETION],
        mark: words[start + LOCK_MARK],
    }
}

// The record of resource r.
#[tactic(auto, using(crate::proofs::Laws::field_laws))]
pub fn resource_at(words: &[u32], r: u32) -> ResourceFields
    requires sized { Sized words.now }
    requires le_r { (1 ≤ r) × (r ≤ resources_in words.now) }
    ensures { result ≡ read_fields words.now r }
{
    let start = resource_start(words, r);
    ResourceFields {
        bytes: words[start + RESOURCE_NAME_LENGTH],
        valid: words[start + RESOURCE_VALID],
    }
}

// How many locks hold each mode on resource r.
#[tactic(auto, using(crate::proofs::Laws::field_laws))]
pub fn counts_at(words: &[u32], r: u32) -> ModeCounts
    requires sized { Sized words.now }
    requires le_r { (1 ≤ r) × (r ≤ resources_in words.now) }
    ensures { result ≡ read_counts words.now r }
{
    let start = resource_start(words, r);
    ModeCounts {
        nl: words[start + RESOURCE_NL],
        cr: words[start + RESOURCE_CR],
        cw: words[start + RESOURCE_CW],
        pr: words[start + RESOURCE_PR],
        pw: words[start + RESOURCE_PW],
        ex: words[start + RESOURCE_EX],
    }
}

// The record of lock k becomes m; its links stay.
#[tactic(auto, using(crate::proofs::Laws::field_laws))]
pub fn put_lock(words: &mut [u32], k: u32, m: Lock)
    requires sized { Sized words.old }
    requires le_k { (1 ≤ k) × (k ≤ locks_in words.old) }
    ensures words_after { words.new ≡ set_cells (resources_in words.old) k m words.old }
    ensures kept { Kept words.old words.new }
{
    let start = lock_start(words, k);
    words[start + LOCK_RESOURCE] = m.resource;
    words[start + LOCK_CLIENT] = m.client;
    words[start + LOCK_STATE] = m.state;
    words[start + LOCK_HELD] = m.held;
    words[start + LOCK_ASKED] = m.asked;
    words[start + LOCK_COMPLETION] = m.completion;
    words[start + LOCK_MARK] = m.mark;
}

// The record of resource r becomes x; its links stay.
#[tactic(auto, using(crate::proofs::Laws::field_laws))]
pub fn put_resource(words: &mut [u32], r: u32, x: ResourceFields)
    requires sized { Sized words.old }
    requires le_r { (1 ≤ r) × (r ≤ resources_in words.old) }
    ensures words_after { words.new ≡ with_fields r x words.old }
    ensures kept { Kept words.old words.new }
{
    let start = resource_start(words, r);
    words[start + RESOURCE_NAME_LENGTH] = x.bytes;
    words[start + RESOURCE_VALID] = x.valid;
}

// A new lock, of the client on the resource.
pub fn new_lock(resource: u32, client: u32, state: u32, held: u32, asked: u32) -> Lock
    ensures { result ≡ new_lock resource client state held asked }
{
    Lock {
        resource,
        client,
        state,
        held,
        asked,
        ..NO_LOCK
    }
}

// What a lock's record says of it.
pub fn is_blocked(l: Lock) -> bool
    ensures { result ≡ blocked_lock l }
{
    (l.state == STATE_CONVERTING) | (l.state == STATE_WAITING)
}

pub fn is_holding(l: Lock) -> bool
    ensures { result ≡ holds l }
{
    (l.state == STATE_GRANTED) | (l.state == STATE_CONVERTING)
}

pub fn is_unread(l: Lock) -> bool
    ensures { result ≡ unread l }
{
    l.completion != COMPLETION_NONE
}

pub fn is_noticed(l: Lock) -> bool
    ensures { result ≡ noticed l }
{
    (l.completion != COMPLETION_NONE) | (l.mark != MARK_NONE)
}
