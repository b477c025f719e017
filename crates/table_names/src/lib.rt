#![tactic(auto)]
// Names and value blocks: bytes, and the slots of the lock manager's table. Widths stand here alone.
ghost use Rattle.std.specs.Prelude.{◌≡◌, ◌++◌, ◌*◌, ◌-◌, ◌≤◌, length, take, drop};
ghost use Rattle.tables.specs.Lists.{same};
ghost use Rattle.tables.specs.Numbered.{numbered};
ghost use Rattle.tables.specs.Sound.{all_zero};
ghost use Rattle.tables.specs.State.{name_width, value_width};
ghost use Rattle.tables.specs.Layout.{of_resource, slot_width, slot, resources_in, word_in, slot_in};
ghost use Rattle.rules.specs.Calls.{new_resource};
ghost use Rattle.table_names.specs.Names.{name_in, slot_fine, find_in};
ghost use Rattle.table_names.specs.Promises.{Slotted, Short, with_slot, blank};

use table_bytes::{WORD_BYTES, word_at};
use table_fields::{RESOURCE_NAME_LENGTH, resource_count, resource_word};

// A slot: a name of at most 64 bytes, zeros after it, and a value block.
pub const NAME_BYTES: usize = 64;

pub const VALUE_BYTES: usize = 32;

pub const SLOT_BYTES: usize = NAME_BYTES + VALUE_BYTES;

// Two words that stand side by side are tested at once.
const PAIR_BYTES: usize = 2 * WORD_BYTES;

// Two runs of bytes of one length are equal.
#[tactic(auto, using(crate::proofs::Spans::same_loop))]
fn same_bytes(a: &[u8], b: &[u8]) -> bool
    requires { length a.now ≡ length b.now }
    ensures { result ≡ same a.now b.now }
{
    for i in 0..a.len() {
        if a[i] != b[i] {
            return false;
        }
    }
    true
}

// The two runs of bytes are equal. Four bytes are compared at once, the last ones first: names that differ mostly differ
// near their end. By loops, and not by `==`: the library's comparison is a function that is never inlined.
#[tactic(auto, using(crate::proofs::FourBytes::words_loop))]
pub fn same(a: &[u8], b: &[u8]) -> bool
    ensures { result ≡ same a.now b.now }
{
    if a.len() != b.len() {
        return false;
    }
    let words = a.len() / WORD_BYTES;
    for w in 0..words {
        let at = a.len() - WORD_BYTES * (w + 1);
        if word_at(a, at) != word_at(b, at) {
            return false;
        }
    }
    let rest = a.len() - WORD_BYTES * words;
    same_bytes(&a[..rest], &b[..rest])
}

// All of a run of bytes is zero. Every byte is looked at, so that the processor can test many at once.
pub fn all_zero(a: &[u8]) -> bool
    ensures { result ≡ all_zero a.now }
{
    a.iter().fold(true, |zeros, byte| zeros & (*byte == 0))
}

// The same of a few bytes, one by one.
#[tactic(auto, using(crate::proofs::Spans::zero_bytes_loop))]
fn zero_bytes(a: &[u8]) -> bool
    ensures { result ≡ all_zero a.now }
{
    for i in 0..a.len() {
        if a[i] != 0 {
            return false;
        }
    }
    true
}

// The same of the bytes after a name, which are few: eight at once.
#[tactic(auto, using(crate::proofs::FourBytes::rest_loop))]
fn zero_rest(a: &[u8]) -> bool
    ensures { result ≡ all_zero a.now }
{
    let pairs = a.len() / PAIR_BYTES;
    for p in 0..pairs {
        let at = a.len() - PAIR_BYTES * (p + 1);
        if !((word_at(a, at) == 0) & (word_at(a, at + WORD_BYTES) == 0)) {
            return false;
        }
    }
    zero_bytes(&a[..a.len() - PAIR_BYTES * pairs])
}

// The bytes d become the bytes s, which are as many; and the same for numbers of 16 bits. By loops, since the library's
// `copy_from_slice` would have a program for C bring memmove.
#[tactic(auto, using(crate::proofs::Spans::copy_loop))]
pub fn copy(d: &mut [u8], s: &[u8])
    requires { length d.old ≡ length s.now }
    ensures { d.new ≡ s.now }
{
    for i in 0..s.len() {
        d[i] = s[i];
    }
}

#[tactic(auto, using(crate::proofs::Spans::copy_loop))]
pub fn copy_numbers(d: &mut [u16], s: &[u16])
    requires { length d.old ≡ length s.now }
    ensures { d.new ≡ s.now }
{
    for i in 0..s.len() {
        d[i] = s[i];
    }
}

// Where the slot of resource r starts.
pub fn slot_start(r: u32) -> usize
    requires { 1 ≤ r }
    ensures { result ≡ slot_width * (r - 1) }
{
    SLOT_BYTES * (r as usize - 1)
}

// The slot of resource r has nothing but zeros if it is free, and nothing but zeros after its name if not.
#[tactic(auto, using(crate::proofs::SlotParts::slot_laws))]
pub fn slot_fine(words: &[u32], slots: &[u8], r: u32) -> bool
    requires slotted { Slotted words.now slots.now }
    requires le_r { (1 ≤ r) × (r ≤ resources_in words.now) }
    ensures { result ≡ slot_fine words.now slots.now r }
{
    let length = resource_word(words, r, RESOURCE_NAME_LENGTH) as usize;
    let start = slot_start(r);
    if length == 0 {
        return all_zero(&slots[start..start + SLOT_BYTES]);
    }
    if NAME_BYTES < length {
        return true;
    }
    zero_rest(&slots[start + length..start + NAME_BYTES])
}

// The length of resource r's name.
pub fn name_length(words: &[u32], r: u32) -> usize
    requires short { Short words.now }
    requires le_r { (1 ≤ r) × (r ≤ resources_in words.now) }
    ensures { (result ≡ word_in words.now (of_resource r 4)) × (result ≤ name_width) }
{
    resource_word(words, r, RESOURCE_NAME_LENGTH) as usize
}

// How many bytes of its slot the name of resource r takes up: as many as its length says, or all, if that says more.
#[tactic(auto, using(crate::proofs::SlotParts::slot_laws))]
fn name_span(words: &[u32], slots: &[u8], r: u32) -> usize
    requires slotted { Slotted words.now slots.now }
    requires le_r { (1 ≤ r) × (r ≤ resources_in words.now) }
    ensures { (result ≡ length (name_in words.now slots.now r)) × (result ≤ slot_width) }
{
    let length = resource_word(words, r, RESOURCE_NAME_LENGTH) as usize;
    if SLOT_BYTES < length {
        return SLOT_BYTES;
    }
    length
}

// Resource r has this name: it is as long, and of the same bytes. A name can be looked up before the tables are checked:
// only the sizes have to be right.
#[tactic(auto, using(crate::proofs::SlotParts::slot_laws))]
pub fn has_name(words: &[u32], slots: &[u8], r: u32, name: &[u8]) -> bool
    requires slotted { Slotted words.now slots.now }
    requires le_r { (1 ≤ r) × (r ≤ resources_in words.now) }
    ensures { result ≡ same (name_in words.now slots.now r) name.now }
{
    let start = slot_start(r);
    same(&slots[start..start + name_span(words, slots, r)], name)
}

// The first resource of that name.
#[tactic(auto, using(crate::proofs::SlotParts::find_loop))]
pub fn find(words: &[u32], slots: &[u8], name: &[u8]) -> Option<u32>
    requires { Slotted words.now slots.now }
    ensures { result ≡ numbered (find_in words.now slots.now name.now) }
{
    let n = resource_count(words);
    for r in 1..n + 1 {
        if has_name(words, slots, r, name) {
            return Some(r);
        }
    }
    None
}

// The slot of resource r, which was free, gets a name; its value block stays zero.
pub fn store_name(slots: &mut [u8], r: u32, name: &[u8])
    requires le_r { (1 ≤ r) × (slot_width * r ≤ length slots.old) }
    requires name_len_bound { length name.now ≤ name_width }
    requires r_value { slot_in slots.old r ≡ blank }
    ensures { slots.new ≡ with_slot r (slot (new_resource name.now)) slots.old }
{
    let start = slot_start(r);
    copy(&mut slots[start..start + name.len()], name);
}

// Resource r gets a value; its name stays.
pub fn store_value(slots: &mut [u8], r: u32, value: &[u8])
    requires le_r { (1 ≤ r) × (slot_width * r ≤ length slots.old) }
    requires value_len { length value.now ≡ value_width }
    ensures { slots.new ≡ with_slot r (take name_width (slot_in slots.old r) ++ value.now) slots.old }
{
    let start = slot_start(r) + NAME_BYTES;
    copy(&mut slots[start..start + VALUE_BYTES], value);
}

// The slot of resource r keeps nothing.
#[tactic(auto, using(crate::proofs::SlotStores::store_laws))]
pub fn clear_slot(slots: &mut [u8], r: u32)
    requires { (1 ≤ r) × (slot_width * r ≤ length slots.old) }
    ensures { slots.new ≡ with_slot r blank slots.old }
{
    let start = slot_start(r);
    slots[start..start + SLOT_BYTES].fill(0);
}

// The value of resource r.
#[tactic(auto, using(crate::proofs::SlotStores::store_laws))]
pub fn value_at(slots: &[u8], r: u32) -> [u8; VALUE_BYTES]
    requires { (1 ≤ r) × (slot_width * r ≤ length slots.now) }
    ensures { result ≡ drop name_width (slot_in slots.now r) }
{
    let start = slot_start(r) + NAME_BYTES;
    let mut value = [0; VALUE_BYTES];
    value.copy_from_slice(&slots[start..start + VALUE_BYTES]);
    value
}
