#![tactic(auto)]
// Tests of the sizes, the header and the resources of whatever tables are lent.
ghost use Rattle.std.specs.Prelude.{◌≡◌, ◌≤◌, eqb};
ghost use Rattle.tables.specs.Layout.{of_header, resources_in, word_in};
ghost use Rattle.tables.specs.Sound.{sizes_right};
ghost use Rattle.table_fields.specs.Sizes.{Sized};
ghost use Rattle.table_names.specs.Names.{named};
ghost use Rattle.table_names.specs.Promises.{Slotted};
ghost use Rattle.check_laws.specs.Check.{row_in, unheld, free_row, used_row, row_fine, resource_fine};

use check_laws::ResourceRow;
use table_fields::{
    HEADER_WORDS, HEADER_ZERO, LOCK_WORDS, LOCKS, MOST_LOCKS, MOST_RESOURCES, RESOURCE_CONVERT,
    RESOURCE_GRANT, RESOURCE_NAME_LENGTH, RESOURCE_NEXT, RESOURCE_VALID, RESOURCE_WAIT,
    RESOURCE_WORDS, RESOURCES, counts_at, resource_start, resource_word,
};
use table_names::{NAME_BYTES, SLOT_BYTES};

// The tables have 1 to 256 resources and 1 to 1024 locks, and are as long as these say.
#[tactic(auto, unfolding(tables::specs::Sound::sizes_right))]
pub fn sizes_right(words: &[u32], slots: &[u8]) -> bool
    ensures { result ≡ sizes_right words.now slots.now }
{
    if words.len() < HEADER_WORDS {
        return false;
    }
    let r = words[RESOURCES] as usize;
    let l = words[LOCKS] as usize;
    (1 <= r)
        & (r <= MOST_RESOURCES)
        & (1 <= l)
        & (l <= MOST_LOCKS)
        & (words.len() == HEADER_WORDS + (RESOURCE_WORDS * r + LOCK_WORDS * l))
        & (slots.len() == SLOT_BYTES * r)
}

// The header's last word is zero.
pub fn header_fine(words: &[u32]) -> bool
    requires { Sized words.now }
    ensures { result ≡ eqb (word_in words.now (of_header 7)) 0 }
{
    words[HEADER_ZERO] == 0
}

// The words of resource r before its counts. Those are read where they are tested, so that they do not take up registers
// in the walks.
#[tactic(auto, unfolding(check_laws::specs::Check::row_in))]
pub fn row_at(words: &[u32], r: u32) -> ResourceRow
    requires sized { Sized words.now }
    requires le_r { (1 ≤ r) × (r ≤ resources_in words.now) }
    ensures { result ≡ row_in words.now r }
{
    let start = resource_start(words, r);
    ResourceRow {
        next: words[start + RESOURCE_NEXT],
        grant: words[start + RESOURCE_GRANT],
        convert: words[start + RESOURCE_CONVERT],
        wait: words[start + RESOURCE_WAIT],
        bytes: words[start + RESOURCE_NAME_LENGTH],
        valid: words[start + RESOURCE_VALID],
    }
}

// Free: no value, and no lock on any queue.
#[tactic(auto, unfolding(check_laws::specs::Check::free_row))]
fn free_row(x: ResourceRow) -> bool
    ensures { result ≡ free_row x }
{
    (x.valid == 0) & (x.grant == 0) & (x.convert == 0) & (x.wait == 0)
}

// In use: off the free chain, a name of at most 64 bytes, valid or not, and a lock on some queue.
#[tactic(auto, unfolding(check_laws::specs::Check::used_row))]
fn used_row(x: ResourceRow) -> bool
    ensures { result ≡ used_row x }
{
    let idle = (x.grant == 0) & (x.convert == 0) & (x.wait == 0);
    (x.next == 0) & (x.bytes as usize <= NAME_BYTES) & (x.valid <= 1) & !idle
}

// Nobody holds a mode on resource r.
#[tactic(auto, unfolding(check_laws::specs::Check::unheld, table_fields::specs::Records::read_counts))]
fn unheld(words: &[u32], r: u32) -> bool
    requires sized { Sized words.now }
    requires le_r { (1 ≤ r) × (r ≤ resources_in words.now) }
    ensures { result ≡ unheld words.now r }
{
    let x = counts_at(words, r);
    (x.nl == 0) & (x.cr == 0) & (x.cw == 0) & (x.pr == 0) & (x.pw == 0) & (x.ex == 0)
}

// A resource is in use exactly if it has a name. Its words are x.
#[tactic(auto, unfolding(check_laws::specs::Check::row_fine))]
fn row_fine(words: &[u32], r: u32, x: ResourceRow) -> bool
    requires sized { Sized words.now }
    requires le_r { (1 ≤ r) × (r ≤ resources_in words.now) }
    requires x_value { x ≡ row_in words.now r }
    ensures { result ≡ row_fine words.now r }
{
    if x.bytes != 0 {
        return used_row(x);
    }
    free_row(x) && unheld(words, r)
}

// A resource's words, which are x, and its slot.
#[tactic(auto, unfolding(check_laws::specs::Check::resource_fine))]
pub fn resource_fine(words: &[u32], slots: &[u8], r: u32, x: ResourceRow) -> bool
    requires slotted { Slotted words.now slots.now }
    requires le_r { (1 ≤ r) × (r ≤ resources_in words.now) }
    requires x_value { x ≡ row_in words.now r }
    ensures { result ≡ resource_fine words.now slots.now r }
{
    row_fine(words, r, x) && table_names::slot_fine(words, slots, r)
}

// Resource r has a name.
#[tactic(auto, unfolding(table_names::specs::Names::named))]
pub fn in_use(words: &[u32], r: u32) -> bool
    requires sized { Sized words.now }
    requires le_r { (1 ≤ r) × (r ≤ resources_in words.now) }
    ensures { result ≡ named words.now r }
{
    resource_word(words, r, RESOURCE_NAME_LENGTH) != 0
}
