#![tactic(auto)]
// Fresh tables, whatever the lent ones held before: all records free, chained upward.
ghost use Rattle.std.specs.Prelude.{◌≡◌, ◌-◌, ◌≤◌, length};
ghost use Rattle.tables.specs.Layout.{header_width};
ghost use Rattle.rules.specs.Entries.{start_accepts};
ghost use Rattle.call_start.specs.Fresh.{Sizes, Links, headed, linked_up, fresh_words};

use table_fields::{
    FREE_LOCKS, FREE_RESOURCES, HEADER_WORDS, LOCK_NEXT, LOCK_WORDS, LOCKS, MOST_LOCKS,
    MOST_RESOURCES, RESOURCE_NEXT, RESOURCE_WORDS, RESOURCES,
};
use table_names::SLOT_BYTES;

// The numbers are 1 to 256 resources and 1 to 1024 locks, and the lent tables have the lengths for them.
pub fn sizes_right(words: &[u32], slots: &[u8], resources: u32, locks: u32) -> bool
    ensures { result ≡ start_accepts words.now slots.now resources locks }
{
    let r = resources as usize;
    let l = locks as usize;
    (1 <= r)
        & (r <= MOST_RESOURCES)
        & (1 <= l)
        & (l <= MOST_LOCKS)
        & (words.len() == HEADER_WORDS + (RESOURCE_WORDS * r + LOCK_WORDS * l))
        & (slots.len() == SLOT_BYTES * r)
}

// Writes how many records there are, and record 1 as the first free one of both kinds.
fn put_header(words: &mut [u32], resources: u32, locks: u32)
    requires { header_width ≤ length words.old }
    ensures { words.new ≡ headed resources locks words.old }
{
    words[RESOURCES] = resources;
    words[LOCKS] = locks;
    words[FREE_RESOURCES] = 1;
    words[FREE_LOCKS] = 1;
}

// Each of n records gets the next one's number as its link; the link of the last one stays as it is. The link of record
// 1 stands at `first`, the others follow `width` words apart.
fn chain_up(words: &mut [u32], first: usize, width: usize, n: u32)
    requires { Links first width n words.old }
    ensures { words.new ≡ linked_up first width (n - 1) words.old }
{
    let mut at = first;
    for next in 2..n + 1 {
        words[at] = next;
        at += width;
    }
}

// The words of fresh tables.
pub fn start_words(words: &mut [u32], resources: u32, locks: u32)
    requires { Sizes resources locks words.old }
    ensures { words.new ≡ fresh_words resources locks }
{
    words.fill(0);
    put_header(words, resources, locks);
    let resource_links = HEADER_WORDS + RESOURCE_NEXT;
    chain_up(words, resource_links, RESOURCE_WORDS, resources);
    let lock_links = HEADER_WORDS + RESOURCE_WORDS * (resources as usize) + LOCK_NEXT;
    chain_up(words, lock_links, LOCK_WORDS, locks);
}
