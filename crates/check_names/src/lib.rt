#![tactic(auto)]
// No two resources have one name. In large tables each name gets a number, and names are compared only where numbers are
// equal.
ghost use Rattle.std.specs.Prelude.{◌≡◌, ◌*◌, ◌≤◌, eqb, length};
ghost use Rattle.tables.specs.Lists.{any};
ghost use Rattle.tables.specs.State.{name_width};
ghost use Rattle.tables.specs.Layout.{slot_width, resources_in};
ghost use Rattle.table_names.specs.Names.{apart, apart_after, names_differ};
ghost use Rattle.table_names.specs.Promises.{Named, Tidy};
ghost use Rattle.check_names.specs.Numbers.{name_words, weighed, name_number, Noted, TellsApart};

use table_bytes::{WORD_BYTES, word_at};
use table_fields::{RESOURCE_PLACES, resource_count};
use table_names::{NAME_BYTES, has_name, name_length, slot_start};

// With at most so many resources the names themselves are compared: filling an array is not worth it.
const FEW: u32 = 8;

const NAME_WORDS: usize = NAME_BYTES / WORD_BYTES;

// The weights of a name's words in its number. Any weights would do; these tell names apart that are much alike. They
// are odd, so that names that differ in one word only have different numbers.
const WEIGHTS: [u16; NAME_WORDS] = [
    18183, 32537, 27127, 26945, 26369, 28241, 16617, 21785, 22753, 22101, 31737, 23189, 30137,
    22687, 25009, 27715,
];

// A number has 32 bits: the lower half of the sum.
const NUMBER_RANGE: u64 = 4294967296;

// Marks for the numbers that were met, each at the sum of its number's leading and last twelve bits: either alone is equal
// for many names that count up. There are more places than names, so that a place is seldom marked already.
const PLACES: usize = 4096;

const PLACE_STEP: usize = NUMBER_RANGE as usize / PLACES;

// Resources r and s do not share a name.
#[tactic(auto, using(crate::proofs::ComparedNames::apart_laws))]
fn apart(words: &[u32], slots: &[u8], r: u32, s: u32) -> bool
    requires named { Named words.now slots.now }
    requires le_r { (1 ≤ r) × (r ≤ resources_in words.now) }
    requires le_s { (1 ≤ s) × (s ≤ resources_in words.now) }
    ensures { result ≡ apart words.now slots.now r s }
{
    let own = name_length(words, r);
    let start = slot_start(r);
    let alike = has_name(words, slots, s, &slots[start..start + own]);
    !((own != 0) & alike)
}

// No resource after r has its name: each is compared, unless r has none.
#[tactic(auto, using(crate::proofs::ComparedNames::compare_loop))]
fn compare_after(words: &[u32], slots: &[u8], r: u32) -> bool
    requires named { Named words.now slots.now }
    requires le_r { (1 ≤ r) × (r ≤ resources_in words.now) }
    ensures { result ≡ apart_after words.now slots.now r }
{
    if name_length(words, r) == 0 {
        return true;
    }
    let n = resource_count(words);
    for s in r + 1..n + 1 {
        if !apart(words, slots, r, s) {
            return false;
        }
    }
    true
}

// Each name is compared with those after it.
#[tactic(auto, using(crate::proofs::ComparedNames::compare_loop))]
fn compare_all(words: &[u32], slots: &[u8]) -> bool
    requires { Named words.now slots.now }
    ensures { result ≡ names_differ words.now slots.now }
{
    let n = resource_count(words);
    for r in 1..n + 1 {
        if !compare_after(words, slots, r) {
            return false;
        }
    }
    true
}

// The sum of the words, each times its weight.
#[tactic(auto, using(crate::proofs::NameNumbers::weigh_loop))]
fn weigh(bytes: &[u8], weights: &[u16]) -> u64
    requires { (length bytes.now ≡ name_width) × (length weights.now ≡ name_words) }
    ensures { result ≡ weighed weights.now bytes.now name_words }
{
    let mut sum = 0;
    for (i, weight) in weights.iter().enumerate() {
        sum += u64::from(*weight) * u64::from(word_at(bytes, WORD_BYTES * i));
    }
    sum
}

// A number for the name of resource r, made of all the bytes where it stands.
#[tactic(auto, using(crate::proofs::NameNumbers::number_laws))]
fn number(slots: &[u8], weights: &[u16], r: u32) -> u32
    requires weights_len { length weights.now ≡ name_words }
    requires le_r { (1 ≤ r) × (slot_width * r ≤ length slots.now) }
    ensures { result ≡ name_number weights.now slots.now r }
{
    let start = slot_start(r);
    (weigh(&slots[start..start + NAME_BYTES], weights) % NUMBER_RANGE) as u32
}

// x is one of these numbers. All of them are looked at, so that the processor can compare many at once.
fn among(a: &[u32], x: u32) -> bool
    ensures { result ≡ any (eqb x) a.now }
{
    a.iter().fold(false, |met, y| met | (*y == x))
}

// The names met so far, from the last resource down: the number of each at the place of its resource, and marks for the numbers.
#[derive(Drop)]
struct Met {
    numbers: [u32; RESOURCE_PLACES],
    marks: [bool; PLACES],
}

impl Met {
    // No resource after r has its name. The numbers of the names after r have been noted and their places marked; the
    // number of r's own name is added to them. If its place was not marked yet, no name after r has its number. Names are
    // compared only if one of them has it.
    #[tactic(auto, using(crate::proofs::NewNames::telling))]
    fn add(&mut self, words: &[u32], slots: &[u8], weights: &[u16], r: u32) -> bool
        requires tidy { Tidy words.now slots.now }
        requires le_r { (1 ≤ r) × (r ≤ resources_in words.now) }
        requires noted { Noted words.now slots.now weights.now self.old r }
        ensures { TellsApart words.now slots.now weights.now self.new r result }
    {
        if name_length(words, r) == 0 {
            return true;
        }
        let x = number(slots, weights, r);
        self.numbers[r as usize] = x;
        let digits = x as usize;
        let place = (digits + digits / PLACE_STEP) % PLACES;
        if !self.marks[place] {
            self.marks[place] = true;
            return true;
        }
        let after = r as usize + 1;
        let end = resource_count(words) as usize + 1;
        if !among(&self.numbers[after..end], x) {
            return true;
        }
        compare_after(words, slots, r)
    }
}

// The names are taken from the last one down, so that the numbers noted before a name's own are those of the names
// after it.
#[tactic(auto, using(crate::proofs::NewNames::left_loop))]
fn by_number(words: &[u32], slots: &[u8]) -> bool
    requires { Tidy words.now slots.now }
    ensures { result ≡ names_differ words.now slots.now }
{
    let weights = WEIGHTS;
    let mut met = Met {
        numbers: [0; RESOURCE_PLACES],
        marks: [false; PLACES],
    };
    let n = resource_count(words);
    for r in (1..n + 1).rev() {
        if !met.add(words, slots, &weights, r) {
            return false;
        }
    }
    true
}

// No two resources have one name.
pub fn names_differ(words: &[u32], slots: &[u8]) -> bool
    requires { Tidy words.now slots.now }
    ensures { result ≡ names_differ words.now slots.now }
{
    if resource_count(words) <= FEW {
        return compare_all(words, slots);
    }
    by_number(words, slots)
}
