#![tactic(auto)]
// The takeover program's question: who holds a name EX in the tables of an image. They are read where they stand in it.
ghost use Rattle.std.specs.Prelude.{◌≡◌, true, ◌≤◌, ◌<◌, get_or};
ghost use Rattle.tables.specs.Lists.{same};
ghost use Rattle.tables.specs.Numbered.{numbered};
ghost use Rattle.tables.specs.State.{name_width};
ghost use Rattle.tables.specs.Layout.{resource_width, lock_width, of_resource, of_lock, resources_in, locks_in, word_in, read};
ghost use Rattle.tables.specs.Sound.{sound};
ghost use Rattle.rules.specs.Queues.{find};
ghost use Rattle.rules.specs.Images.{image_size, image_words, ex, holder_of, holder_entry};
ghost use Rattle.table_names.specs.Names.{name_in, find_in};
ghost use Rattle.table_chains.specs.Promises.{Some, Tells, Resourced};
ghost use Rattle.table_chains.specs.Walking.{Walking, first_with};
ghost use Rattle.entry_holder.specs.Promises.{HasAllWords, ex_lock};
ghost use Rattle.entry_holder.specs.Holders.{holder_number};

use answers::Refusal;
use entry_image::sound_words;
use modes::Mode;
use table_bytes::{WORD_BYTES, word_at};

// The takeover program gets a refusal as this plus its number, and 0 where nobody holds EX.
const REFUSED: u32 = 256;

// An image of sound tables: all its bytes, and the slots at their end. The words are read where they stand in the bytes.
#[derive(Drop)]
struct Image<'a> {
    bytes: &'a [u8],
    slots: &'a [u8],
    ghost has_all_words: { HasAllWords bytes.now },
    ghost sound: { sound (image_words bytes.now) slots.now ≡ true },
}

impl Image<'_> {
    // The word at that place among the words of the tables. Those below, down to `has_name`, read through it, and have
    // twins over words in `table_fields` and `table_names`. A trait of words would be no plainer: it would give the
    // contract of every reader a type, to save three functions.
    fn word(&self, at: usize) -> u32
        requires { at < image_size self.now.bytes.now }
        ensures { result ≡ get_or (image_words self.now.bytes.now) at 0 }
    {
        word_at(self.bytes, WORD_BYTES * at)
    }

    fn resource_count(&self) -> u32
        ensures { result ≡ resources_in (image_words self.now.bytes.now) }
    {
        self.word(table_fields::RESOURCES)
    }

    fn resource_word(&self, r: u32, field: usize) -> u32
        requires le_r { (1 ≤ r) × (r ≤ resources_in (image_words self.now.bytes.now)) }
        requires field_lt_resource_width { field < resource_width }
        ensures { result ≡ word_in (image_words self.now.bytes.now) (of_resource r field) }
    {
        let start = table_fields::HEADER_WORDS + table_fields::RESOURCE_WORDS * (r as usize - 1);
        self.word(start + field)
    }

    fn lock_word(&self, k: u32, field: usize) -> u32
        requires le_k { (1 ≤ k) × (k ≤ locks_in (image_words self.now.bytes.now)) }
        requires field_lt_lock_width { field < lock_width }
        ensures { result ≡ word_in (image_words self.now.bytes.now) (of_lock k field) }
    {
        let resources = self.resource_count() as usize;
        let start = table_fields::HEADER_WORDS
            + table_fields::RESOURCE_WORDS * resources
            + table_fields::LOCK_WORDS * (k as usize - 1);
        self.word(start + field)
    }

    #[tactic(auto, using(table_names::proofs::SlotParts::slot_laws, table_names::proofs::StateNames::sound_named))]
    fn name_length(&self, r: u32) -> usize
        requires { (1 ≤ r) × (r ≤ resources_in (image_words self.now.bytes.now)) }
        ensures { (result ≡ word_in (image_words self.now.bytes.now) (of_resource r 4)) × (result ≤ name_width) }
    {
        self.resource_word(r, table_fields::RESOURCE_NAME_LENGTH) as usize
    }

    // Whether that is the name of r.
    #[tactic(auto, using(table_names::proofs::SlotParts::slot_laws, table_names::proofs::StateNames::sound_named))]
    fn has_name(&self, r: u32, name: &[u8]) -> bool
        requires { (1 ≤ r) × (r ≤ resources_in (image_words self.now.bytes.now)) }
        ensures { result ≡ same (name_in (image_words self.now.bytes.now) self.now.slots.now r) name.now }
    {
        let length = self.name_length(r);
        if length != name.len() {
            return false;
        }
        let start = table_names::slot_start(r);
        let end = start + length;
        table_names::same(&self.slots[start..end], name)
    }

    // The resource of that name.
    #[tactic(auto, using(table_names::proofs::SlotParts::find_loop))]
    fn named_resource(&self, name: &[u8]) -> Option<u32>
        ensures { result ≡ numbered (find_in (image_words self.now.bytes.now) self.now.slots.now name.now) }
    {
        let n = self.resource_count();
        for r in 1..n + 1 {
            if self.has_name(r, name) {
                return Some(r);
            }
        }
        None
    }

    // The first lock from `first` on along its queue that holds EX. (no plainer) An iterator along a queue of an image
    // would be one more type with its laws, and this its one loop.
    #[tactic(auto, using(crate::proofs::ExclusiveLock::seeking))]
    fn ex_from(&self, first: u32) -> Option<u32>
        requires { Walking (image_words self.now.bytes.now) 0 first }
        ensures { result ≡ numbered (first_with (image_words self.now.bytes.now) 0 6 ex first) }
    {
        let mut k = first;
        while k != 0 {
            if self.lock_word(k, table_fields::LOCK_HELD) == Mode::EX as u32 {
                return Some(k);
            }
            k = self.lock_word(k, table_fields::LOCK_NEXT);
        }
        None
    }

    // The first lock that holds EX on r: granted, or converting.
    fn ex_lock(&self, r: u32) -> Option<u32>
        requires { Some (Resourced r) (image_words self.now.bytes.now) }
        ensures { Tells (Resourced r) (λ t. numbered (ex_lock r t)) (image_words self.now.bytes.now) result }
    {
        let granted = self.resource_word(r, table_fields::RESOURCE_GRANT);
        if let Some(k) = self.ex_from(granted) {
            return Some(k);
        }
        let converting = self.resource_word(r, table_fields::RESOURCE_CONVERT);
        self.ex_from(converting)
    }

    // The client that holds EX on that name.
    fn ex_holder(&self, name: &[u8]) -> Option<u32>
        ensures { result ≡ numbered (holder_of (find name.now (read (image_words self.now.bytes.now) self.now.slots.now)) (read (image_words self.now.bytes.now) self.now.slots.now)) }
    {
        let r = self.named_resource(name)?;
        let k = self.ex_lock(r)?;
        Some(self.lock_word(k, table_fields::LOCK_CLIENT))
    }
}

// The client that holds EX on that name in the tables of the image, if one does.
#[tactic(auto, using(crate::proofs::HolderReturns::answering))]
fn held(image: &[u8], name: &[u8]) -> Result<Option<u32>, Refusal>
    ensures { holder_number result ≡ holder_entry image.now name.now }
{
    let n = sound_words(image).ok_or(Refusal::Unsound)?;
    if !call_arguments::name_right(name) {
        return Err(Refusal::Name);
    }
    let start = WORD_BYTES * n;
    let image = Image {
        bytes: image,
        slots: &image[start..],
    };
    Ok(image.ex_holder(name))
}

// The same as one number, as the takeover program gets it. A client and a refusal that can't be mistaken for one another
// are what the theorem speaks of, so this stays a number.
pub fn holder(image: &[u8], name: &[u8]) -> u32
    ensures { result ≡ holder_entry image.now name.now }
{
    match held(image, name) {
        Ok(client) => client.unwrap_or(0),
        Err(refusal) => REFUSED + refusal.number(),
    }
}
