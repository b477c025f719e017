#![tactic(auto)]
// The image of the two tables, first the words, little-endian, and then the slots; and loading an image.
ghost use Rattle.std.specs.Prelude.{◌≡◌, ◌≤◌};
ghost use Rattle.rules.specs.Images.{image_sound, image_entry, load_entry};
ghost use Rattle.rules.specs.Entries.{lent, outcome};
ghost use Rattle.answers.specs.Answers.{done};
ghost use Rattle.entry_image.specs.Promises.{most_words, imaged, Counted, Measured, Decoded, SoundWords};

use answers::Refusal;
use check_tables::sound;
use table_bytes::{WORD_BYTES, decode, encode, word_at};

// The words of the largest tables.
const MOST_WORDS: usize = table_fields::HEADER_WORDS
    + table_fields::RESOURCE_WORDS * table_fields::MOST_RESOURCES
    + table_fields::LOCK_WORDS * table_fields::MOST_LOCKS;

// The smaller buffers have room for the words of tables with so many resources and locks. Where records become wider, the
// buffers do too. What decoding leaves over is cleared, so an image's words go to the smallest buffer that has room.
const SMALL_RESOURCES: usize = 6;

const SMALL_LOCKS: usize = 8;

const SMALL_WORDS: usize = table_fields::HEADER_WORDS
    + table_fields::RESOURCE_WORDS * SMALL_RESOURCES
    + table_fields::LOCK_WORDS * SMALL_LOCKS;

const MIDDLE_RESOURCES: usize = 95;

const MIDDLE_LOCKS: usize = 256;

const MIDDLE_WORDS: usize = table_fields::HEADER_WORDS
    + table_fields::RESOURCE_WORDS * MIDDLE_RESOURCES
    + table_fields::LOCK_WORDS * MIDDLE_LOCKS;

// The area becomes the image of the tables.
#[tactic(auto, using(crate::proofs::ImageReturns::imaging))]
pub fn image(words: &[u32], slots: &[u8], area: &mut [u8]) -> Result<(), Refusal>
    ensures { imaged (done result) area.new ≡ image_entry words.now slots.now area.old }
{
    if !sound(words, slots) {
        return Err(Refusal::Unsound);
    }
    let start = WORD_BYTES * words.len();
    if area.len() != start + slots.len() {
        return Err(Refusal::Lengths);
    }
    encode(words, &mut area[..start]);
    area[start..].copy_from_slice(slots);
    Ok(())
}

// How many words the image has, if its R, its L and its length are right. R and L are its first two words.
#[tactic(auto, using(crate::proofs::ImageMeasure::measuring))]
pub fn words_in(image: &[u8]) -> Option<usize>
    ensures { Measured image.now result }
{
    if image.len() < 2 * WORD_BYTES {
        return None;
    }
    let r = word_at(image, 0) as usize;
    let l = word_at(image, WORD_BYTES) as usize;
    if !((1 <= r)
        & (r <= table_fields::MOST_RESOURCES)
        & (1 <= l)
        & (l <= table_fields::MOST_LOCKS))
    {
        return None;
    }
    let n = table_fields::HEADER_WORDS
        + table_fields::RESOURCE_WORDS * r
        + table_fields::LOCK_WORDS * l;
    if image.len() != WORD_BYTES * n + table_names::SLOT_BYTES * r {
        return None;
    }
    Some(n)
}

// Whether it is an image of sound tables. `decoded` holds its words.
#[tactic(auto, using(crate::proofs::ImageMeasure::judging))]
fn is_sound(image: &[u8], decoded: &[u32]) -> bool
    requires { Decoded image.now decoded.now }
    ensures { result ≡ image_sound image.now }
{
    let start = WORD_BYTES * decoded.len();
    sound(decoded, &image[start..])
}

// The tables, which may hold anything before, become those of the image, whose words `decoded` holds. Nothing lent changes
// where it is refused.
#[tactic(auto, using(crate::proofs::ImageReturns::loading))]
fn load_from(
    image: &[u8],
    decoded: &[u32],
    words: &mut [u32],
    slots: &mut [u8],
) -> Result<(), Refusal>
    requires { Decoded image.now decoded.now }
    ensures { outcome (done result) (lent words.new slots.new) ≡ load_entry image.now (lent words.old slots.old) }
{
    if !is_sound(image, decoded) {
        return Err(Refusal::Unsound);
    }
    let start = WORD_BYTES * decoded.len();
    if !((words.len() == decoded.len()) & (slots.len() == image.len() - start)) {
        return Err(Refusal::Lengths);
    }
    words.copy_from_slice(decoded);
    slots.copy_from_slice(&image[start..]);
    Ok(())
}

// The same with the image's n words in a buffer. This function also decodes them: the optimizer then sees that nobody
// else has the buffer, clears only what the words leave over, and copies through the C library. It is not inlined, so
// that the large buffers are not on the stack when the image is small.
#[inline(never)]
fn load_in<const WORDS: usize>(
    image: &[u8],
    n: usize,
    words: &mut [u32],
    slots: &mut [u8],
) -> Result<(), Refusal>
    requires counted { Counted image.now n }
    requires room { n ≤ WORDS }
    requires size { WORDS ≤ most_words }
    ensures { outcome (done result) (lent words.new slots.new) ≡ load_entry image.now (lent words.old slots.old) }
{
    let mut buffer = [0; WORDS];
    decode(image, &mut buffer[..n]);
    load_from(image, &buffer[..n], words, slots)
}

// An entry: the tables become those of the image, whatever they held before.
#[tactic(auto, using(crate::proofs::ImageReturns::loading))]
pub fn load(image: &[u8], words: &mut [u32], slots: &mut [u8]) -> Result<(), Refusal>
    ensures { outcome (done result) (lent words.new slots.new) ≡ load_entry image.now (lent words.old slots.old) }
{
    let n = words_in(image).ok_or(Refusal::Unsound)?;
    if n <= SMALL_WORDS {
        return load_in::<SMALL_WORDS>(image, n, words, slots);
    }
    if n <= MIDDLE_WORDS {
        return load_in::<MIDDLE_WORDS>(image, n, words, slots);
    }
    load_in::<MOST_WORDS>(image, n, words, slots)
}

// How many words the image has, if it is one of sound tables. It is loaded into empty tables: their lengths are wrong,
// and they are refused for that only if the image is sound.
pub fn sound_words(image: &[u8]) -> Option<usize>
    ensures { SoundWords image.now result }
{
    if load(image, &mut [], &mut []) != Err(Refusal::Lengths) {
        return None;
    }
    words_in(image)
}
