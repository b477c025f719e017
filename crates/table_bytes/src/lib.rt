#![tactic(auto)]
// Words as bytes, little-endian, and back.
ghost use Rattle.std.specs.Prelude.{◌≡◌, ◌+◌, ◌*◌, ◌≤◌, length};
ghost use Rattle.rules.specs.Images.{word_from};
ghost use Rattle.table_bytes.specs.Bytes.{encoded, decoded, with_word};

pub const WORD_BYTES: usize = 4;

// The four bytes of x, the lowest first, go to the place `at` and those after it.
#[tactic(auto, using(crate::proofs::Loops::put_laws))]
fn put_word(area: &mut [u8], at: usize, x: u32)
    requires { at + 4 ≤ length area.old }
    ensures { area.new ≡ with_word at x area.old }
{
    area[at..at + WORD_BYTES].copy_from_slice(&x.to_le_bytes());
}

// The word whose bytes stand at the place `at` and after it.
pub fn word_at(bytes: &[u8], at: usize) -> u32
    requires { at + 4 ≤ length bytes.now }
    ensures { result ≡ word_from bytes.now at }
{
    u32::from_le_bytes([bytes[at], bytes[at + 1], bytes[at + 2], bytes[at + 3]])
}

// The area, which has the length for it, becomes the bytes of the words.
#[tactic(auto, using(crate::proofs::Loops::encode_loop))]
pub fn encode(words: &[u32], area: &mut [u8])
    requires { length area.old ≡ 4 * length words.now }
    ensures { area.new ≡ encoded words.now }
{
    for (i, word) in words.iter().enumerate() {
        put_word(area, WORD_BYTES * i, *word);
    }
}

// The words become those whose bytes these are.
#[tactic(auto, using(crate::proofs::Loops::decode_loop))]
pub fn decode(bytes: &[u8], words: &mut [u32])
    requires { 4 * length words.old ≤ length bytes.now }
    ensures { words.new ≡ decoded bytes.now (length words.old) }
{
    for (i, word) in words.iter_mut().enumerate() {
        *word = word_at(bytes, WORD_BYTES * i);
    }
}
