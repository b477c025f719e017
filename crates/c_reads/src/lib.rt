#![tactic(auto)]
// Read, list and the soundness check for C: over numbers and slices, which C lends as a pointer and a length.
// include/zamgyorud.h declares these functions.
ghost use Rattle.std.specs.Prelude.{◌≡◌};
ghost use Rattle.tables.specs.Lists.{bit};
ghost use Rattle.tables.specs.Sound.{sound};
ghost use Rattle.rules.specs.Entries.{read_entry, list_entry};
ghost use Rattle.entry_list.specs.Listings.{listing};
ghost use Rattle.c_answers.specs.Areas.{filled, in_front, value_filled};
ghost use Rattle.c_answers.specs.PackedAnswers.{unpacked};

use answers::said;
use tables::LockEntry;

// As many of the bytes as fit go to the front of the area.
fn put_front(area: &mut [u8], bytes: &[u8])
    ensures { area.new ≡ in_front bytes.now area.old }
{
    let room = area.len();
    if room < bytes.len() {
        area.copy_from_slice(&bytes[..room]);
        return;
    }
    area[..bytes.len()].copy_from_slice(bytes);
}

// The value block goes to the front of the lent value, as much as fits.
#[unsafe(no_mangle)]
pub extern "C" fn zamgyorud_read(
    words: &[u32],
    slots: &[u8],
    client: u32,
    lock: u32,
    value: &mut [u8],
) -> u64
    ensures { filled (unpacked result) value.new ≡ value_filled (read_entry words.now slots.now client lock) value.old }
{
    let found = entry_read::read(words, slots, client, lock);
    let Ok(read) = found else {
        return c_answers::pack(said(found));
    };
    put_front(value, &read.value);
    c_answers::pack(said(found))
}

#[unsafe(no_mangle)]
pub extern "C" fn zamgyorud_list(
    words: &[u32],
    slots: &[u8],
    client: u32,
    lock: u32,
    entries: &mut [LockEntry],
) -> u64
    ensures { listing (unpacked result) entries.new ≡ list_entry words.now slots.now client lock entries.old }
{
    c_answers::pack(said(entry_list::list(words, slots, client, lock, entries)))
}

#[unsafe(no_mangle)]
pub extern "C" fn zamgyorud_sound(words: &[u32], slots: &[u8]) -> u32
    ensures { result ≡ bit (sound words.now slots.now) }
{
    u32::from(check_tables::sound(words, slots))
}
