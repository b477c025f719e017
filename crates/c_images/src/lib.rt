#![tactic(auto)]
// Image, load and holder for C: over numbers and slices, which C lends as a pointer and a length.
// include/zamgyorud.h declares these functions.
ghost use Rattle.std.specs.Prelude.{◌≡◌};
ghost use Rattle.rules.specs.Entries.{lent, outcome};
ghost use Rattle.rules.specs.Images.{image_entry, load_entry, holder_entry};
ghost use Rattle.c_answers.specs.Areas.{filled, image_filled};
ghost use Rattle.c_answers.specs.PackedAnswers.{unpacked};

use answers::said;

#[unsafe(no_mangle)]
pub extern "C" fn zamgyorud_image(words: &[u32], slots: &[u8], area: &mut [u8]) -> u64
    ensures { filled (unpacked result) area.new ≡ image_filled (image_entry words.now slots.now area.old) }
{
    c_answers::pack(said(entry_image::image(words, slots, area)))
}

#[unsafe(no_mangle)]
pub extern "C" fn zamgyorud_load(image: &[u8], words: &mut [u32], slots: &mut [u8]) -> u64
    ensures { outcome (unpacked result) (lent words.new slots.new) ≡ load_entry image.now (lent words.old slots.old) }
{
    c_answers::pack(said(entry_image::load(image, words, slots)))
}

// What the takeover program asks.
#[unsafe(no_mangle)]
pub extern "C" fn zamgyorud_holder(image: &[u8], name: &[u8]) -> u32
    ensures { result ≡ holder_entry image.now name.now }
{
    entry_holder::holder(image, name)
}
