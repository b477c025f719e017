#![tactic(auto)]
// What lockplay does with its input: it gathers lines, does what each asks, and prints its answer.
ghost use Rattle.std.specs.Prelude.{◌≡◌, [], ◌*◌, length, take};
ghost use Rattle.tables.specs.Layout.{size, slot_width};
ghost use Rattle.play_lines.specs.InputLines.{keeps, Room, meant_kept, line_width};
ghost use Rattle.rules.specs.Entries.{lent};
ghost use Rattle.play_calls.specs.Plays.{played, played_with};
ghost use Rattle.play_session.specs.Sessions.{fresh_tables, Lengths, fed, fed_all, ended, standing, Ready, Spacious, WroteWithin, Ends, played_resources, played_locks};

use play_calls::perform;
use play_commands::LINE_BYTES;
use play_lines::{Fed, Line, feed, is_begun, parse_gathered, start};
use play_print::{LineAnswer, PRINTED_BYTES, print};

// Lockplay's tables: R 4, L 8.
const RESOURCES: u32 = 4;

const LOCKS: u32 = 8;

pub const WORDS: usize = table_fields::HEADER_WORDS
    + table_fields::RESOURCE_WORDS * RESOURCES as usize
    + table_fields::LOCK_WORDS * LOCKS as usize;

pub const SLOTS: usize = table_names::SLOT_BYTES * RESOURCES as usize;

// How many bytes are read at once, and how many their lines can print: each of them may end a line.
pub const CHUNK_BYTES: usize = 1024;

pub const OUTPUT_BYTES: usize = PRINTED_BYTES * CHUNK_BYTES;

// Room for the tables and for a line.
pub fn word_space() -> [u32; WORDS]
    ensures { size played_resources played_locks ≡ length result }
{
    [0; WORDS]
}

pub fn slot_space() -> [u8; SLOTS]
    ensures { slot_width * played_resources ≡ length result }
{
    [0; SLOTS]
}

pub fn line_space() -> [u8; LINE_BYTES]
    ensures { line_width ≡ length result }
{
    [0; LINE_BYTES]
}

// The tables become fresh ones.
pub fn start_tables(words: &mut [u32], slots: &mut [u8])
    requires { Lengths words.old slots.old }
    ensures { lent words.new slots.new ≡ fresh_tables }
{
    let _ = entry_locks::start(words, slots, RESOURCES, LOCKS);
}

// Does what a gathered line asks.
pub fn play_gathered(words: &mut [u32], slots: &mut [u8], buffer: &[u8], s: Line) -> LineAnswer
    requires { Room buffer.now s }
    ensures { played_with result words.new slots.new ≡ played (meant_kept (keeps buffer.now s)) (lent words.old slots.old) }
{
    perform(words, slots, parse_gathered(buffer, s))
}

// Where a chunk of the input stands: the line that is being gathered, and how many bytes are printed.
#[derive(Clone, Copy)]
pub struct Progress {
    pub line: Line,
    pub at: usize,
}

// Takes one byte of the input. At byte 10 the line is played and its answer printed.
pub fn play_byte(
    words: &mut [u32],
    slots: &mut [u8],
    buffer: &mut [u8],
    out: &mut [u8],
    p: Progress,
    b: u8,
) -> Progress
    requires { Ready buffer.old out.old p }
    ensures out_after { standing buffer.new words.new slots.new result.line (take result.at out.new) ≡ fed (standing buffer.old words.old slots.old p.line (take p.at out.old)) b }
    ensures wrote_within { WroteWithin buffer.new out.old out.new p.at 1 result }
{
    let at = p.at;
    match feed(buffer, p.line, b) {
        Fed::More(line) => Progress { line, at },
        Fed::Whole(line) => {
            let o = play_gathered(words, slots, buffer, line);
            let end = print(out, at, o);
            Progress {
                line: start(),
                at: end,
            }
        }
    }
}

// A chunk of the input: what its lines print goes to the front of out, which has room for a line for each byte of the chunk.
#[tactic(auto, using(crate::proofs::Sessions::chunk_rules))]
pub fn play_bytes(
    words: &mut [u32],
    slots: &mut [u8],
    buffer: &mut [u8],
    s: Line,
    chunk: &[u8],
    out: &mut [u8],
) -> Progress
    requires { Spacious buffer.old out.old s (length chunk.now) }
    ensures out_after { standing buffer.new words.new slots.new result.line (take result.at out.new) ≡ fed_all (standing buffer.old words.old slots.old s []) chunk.now }
    ensures wrote_within { WroteWithin buffer.new out.old out.new 0 (length chunk.now) result }
{
    let mut p = Progress { line: s, at: 0 };
    for b in chunk {
        p = play_byte(words, slots, buffer, out, p, *b);
    }
    p
}

// The end of the input: a last line that no byte 10 ended is played. The answer is how many bytes are printed.
pub fn play_end(
    words: &mut [u32],
    slots: &mut [u8],
    buffer: &[u8],
    s: Line,
    out: &mut [u8],
) -> usize
    requires { Spacious buffer.now out.old s 1 }
    ensures { Ends (ended (standing buffer.now words.old slots.old s [])) words.new slots.new out.new result }
{
    if !is_begun(s) {
        return 0;
    }
    let o = play_gathered(words, slots, buffer, s);
    print(out, 0, o)
}
