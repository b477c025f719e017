#![tactic(auto)]
// Plays the lines of standard input on fresh tables and prints a line for each. What comes is played as soon as it is
// there, so that a user at a terminal sees each answer at once.
ghost use Rattle.std.specs.Prelude.{◌≤◌, length};
ghost use Rattle.play_lines.specs.InputLines.{Room, line_width};

use play_lines::Line;
use play_session::{CHUNK_BYTES, OUTPUT_BYTES};
use std::io;
use std::io::{Read, Write};

// Reads what is there, plays it, and prints what its lines print. Answers whether anything was there.
fn play_some<R: Read, W: Write>(
    from: &mut R,
    to: &mut W,
    words: &mut [u32],
    slots: &mut [u8],
    buffer: &mut [u8],
    line: &mut Line,
) -> io::Result<bool>
    requires { Room buffer.old line.old }
    ensures { Room buffer.new line.new }
{
    let mut chunk = [0; CHUNK_BYTES];
    let n = from.read(&mut chunk)?;
    if n == 0 {
        return Ok(false);
    }
    let mut out = [0; OUTPUT_BYTES];
    let p = play_session::play_bytes(words, slots, buffer, *line, &chunk[..n], &mut out);
    *line = p.line;
    to.write_all(&out[..p.at])?;
    Ok(true)
}

// A read or a write that fails ends the input. A proved loop has to end, and nothing says that an input does: this one
// has more turns than any run uses up.
fn play_all<R: Read, W: Write>(
    from: &mut R,
    to: &mut W,
    words: &mut [u32],
    slots: &mut [u8],
    buffer: &mut [u8],
) -> Line
    requires { line_width ≤ length buffer.old }
    ensures { Room buffer.new result }
{
    let mut line = play_lines::start();
    for _ in 0..u64::MAX {
        if !play_some(from, to, words, slots, buffer, &mut line).unwrap_or(false) {
            return line;
        }
    }
    line
}

fn main(rt: HostRuntime) {
    let mut words = play_session::word_space();
    let mut slots = play_session::slot_space();
    let mut buffer = play_session::line_space();
    play_session::start_tables(&mut words, &mut slots);
    let line = play_all(
        &mut rt.stdin(),
        &mut rt.stdout(),
        &mut words,
        &mut slots,
        &mut buffer,
    );
    let mut out = [0; OUTPUT_BYTES];
    let n = play_session::play_end(&mut words, &mut slots, &buffer, line, &mut out);
    let _written = rt.stdout().write_all(&out[..n]);
}
