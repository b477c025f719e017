#![tactic(auto)]
// How the lines of the program lockplay are gathered from the input's bytes, and what a gathered line asks.
ghost use Rattle.std.specs.Prelude.{◌≡◌, false, List, ℕ};
ghost use Rattle.play_commands.specs.Forms.{meaning};
ghost use Rattle.play_lines.specs.InputLines.{keeps, begun, Room, Feeds, meant_kept};

use play_commands::{Command, LINE_BYTES, parse};

// A line that is being gathered: how many of its bytes are in the buffer, and whether it has more than the longest may have.
#[derive(Clone, Copy)]
pub struct Line {
    pub len: usize,
    pub over: bool,
}

// After a byte: the line has one byte more, or byte 10 ended it.
#[derive(Clone, Copy)]
pub enum Fed {
    More(Line),
    Whole(Line),
}

// No byte has come yet.
pub fn start() -> Line
    ensures { (result.len ≡ 0) × (result.over ≡ false) }
{
    Line {
        len: 0,
        over: false,
    }
}

// One byte of the input: the line's first bytes are in the buffer, as many as the longest may have.
#[tactic(auto, using(crate::proofs::FedBytes::gather_rules))]
pub fn feed(buffer: &mut [u8], s: Line, b: u8) -> Fed
    requires { Room buffer.old s }
    ensures { Feeds buffer.old s b buffer.new result }
{
    let len = s.len;
    let over = s.over;
    if b == b'\n' {
        return Fed::Whole(s);
    }
    if len < LINE_BYTES {
        buffer[len] = b;
        return Fed::More(Line { len: len + 1, over });
    }
    Fed::More(Line { len, over: true })
}

// Whether a last line, that no byte 10 ended, has begun.
pub fn is_begun(s: Line) -> bool
    ensures { (xs : List ℕ) → Room xs s → result ≡ begun (keeps xs s) }
{
    1 <= s.len
}

// What a gathered line asks, if it is not too long and of one of the forms.
#[tactic(auto, using(crate::proofs::FedBytes::gather_rules))]
pub fn parse_gathered(buffer: &[u8], s: Line) -> Option<Command<'_>>
    requires { Room buffer.now s }
    ensures { meaning result ≡ meant_kept (keeps buffer.now s) }
{
    if s.over {
        return None;
    }
    parse(&buffer[..s.len])
}
