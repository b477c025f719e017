#![tactic(auto, using(crate::proofs::FormReturns::form_rules))]
// What a line of the program lockplay asks.
ghost use Rattle.std.specs.Prelude.{◌≡◌};
ghost use Rattle.play_numbers.specs.Fields.{parted};
ghost use Rattle.play_commands.specs.Forms.{meaning, meant, of_letter, as_request, as_convert, as_release, as_cancel, as_purge, as_poll};

use play_numbers::Fields;

// What a line asks. The name of a request is the rest of its line.
#[derive(Clone, Copy)]
pub enum Command<'a> {
    Request {
        client: u32,
        mode: u32,
        flags: u32,
        name: &'a [u8],
    },
    Convert {
        client: u32,
        lock: u32,
        mode: u32,
        flags: u32,
    },
    Release {
        client: u32,
        lock: u32,
        flags: u32,
    },
    Cancel {
        client: u32,
        lock: u32,
    },
    Purge {
        client: u32,
    },
    Break,
    Poll {
        client: u32,
    },
}

// `q` client mode flags name: what stands after the letter and its space.
fn request(mut fields: Fields<'_>) -> Option<Command<'_>>
    ensures { meaning result ≡ as_request (parted 3 fields.entry.rest.now) }
{
    let client = fields.next_number()?;
    let mode = fields.next_number()?;
    let flags = fields.next_number()?;
    Some(Command::Request {
        client,
        mode,
        flags,
        name: fields.rest,
    })
}

// `c` client lock mode flags.
fn convert(mut fields: Fields<'_>) -> Option<Command<'_>>
    ensures { meaning result ≡ as_convert (parted 3 fields.entry.rest.now) }
{
    let client = fields.next_number()?;
    let lock = fields.next_number()?;
    let mode = fields.next_number()?;
    let flags = fields.last_number()?;
    Some(Command::Convert {
        client,
        lock,
        mode,
        flags,
    })
}

// `r` client lock flags.
fn release(mut fields: Fields<'_>) -> Option<Command<'_>>
    ensures { meaning result ≡ as_release (parted 3 fields.entry.rest.now) }
{
    let client = fields.next_number()?;
    let lock = fields.next_number()?;
    let flags = fields.last_number()?;
    Some(Command::Release {
        client,
        lock,
        flags,
    })
}

// `x` client lock.
fn cancel(mut fields: Fields<'_>) -> Option<Command<'_>>
    ensures { meaning result ≡ as_cancel (parted 3 fields.entry.rest.now) }
{
    let client = fields.next_number()?;
    let lock = fields.last_number()?;
    Some(Command::Cancel { client, lock })
}

// `p` client.
fn purge(fields: Fields<'_>) -> Option<Command<'_>>
    ensures { meaning result ≡ as_purge (parted 3 fields.entry.rest.now) }
{
    let client = fields.last_number()?;
    Some(Command::Purge { client })
}

// `n` client.
fn poll(fields: Fields<'_>) -> Option<Command<'_>>
    ensures { meaning result ≡ as_poll (parted 3 fields.entry.rest.now) }
{
    let client = fields.last_number()?;
    Some(Command::Poll { client })
}

// A line that has a space after its letter: what stands after the space is of the letter's form.
#[tactic(auto, using(crate::proofs::Letters::letter_rules))]
fn with_fields(letter: u8, fields: Fields<'_>) -> Option<Command<'_>>
    ensures { meaning result ≡ of_letter letter (parted 3 fields.entry.rest.now) }
{
    match letter {
        b'q' => request(fields),
        b'c' => convert(fields),
        b'r' => release(fields),
        b'x' => cancel(fields),
        b'p' => purge(fields),
        b'n' => poll(fields),
        _ => None,
    }
}

// The bytes of the longest line that asks something.
pub const LINE_BYTES: usize = 256;

// What a line asks, if it is of one of the forms.
pub fn parse(line: &[u8]) -> Option<Command<'_>>
    ensures { meaning result ≡ meant line.now }
{
    if LINE_BYTES < line.len() {
        return None;
    }
    match line {
        [b'd'] => Some(Command::Break),
        [letter, b' ', rest @ ..] => with_fields(*letter, Fields { rest }),
        _ => None,
    }
}
