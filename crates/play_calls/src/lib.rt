#![tactic(auto)]
// Does what a line of lockplay asks: the call is made, and its answer is what is printed.
ghost use Rattle.std.specs.Prelude.{◌≡◌, []};
ghost use Rattle.rules.specs.Entries.{lent, to_request, to_convert, to_release, to_cancel, to_purge, to_break, to_poll};
ghost use Rattle.play_commands.specs.Forms.{letter_q, letter_c, letter_r, letter_x, letter_p, letter_d, letter_n, meaning};
ghost use Rattle.play_calls.specs.Plays.{answered, plays, played, played_with};

use answers::said;
use play_commands::Command;
use play_print::LineAnswer;
use rules::Said;

// What is printed for an answer: the line's letter, and so many of the answer's numbers.
#[tactic(auto, unfolding(crate::specs::Plays::answered))]
fn answered(letter: u8, fields: usize, x: Said) -> LineAnswer
    ensures { result ≡ answered letter fields x }
{
    if x.refusal == 0 {
        return LineAnswer::Answer(letter, fields, x.answer, x.number, x.extra);
    }
    LineAnswer::Refusal(letter, x.refusal)
}

// The lines by their letters: the call, and what is printed for it.
fn request_line(
    words: &mut [u32],
    slots: &mut [u8],
    client: u32,
    mode: u32,
    flags: u32,
    name: &[u8],
) -> LineAnswer
    ensures { played_with result words.new slots.new ≡ plays letter_q 2 (to_request client mode flags name.now) (lent words.old slots.old) }
{
    let x = said(entry_locks::request(words, slots, client, mode, flags, name));
    answered(b'q', 2, x)
}

fn convert_line(
    words: &mut [u32],
    slots: &mut [u8],
    client: u32,
    lock: u32,
    mode: u32,
    flags: u32,
) -> LineAnswer
    ensures { played_with result words.new slots.new ≡ plays letter_c 1 (to_convert client lock mode flags []) (lent words.old slots.old) }
{
    let x = said(entry_locks::convert(words, slots, client, lock, mode, flags, b""));
    answered(b'c', 1, x)
}

fn release_line(
    words: &mut [u32],
    slots: &mut [u8],
    client: u32,
    lock: u32,
    flags: u32,
) -> LineAnswer
    ensures { played_with result words.new slots.new ≡ plays letter_r 1 (to_release client lock flags []) (lent words.old slots.old) }
{
    let x = said(entry_locks::release(words, slots, client, lock, flags, b""));
    answered(b'r', 1, x)
}

fn cancel_line(words: &mut [u32], slots: &[u8], client: u32, lock: u32) -> LineAnswer
    ensures { played_with result words.new slots.now ≡ plays letter_x 1 (to_cancel client lock) (lent words.old slots.now) }
{
    let x = said(entry_recovery::cancel(words, slots, client, lock));
    answered(b'x', 1, x)
}

fn purge_line(words: &mut [u32], slots: &mut [u8], client: u32) -> LineAnswer
    ensures { played_with result words.new slots.new ≡ plays letter_p 3 (to_purge client) (lent words.old slots.old) }
{
    let x = said(entry_recovery::purge(words, slots, client));
    answered(b'p', 3, x)
}

fn break_line(words: &mut [u32], slots: &[u8]) -> LineAnswer
    ensures { played_with result words.new slots.now ≡ plays letter_d 1 to_break (lent words.old slots.now) }
{
    let x = said(entry_recovery::break_deadlock(words, slots));
    answered(b'd', 1, x)
}

fn poll_line(words: &mut [u32], slots: &[u8], client: u32) -> LineAnswer
    ensures { played_with result words.new slots.now ≡ plays letter_n 3 (to_poll client) (lent words.old slots.now) }
{
    let x = said(entry_recovery::poll(words, slots, client));
    answered(b'n', 3, x)
}

// Does what a line asks, if it is of one of the forms.
#[tactic(auto, unfolding(crate::specs::Plays::played))]
pub fn perform(words: &mut [u32], slots: &mut [u8], command: Option<Command<'_>>) -> LineAnswer
    ensures { played_with result words.new slots.new ≡ played (meaning command.entry) (lent words.old slots.old) }
{
    match command {
        None => LineAnswer::Unknown,
        Some(
            Command::Request {
                client,
                mode,
                flags,
                name,
            },
        ) => request_line(words, slots, client, mode, flags, name),
        Some(
            Command::Convert {
                client,
                lock,
                mode,
                flags,
            },
        ) => convert_line(words, slots, client, lock, mode, flags),
        Some(
            Command::Release {
                client,
                lock,
                flags,
            },
        ) => release_line(words, slots, client, lock, flags),
        Some(Command::Cancel { client, lock }) => cancel_line(words, slots, client, lock),
        Some(Command::Purge { client }) => purge_line(words, slots, client),
        Some(Command::Break) => break_line(words, slots),
        Some(Command::Poll { client }) => poll_line(words, slots, client),
    }
}
