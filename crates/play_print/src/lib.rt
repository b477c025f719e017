#![tactic(auto)]
// What is printed for a line of the program lockplay.
ghost use Rattle.std.specs.Prelude.{◌≡◌, ◌+◌, ◌*◌, ◌%◌, ◌≤◌, ◌<◌, length, take};
ghost use Rattle.play_print.specs.Decimal.{decimal};
ghost use Rattle.play_print.specs.PrintedLines.{Wrote, one, printed, spaced_number, spaced_numbers, number_width, field_width, printed_width};

// What is printed for a line: its letter, how many fields the answer has there, and the answer's numbers, of which the first
// are these fields; its letter and the refusal; or `?`.
#[derive(Clone, Copy)]
pub enum LineAnswer {
    Answer(u8, usize, u32, u32, u32),
    Refusal(u8, u32),
    Unknown,
}

// The longest of each: a number of 32 bits has ten digits, a field is a space and a number, a line has a letter, three
// fields and byte 10.
const NUMBER_BYTES: usize = 10;

const FIELD_BYTES: usize = 1 + NUMBER_BYTES;

pub const PRINTED_BYTES: usize = 1 + 3 * FIELD_BYTES + 1;

// Writes one byte at a place of a buffer. This function and those below answer the place after what they wrote.
fn put_byte(out: &mut [u8], at: usize, b: u8) -> usize
    requires { at < length out.old }
    ensures { Wrote out.old at (one b) out.new result }
{
    out[at] = b;
    at + 1
}

// A number's last digit.
fn last_digit(n: u32) -> u8
    ensures { result ≡ 48 + n % 10 }
{
    b'0' + (n % 10) as u8
}

// How many digits a number has.
fn digit_count(n: u32) -> usize
    ensures { (result ≡ length (decimal n)) × (result ≤ number_width) }
{
    let mut m = n;
    let mut k: usize = 1;
    while 10 <= m {
        m = m / 10;
        k += 1;
    }
    k
}

// Writes a number, its last digit first.
fn put_number(out: &mut [u8], at: usize, n: u32) -> usize
    requires { at + number_width ≤ length out.old }
    ensures { Wrote out.old at (decimal n) out.new result × (result ≤ at + number_width) }
{
    let end = at + digit_count(n);
    let mut m = n;
    let mut k = end;
    while 10 <= m {
        let d = last_digit(m);
        k -= 1;
        out[k] = d;
        m = m / 10;
    }
    out[at] = last_digit(m);
    end
}

// A space and a number.
fn put_field(out: &mut [u8], at: usize, n: u32) -> usize
    requires { at + field_width ≤ length out.old }
    ensures { Wrote out.old at (spaced_number n) out.new result × (result ≤ at + field_width) }
{
    let a = put_byte(out, at, b' ');
    put_number(out, a, n)
}

// The first numbers, as many as fields says, each after a space.
fn put_fields(out: &mut [u8], at: usize, numbers: &[u32], fields: usize) -> usize
    requires { at + field_width * length numbers.now ≤ length out.old }
    ensures { Wrote out.old at (spaced_numbers (take fields numbers.now)) out.new result × (result ≤ at + field_width * length numbers.now) }
{
    let mut a = at;
    for n in numbers.iter().take(fields) {
        a = put_field(out, a, *n);
    }
    a
}

// The lines of the three outcomes.
fn print_answer(
    out: &mut [u8],
    at: usize,
    letter: u8,
    fields: usize,
    answer: u32,
    number: u32,
    extra: u32,
) -> usize
    requires { at + printed_width ≤ length out.old }
    ensures { Wrote out.old at (printed (LineAnswer.Answer letter fields answer number extra)) out.new result × (result ≤ at + printed_width) }
{
    let numbers = [answer, number, extra];
    let a = put_byte(out, at, letter);
    let b = put_fields(out, a, &numbers, fields);
    put_byte(out, b, b'\n')
}

fn print_refusal(out: &mut [u8], at: usize, letter: u8, refusal: u32) -> usize
    requires { at + printed_width ≤ length out.old }
    ensures { Wrote out.old at (printed (LineAnswer.Refusal letter refusal)) out.new result × (result ≤ at + printed_width) }
{
    let a = put_byte(out, at, letter);
    let b = put_byte(out, a, b' ');
    let e = put_byte(out, b, b'!');
    let f = put_field(out, e, refusal);
    put_byte(out, f, b'\n')
}

fn print_unknown(out: &mut [u8], at: usize) -> usize
    requires { at + printed_width ≤ length out.old }
    ensures { Wrote out.old at (printed LineAnswer.Unknown) out.new result × (result ≤ at + printed_width) }
{
    let a = put_byte(out, at, b'?');
    put_byte(out, a, b'\n')
}

// The line that is printed for an outcome.
pub fn print(out: &mut [u8], at: usize, o: LineAnswer) -> usize
    requires { at + printed_width ≤ length out.old }
    ensures { Wrote out.old at (printed o) out.new result × (result ≤ at + printed_width) }
{
    match o {
        LineAnswer::Answer(letter, fields, answer, number, extra) => {
            print_answer(out, at, letter, fields, answer, number, extra)
        }
        LineAnswer::Refusal(letter, refusal) => print_refusal(out, at, letter, refusal),
        LineAnswer::Unknown => print_unknown(out, at),
    }
}
