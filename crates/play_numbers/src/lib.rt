#![tactic(auto)]
// The numbers in a line's fields, which one space parts.
ghost use Rattle.std.specs.Prelude.{◌≡◌, ◌==◌, IfNone, MatchOption, None, Some, position};
ghost use Rattle.play_numbers.specs.Characters.{space};
ghost use Rattle.play_numbers.specs.Steps.{number_in, next_field};

// The most digits that a number may have: it fits 32 bits then.
const MOST_DIGITS: usize = 9;

// The number that a field is. The library's `parse` would take a sign, and ten digits.
fn read_number(field: &[u8]) -> Option<u32>
    ensures { result ≡ number_in field.now }
{
    if field.is_empty() || MOST_DIGITS < field.len() {
        return None;
    }
    let mut value = 0;
    for b in field {
        if !b.is_ascii_digit() {
            return None;
        }
        value = 10 * value + u32::from(*b - b'0');
    }
    Some(value)
}

// The place of the first space.
fn first_space(line: &[u8]) -> Option<usize>
    ensures { result ≡ position (λ b. b == space) line.now }
{
    line.iter().position(|b| *b == b' ')
}

// The fields of a line that are still to read.
#[derive(Clone, Copy)]
pub struct Fields<'a> {
    pub rest: &'a [u8],
}

impl Fields<'_> {
    // The number that the next field is. A space has to stand after it.
    pub fn next_number(&mut self) -> Option<u32>
        ensures is { MatchOption result (next_field self.old.rest.now ≡ None) (λ n. next_field self.old.rest.now ≡ Some (n, self.new.rest.now)) }
        ensures none_stays { IfNone result (self.new.rest.now ≡ self.old.rest.now) }
    {
        let end = first_space(self.rest)?;
        let number = read_number(&self.rest[..end])?;
        self.rest = &self.rest[end + 1..];
        Some(number)
    }

    // The number that all the rest of the line is.
    pub fn last_number(self) -> Option<u32>
        ensures { result ≡ number_in self.entry.rest.now }
    {
        read_number(self.rest)
    }
}
