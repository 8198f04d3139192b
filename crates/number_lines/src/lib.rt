// Reads single lines of a sheet's head, a key with a number, and answers the place of the next line.
#![tactic(auto)]

ghost use Rattle.std.specs.Prelude.{◌≡◌};
ghost use Rattle.number_lines.specs.Reading.{number_line_at};

use text::{Field, Read};

// A line of a key and a number.
#[tactic(auto, unfolding(crate::specs::Reading::number_line_at))]
pub fn read_number(s: &[u8], at: usize, key: &[u8]) -> Option<Read<u64>>
    ensures { result ≡ number_line_at key.now s.now at }
{
    let Field::Number(value, end) = text::read_field(s, at, key, text::LARGEST) else {
        return None;
    };
    let next = text::read_mark(s, end, b"\n")?;
    Some(Read { value, next })
}
