// Numbers that may have a sign: the fields lo, hi and v.
ghost use Rattle.std.specs.Prelude.{◌≡◌};
ghost use Rattle.text.specs.Number.{signed_at, signed_field_at};

use crate::Field;

// A number with `-` before it or not, and no -0.
pub fn read_number(s: &[u8], at: usize) -> Field<i64>
    ensures { result ≡ signed_at s.now at }
{
    let minus = crate::read_mark(s, at, b"-");
    let digits = minus.unwrap_or(at);
    let Field::Number(size, next) = crate::read_number(s, digits, crate::LARGEST_SIGNED) else {
        return Field::Bad;
    };
    // A size is at most LARGEST_SIGNED, so the casts keep it.
    match minus {
        None => Field::Number(size as i64, next),
        Some(_) if 0 < size => Field::Number(-(size as i64), next),
        Some(_) => Field::Bad,
    }
}

// A signed number that follows a key.
#[tactic(auto, unfolding(crate::specs::Number::signed_field_at))]
pub fn read_field(s: &[u8], at: usize, key: &[u8]) -> Field<i64>
    ensures { result ≡ signed_field_at key.now s.now at }
{
    crate::read_mark(s, at, key).map_or(Field::Bad, |next| read_number(s, next))
}
