// Reads marks and number fields out of bytes. Every reader answers the place after what it read, or that it doesn't stand there.
// Past the end stand no digits and no key, so no caller tests a length.
#![tactic(auto)]

pub mod signed;

ghost use Rattle.std.specs.Prelude.{◌≡◌, length, take, drop, get_or};
ghost use Rattle.text.specs.Mark.{key_at, mark_at};
ghost use Rattle.text.specs.Number.{digits, is_numeral, number_at, field_at};

// The largest number of a field without a sign, and of one with a sign.
pub const LARGEST: u64 = 4_294_967_295;

const LARGEST_SIGNED: u64 = 2_147_483_647;

// How many bytes are looked at for digits. Ten are the most of a number; with as few as eleven the loop would be compiled to eleven tests, which is slower.
const MOST_SEEN: usize = 64;

// What a number field holds and the place after it. It is no `Option`, since readers name both at once: `let Field::Number(value, next) = .. else`.
#[derive(Clone, Copy)]
pub enum Field<T> {
    Number(T, usize),
    Bad,
}

// What a line or another part of a text says, and the place after it.
#[derive(Clone, Copy)]
pub struct Read<T> {
    pub value: T,
    pub next: usize,
}

// The digits from a place on, as far as they are looked at: a long run of digits costs no more than a short one.
fn digits_at(s: &[u8], at: usize) -> &[u8]
    ensures { result.now ≡ digits (take 64 (drop at s.now)) }
{
    let behind = s.get(at..).unwrap_or(&[]);
    let count = behind
        .iter()
        .take(MOST_SEEN)
        .take_while(|b| b.is_ascii_digit())
        .count();
    &behind[..count]
}

// Whether digits write a number: one to ten of them, and no leading zero.
fn is_numeral(digits: &[u8]) -> bool
    ensures { result ≡ is_numeral (get_or digits.now 0 0) (length digits.now) }
{
    1 <= digits.len() && digits.len() <= 10 && !(digits[0] == b'0' && 1 < digits.len())
}

// A number of up to ten digits without a leading zero, at most max.
pub fn read_number(s: &[u8], at: usize, max: u64) -> Field<u64>
    ensures { result ≡ number_at s.now at max }
{
    let digits = digits_at(s, at);
    if !is_numeral(digits) {
        return Field::Bad;
    }
    let mut value: u64 = 0;
    for b in digits {
        value = value * 10 + u64::from(b - b'0');
    }
    if value <= max {
        Field::Number(value, at + digits.len())
    } else {
        Field::Bad
    }
}

// Whether key stands at a place of s.
#[tactic(auto, using(std::proofs::lemmas::Grind::common_steps, crate::proofs::Marks::starts_prefix))]
pub fn key_at(s: &[u8], at: usize, key: &[u8]) -> bool
    ensures { result ≡ key_at key.now s.now at }
{
    at <= s.len() && s[at..].starts_with(key)
}

// The place after a key that stands at a place of s.
#[tactic(auto, unfolding(crate::specs::Mark::mark_at))]
pub fn read_mark(s: &[u8], at: usize, key: &[u8]) -> Option<usize>
    ensures { result ≡ mark_at key.now s.now at }
{
    key_at(s, at, key).then(|| at + key.len())
}

// A number that follows a key.
#[tactic(auto, unfolding(crate::specs::Number::field_at))]
pub fn read_field(s: &[u8], at: usize, key: &[u8], max: u64) -> Field<u64>
    ensures { result ≡ field_at key.now s.now at max }
{
    read_mark(s, at, key).map_or(Field::Bad, |next| read_number(s, next, max))
}
