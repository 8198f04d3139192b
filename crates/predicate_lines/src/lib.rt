// Reads the predicate lines of a sheet's head, `p= ch= lo= hi=`: by rising number, gaps allowed, perhaps none.
#![tactic(auto)]

ghost use Rattle.std.specs.Prelude.{◌≡◌};
ghost use Rattle.predicate_lines.specs.Form.{range_of, unset};
ghost use Rattle.predicate_lines.specs.Reading.{end_at, line_at, lines_at};

use recordings::{Predicate, Range};
use text::{Field, Read, signed};

// A predicate and its number.
#[derive(Clone, Copy)]
pub struct NumberedPredicate {
    pub number: usize,
    pub predicate: Predicate,
}

// An end of a range; a missing one is written `*`.
#[tactic(auto, unfolding(crate::specs::Reading::end_at))]
fn read_end(s: &[u8], at: usize, key: &[u8]) -> Option<Read<Option<i64>>>
    ensures { result ≡ end_at key.now s.now at }
{
    let start = text::read_mark(s, at, key)?;
    if let Some(next) = text::read_mark(s, start, b"*") {
        return Some(Read { value: None, next });
    }
    let Field::Number(value, next) = signed::read_number(s, start) else {
        return None;
    };
    Some(Read {
        value: Some(value),
        next,
    })
}

fn range_of(lo: Option<i64>, hi: Option<i64>) -> Range
    ensures { result ≡ range_of lo hi }
{
    match (lo, hi) {
        (None, None) => Range::Free,
        (Some(low), None) => Range::AtLeast(low),
        (None, Some(high)) => Range::AtMost(high),
        (Some(low), Some(high)) => Range::Between(low, high),
    }
}

// The predicate line at a place.
#[tactic(auto, unfolding(crate::specs::Reading::line_at))]
fn read_line(s: &[u8], at: usize) -> Option<Read<NumberedPredicate>>
    ensures { result ≡ line_at s.now at }
{
    let Field::Number(number, channel_at) = text::read_field(s, at, b"p=", 15) else {
        return None;
    };
    let Field::Number(channel, lo_at) = text::read_field(s, channel_at, b" ch=", text::LARGEST)
    else {
        return None;
    };
    let lo = read_end(s, lo_at, b" lo=")?;
    let hi = read_end(s, lo.next, b" hi=")?;
    let next = text::read_mark(s, hi.next, b"\n")?;
    let predicate = Predicate {
        channel: channel as usize,
        range: range_of(lo.value, hi.value),
    };
    let value = NumberedPredicate {
        number: number as usize,
        predicate,
    };
    Some(Read { value, next })
}

// No predicate set.
pub fn unset_predicates() -> [Predicate; 16]
    ensures { result ≡ unset }
{
    let none = Predicate {
        channel: 0,
        range: Range::Unset,
    };
    [none; 16]
}

// The predicates of the lines from a place on. Their numbers rise, so that each stands once and sixteen lines are the most.
#[tactic(auto, using(std::proofs::lemmas::Grind::common_steps, crate::proofs::Rest::line_known))]
pub fn read_predicates(s: &[u8], at: usize) -> Option<Read<[Predicate; 16]>>
    ensures { result ≡ lines_at s.now at }
{
    let mut all = unset_predicates();
    let mut next = at;
    let mut least = 0;
    // Each line says where the next one begins, so no range counts the turns.
    while text::key_at(s, next, b"p=") {
        let line = read_line(s, next)?;
        let number = line.value.number;
        if number < least {
            return None;
        }
        least = number + 1;
        all[number] = line.value.predicate;
        next = line.next;
    }
    Some(Read { value: all, next })
}
