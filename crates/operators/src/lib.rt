// The pieces of a requirement text that hold no other requirement: letters, windows and operators.
#![tactic(auto)]

ghost use Rattle.std.specs.Prelude.{◌≡◌, ◌≤◌, get_or};
ghost use Rattle.text.specs.Mark.{mark_at};
ghost use Rattle.tables.specs.Tree.{LONGEST};
ghost use Rattle.grammar.specs.Operators.{letters, letter};
ghost use Rattle.grammar.specs.Reading.{bracket_at, high_end_at, window_at, timed_at, binder_at, prefix_at};

use grammar::Operator;
use tables::Span;
use text::{Field, Read};

// The letter of a kind, which stands at the kind's place of the one table of letters. A number that is no kind's has NUL, which the table gives past its end.
pub fn letter_of(kind: u64) -> u8
    ensures { result ≡ get_or letters kind 0 }
{
    b"Tp!&|URFG".get(kind as usize).copied().unwrap_or(0)
}

// The letter of a kind where it is due.
pub fn read_letter(s: &[u8], at: usize, kind: u64) -> Option<usize>
    ensures { result ≡ mark_at (letter kind) s.now at }
{
    text::read_mark(s, at, &[letter_of(kind)])
}

// The bracket at an end of a window as its mark: 0 where the end is counted, 1 where it is excluded.
#[tactic(auto, unfolding(grammar::specs::Reading::bracket_at))]
fn read_bracket(s: &[u8], at: usize, counted: &[u8], excluded: &[u8]) -> Field<u64>
    ensures { result ≡ bracket_at counted.now excluded.now s.now at }
{
    if let Some(next) = text::read_mark(s, at, counted) {
        return Field::Number(0, next);
    }
    if let Some(next) = text::read_mark(s, at, excluded) {
        return Field::Number(1, next);
    }
    Field::Bad
}

// The high end of a window, after its comma: `*]`, or a number and its bracket. As it is read, something must be left of the window.
#[tactic(auto, unfolding(grammar::specs::Reading::high_end_at))]
fn read_high_end(s: &[u8], at: usize, lo: u64, openlo: u64) -> Option<Read<Span>>
    requires { (lo ≤ LONGEST) × (openlo ≤ 1) }
    ensures { result ≡ high_end_at lo openlo s.now at }
{
    if let Some(next) = text::read_mark(s, at, b"*]") {
        let value = Span {
            lo,
            hi: tables::NO_END,
            openlo,
            openhi: 0,
        };
        return Some(Read { value, next });
    }
    let Field::Number(hi, close) = text::read_number(s, at, tables::LONGEST) else {
        return None;
    };
    let Field::Number(openhi, next) = read_bracket(s, close, b"]", b")") else {
        return None;
    };
    if hi < lo + openlo + openhi {
        return None;
    }
    let value = Span {
        lo,
        hi,
        openlo,
        openhi,
    };
    Some(Read { value, next })
}

// A window: `[lo,hi]` or `[lo,*]`, with `(` and `)` for excluded ends.
#[tactic(auto, unfolding(grammar::specs::Reading::window_at))]
fn read_window(s: &[u8], at: usize) -> Option<Read<Span>>
    ensures { result ≡ window_at s.now at }
{
    let Field::Number(openlo, first) = read_bracket(s, at, b"[", b"(") else {
        return None;
    };
    let Field::Number(lo, comma) = text::read_number(s, first, tables::LONGEST) else {
        return None;
    };
    let end = text::read_mark(s, comma, b",")?;
    read_high_end(s, end, lo, openlo)
}

// The letter of a kind and its window.
#[tactic(auto, unfolding(grammar::specs::Reading::timed_at))]
fn read_timed(s: &[u8], at: usize, kind: u64) -> Operator
    ensures { result ≡ timed_at kind s.now at }
{
    let Some(next) = read_letter(s, at, kind) else {
        return Operator::Absent;
    };
    match read_window(s, next) {
        Some(window) => Operator::Over(kind, window.value, window.next),
        None => Operator::Bad,
    }
}

// What binds a unary to the one before it: until or release.
pub fn read_binder(s: &[u8], at: usize) -> Operator
    ensures { result ≡ binder_at s.now at }
{
    read_timed(s, at, tables::UNTIL).or(read_timed(s, at, tables::RELEASE))
}

// What a unary begins with, where it is an operator: not, eventually or always.
pub fn read_prefix(s: &[u8], at: usize) -> Operator
    ensures { result ≡ prefix_at s.now at }
{
    if let Some(next) = read_letter(s, at, tables::NOT) {
        return Operator::Over(tables::NOT, tables::no_span(), next);
    }
    read_timed(s, at, tables::EVENTUALLY).or(read_timed(s, at, tables::ALWAYS))
}
