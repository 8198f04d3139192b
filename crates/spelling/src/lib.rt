// The text of a requirement's tree, in pieces that hold no other requirement: parts of the grammar, and an operator's letter and window. What the whole text is, specs/Text says.
#![tactic(auto, using(printing::proofs::Printed::printed_append), unfolding(printing::specs::Output::printed))]

ghost use Rattle.std.specs.Prelude.{◌≡◌, ◌++◌, [], true, cond, ltb};
ghost use Rattle.printing.specs.Decimal.{decimal};
ghost use Rattle.printing.specs.Output.{printed};
ghost use Rattle.tables.specs.Kind.{predicate_kind};
ghost use Rattle.grammar.specs.Operators.{letter};
ghost use Rattle.spelling.specs.Text.{part_of, left_part, right_part, stands_as, end_text, window_text, sign};

use grammar::Part;
use logic::Extremum;
use printing::Output;
use tables::{Operator, Span};

// The part of the grammar that a kind makes. A number that is no kind's makes a unary, as the definitions have it.
pub fn part_of(kind: u64) -> Part
    ensures { result ≡ part_of kind }
{
    match Operator::from(kind) {
        Operator::Joined(Extremum::Largest) => Part::Alternative,
        Operator::Joined(Extremum::Smallest) => Part::Conjunction,
        Operator::Binary(_, _) => Part::Bind,
        _ => Part::Unary,
    }
}

// The part that is due left of a part's operator: alternatives and conjunctions group to the left.
pub fn left_part(part: Part) -> Part
    ensures { result ≡ left_part part }
{
    match part {
        Part::Alternative => Part::Alternative,
        Part::Conjunction => Part::Conjunction,
        Part::Bind | Part::Unary => Part::Unary,
    }
}

// The part that is due right of it.
pub fn right_part(part: Part) -> Part
    ensures { result ≡ right_part part }
{
    match part {
        Part::Alternative => Part::Conjunction,
        Part::Conjunction => Part::Bind,
        Part::Bind | Part::Unary => Part::Unary,
    }
}

// Whether a part may stand, without parentheses, where another is due.
pub fn stands_as(due: Part, own: Part) -> bool
    ensures { result ≡ stands_as due own }
{
    due <= own
}

// A parenthesis, unless the part may stand without where the other is due.
pub fn write_parenthesis<const N: usize>(out: &mut Output<N>, due: Part, own: Part, mark: &[u8])
    ensures { out.new ≡ printed out.old (cond (stands_as due own) [] mark.now) }
{
    if !stands_as(due, own) {
        out.word(mark);
    }
}

// The bracket at an end of a window: another where a mark excludes that end.
fn write_bracket<const N: usize>(out: &mut Output<N>, mark: u64, counted: &[u8], excluded: &[u8])
    ensures { out.new ≡ printed out.old (cond (ltb 0 mark) excluded.now counted.now) }
{
    out.word(if 0 < mark { excluded } else { counted });
}

// What follows a window's comma: its end, or `*` where it has none.
fn write_end<const N: usize>(out: &mut Output<N>, span: Span)
    ensures { out.new ≡ printed out.old (end_text span) }
{
    if span.hi == tables::NO_END {
        return out.word(b"*]");
    }
    out.number(span.hi);
    write_bracket(out, span.openhi, b"]", b")");
}

// A window: `[lo,hi]` or `[lo,*]`, with `(` and `)` for excluded ends.
fn write_window<const N: usize>(out: &mut Output<N>, span: Span)
    ensures { out.new ≡ printed out.old (window_text true span) }
{
    write_bracket(out, span.openlo, b"[", b"(");
    out.number(span.lo);
    out.word(b",");
    write_end(out, span);
}

// An operator: its letter, and its window where its kind has one.
pub fn write_sign<const N: usize>(out: &mut Output<N>, kind: u64, span: Span)
    ensures { out.new ≡ printed out.old (sign kind span) }
{
    out.byte(operators::letter_of(kind));
    if tables::is_timed(kind) {
        write_window(out, span);
    }
}

// A predicate by its number.
pub fn write_predicate<const N: usize>(out: &mut Output<N>, number: usize)
    ensures { out.new ≡ printed out.old (letter predicate_kind ++ decimal number) }
{
    out.byte(operators::letter_of(tables::PREDICATE));
    out.number(number as u64);
}
