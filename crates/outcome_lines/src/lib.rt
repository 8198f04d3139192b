// The printed lines of a text's outcomes.
#![tactic(auto, using(printing::proofs::Printed::printed_append), unfolding(printing::specs::Output::printed))]

ghost use Rattle.std.specs.Prelude.{◌≡◌, ◌++◌, ◌≤◌, ◌<◌, length};
ghost use Rattle.printing.specs.Decimal.{decimal, decimal_signed};
ghost use Rattle.printing.specs.Output.{output, printed};
ghost use Rattle.outcomes.specs.Outcome.{text_of, text_outcome_of};
ghost use Rattle.outcomes.specs.Arrangement.{arrangement};
ghost use Rattle.outcome_lines.specs.Printed.{LINE, NUMBERED, LINES as ALL_LINES, word_of, figures_line, refusal_line, line_of, numbered_line, lines_in, entry_lines, lines_of};

use outcomes::{Outcome, OutcomeList, Outcomes};
use printing::Output;
use recordings::Verdict;
use refusals::Refusal;

// Sixteen lines with their numbers are not longer.
pub const LINES: usize = 2688;

fn word_of(verdict: Verdict) -> &'static [u8]
    ensures { result.now ≡ word_of verdict }
{
    match verdict {
        Verdict::Holds => b"holds",
        Verdict::Fails => b"fails",
        Verdict::NotShown => b"unshown",
    }
}

// A key and a number.
fn number_field<const N: usize>(out: &mut Output<N>, key: &[u8], n: u64)
    ensures { out.new ≡ printed out.old (key.now ++ decimal n) }
{
    out.word(key);
    out.number(n);
}

fn signed_field<const N: usize>(out: &mut Output<N>, key: &[u8], v: i64)
    ensures { out.new ≡ printed out.old (key.now ++ decimal_signed v) }
{
    out.word(key);
    out.signed(v);
}

fn figures_line<const N: usize>(out: &mut Output<N>, figures: Outcome)
    ensures result_value { let f = figures in out.new ≡ printed out.old (figures_line f.rows f.filled f.margin f.hold f.fail f.verdict) }
    ensures room { let f = figures in length (figures_line f.rows f.filled f.margin f.hold f.fail f.verdict) ≤ LINE }
{
    number_field(out, b"rows=", figures.rows as u64);
    number_field(out, b" filled=", figures.filled as u64);
    signed_field(out, b" margin=", figures.margin);
    signed_field(out, b" hold=", figures.hold);
    signed_field(out, b" fail=", figures.fail);
    out.word(b" verdict=");
    out.word(word_of(figures.verdict));
    out.word(b"\n");
}

fn refusal_line<const N: usize>(out: &mut Output<N>, number: u64)
    ensures result_value { out.new ≡ printed out.old (refusal_line number) }
    ensures room { length (refusal_line number) ≤ LINE }
{
    number_field(out, b"refused=", number);
    out.word(b"\n");
}

fn line<const N: usize>(out: &mut Output<N>, outcome: Outcome)
    ensures result_value { out.new ≡ printed out.old (line_of outcome) }
    ensures room { length (line_of outcome) ≤ LINE }
{
    if outcome.number != 0 {
        return refusal_line(out, outcome.number);
    }
    figures_line(out, outcome);
}

// A line with its requirement's number in front.
fn numbered_line<const N: usize>(out: &mut Output<N>, k: usize, outcome: Outcome)
    requires { k < 16 }
    ensures result_value { out.new ≡ printed out.old (numbered_line k outcome) }
    ensures room { length (numbered_line k outcome) ≤ NUMBERED }
{
    number_field(out, b"req=", k as u64);
    out.word(b" ");
    line(out, outcome);
}

// The numbered lines of outcomes, in the order in which they come.
fn numbered_lines<const N: usize>(out: &mut Output<N>, entries: &[Outcome])
    requires { length entries.now ≤ 16 }
    ensures result_value { out.new ≡ printed out.old (lines_in entries.now (arrangement entries.now)) }
    ensures room { length (lines_in entries.now (arrangement entries.now)) ≤ ALL_LINES }
{
    let order = outcomes::arranged(entries);
    for k in order.as_slice().iter() {
        numbered_line(out, *k, entries[*k]);
    }
}

// Lines have their requirements' numbers, except a single one.
fn entry_lines<const N: usize>(out: &mut Output<N>, entries: &[Outcome])
    requires { length entries.now ≤ 16 }
    ensures result_value { out.new ≡ printed out.old (entry_lines entries.now) }
    ensures room { length (entry_lines entries.now) ≤ ALL_LINES }
{
    if entries.len() != 1 {
        return numbered_lines(out, entries);
    }
    line(out, entries[0]);
}

// All that is printed for a text. With LINES places it is whole.
fn text_lines<const N: usize>(out: &mut Output<N>, all: Outcomes)
    ensures result_value { out.new ≡ printed out.old (lines_of (text_of all)) }
    ensures room { length (lines_of (text_of all)) ≤ ALL_LINES }
{
    if all.number != 0 {
        return refusal_line(out, all.number);
    }
    entry_lines(out, &all.entries[..all.count.min(outcomes::MOST)]);
}

// The same of what a text got.
pub fn print<const N: usize>(out: &mut Output<N>, all: &Result<OutcomeList, Refusal>)
    ensures result_value { out.new ≡ printed out.old (lines_of (text_outcome_of all.now)) }
    ensures room { length (lines_of (text_outcome_of all.now)) ≤ ALL_LINES }
{
    text_lines(out, outcomes::numbered(all));
}

// The same in a lent slice from a place on. Answers the place behind it.
pub fn lines(out: &mut [u8], at: usize, all: Outcomes) -> usize
    ensures result_value { output out.new result ≡ printed (output out.old at) (lines_of (text_of all)) }
    ensures room { length (lines_of (text_of all)) ≤ ALL_LINES }
{
    let mut lines = Output::<LINES>::new();
    text_lines(&mut lines, all);
    printing::word(out, at, lines.as_slice())
}
