// The row of until and release, eventually and always, from the rows of its operands. The places of a window are found from those of the place before.
// What an operator takes of one operand alone slides along with the window: right's extremum over it for eventually and always, left's before it for until and
// release. These two then share one loop over the window, which carries left's extremum along and stops where nothing later can change the answer.
#![tactic(auto)]

ghost use Rattle.std.specs.Prelude.{◌≡◌, true, ◌+◌, ◌*◌, ◌-◌, ◌≤◌, ◌<◌, max, length};
ghost use Rattle.lists.specs.Fill.{fill};
ghost use Rattle.logic.specs.declared.Stop.TheVariants.{Before};
ghost use Rattle.logic.specs.Formula.{dual};
ghost use Rattle.logic.specs.declared.Direction.TheVariants.{Future};
ghost use Rattle.logic.specs.Reading.{along, margins, margin_extreme};
ghost use Rattle.recordings.specs.Distance.{TOP};
ghost use Rattle.rows.specs.Cells.{cell, Bounded};
ghost use Rattle.sliding.specs.Run.{over};
ghost use Rattle.temporal.specs.Reading.{places, left_at, temporal_at, Rising, LeftInside};
ghost use Rattle.temporal.specs.Slid.{if_left, slid_at};
ghost use Rattle.temporal.specs.Edges.{Reached, Edge};
ghost use Rattle.temporal.specs.Asks.{PlaceAsks, TemporalAsks};

use logic::{Extremum, Stop, Window};

// The first place from i on that is at least `apart` seconds after i. None from i up to `at` is.
fn first_apart(times: &[u64], i: usize, at: usize, apart: u64) -> usize
    requires rising { Rising times.now }
    requires i_in_bounds { (i < length times.now) × Reached times.now (Before apart) i at }
    ensures { Edge times.now (Before apart) i result }
{
    let start = times[i];
    for j in i.max(at)..times.len() {
        if apart <= times[j] - start {
            return j;
        }
    }
    times.len()
}

// The first place from i on that is past the stop of i. None from i up to `at` is.
fn edge(times: &[u64], i: usize, at: usize, stop: Stop) -> usize
    requires rising { Rising times.now }
    requires i_in_bounds { (i < length times.now) × Reached times.now stop i at }
    ensures { Edge times.now stop i result }
{
    match stop {
        Stop::Endless => times.len(),
        Stop::Before(apart) => first_apart(times, i, at, apart),
    }
}

// Whether the best so far stays the best, `run` being the carried value.
fn settled(e: Extremum, best: i64, run: i64) -> bool
    ensures { result ≡ true → margin_extreme e best run ≡ best }
{
    match e {
        Extremum::Largest => numbers::at_most(run, best),
        Extremum::Smallest => numbers::at_most(best, run),
    }
}

// Until, or release, at place i, the places of its window being those from `first` up to, not including, `end`, and `carried` left's extremum before them.
fn bound_at(
    rows: usize,
    e: Extremum,
    cells: &[i64],
    left: usize,
    right: usize,
    i: usize,
    first: usize,
    end: usize,
    carried: i64,
) -> i64
    requires place_asks { PlaceAsks cells.now rows right i first end × (left * rows + rows ≤ length cells.now) }
    requires carried_value { carried ≡ over (dual e) (cell cells.now rows left) i first }
    ensures { result ≡ along (margins TOP) e (record { from = first; stop = Before end }) (λ m. i + m) (λ m. cell cells.now rows left (i + m)) (λ m. cell cells.now rows right (i + m)) (rows - i) }
{
    let other = logic::dual(e);
    let mut best = points::over_nothing(e);
    let mut run = carried;
    for j in first..end {
        let r = rows::cell_at(rows, cells, right, j);
        let l = rows::cell_at(rows, cells, left, j);
        best = points::extreme(e, best, points::extreme(other, r, run));
        run = points::extreme(other, run, l);
        if settled(e, best, run) {
            return best;
        }
    }
    best
}

// The operator at place i; `slid` is left's extremum before the window or, with no left operand, right's over it.
fn at_place(
    rows: usize,
    e: Extremum,
    cells: &[i64],
    left: Option<usize>,
    right: usize,
    i: usize,
    first: usize,
    end: usize,
    slid: i64,
) -> i64
    requires place_asks { PlaceAsks cells.now rows right i first end × LeftInside (length cells.now) rows left }
    requires bounded { Bounded cells.now rows right × (slid ≡ slid_at e cells.now rows left right i first end) }
    ensures { result ≡ along (margins TOP) e (record { from = first; stop = Before end }) (λ m. i + m) (λ m. left_at e cells.now rows left (i + m)) (λ m. cell cells.now rows right (i + m)) (rows - i) }
{
    match left {
        Some(operand) => bound_at(rows, e, cells, operand, right, i, first, end, slid),
        None => slid,
    }
}

// Of two places, the one for until and release, or the one for eventually and always.
fn if_left(left: Option<usize>, bound: usize, lone: usize) -> usize
    ensures { result ≡ if_left left bound lone }
{
    if left.is_some() { bound } else { lone }
}

// How what slides along is joined: left by the dual.
fn slid_extremum(left: Option<usize>, e: Extremum) -> Extremum
    ensures { result ≡ if_left left (dual e) e }
{
    if left.is_some() { logic::dual(e) } else { e }
}

// The row of until (the largest) or release, or without a left operand of eventually (the largest) or always.
pub fn temporal_row(
    times: &[u64],
    e: Extremum,
    window: Window,
    work: &mut [i64],
    left: Option<usize>,
    right: usize,
    row: usize,
)
    requires { TemporalAsks work.old times.now left right row }
    ensures { work.new ≡ fill (row * length times.now) (length times.now) (temporal_at Future e window (places times.now) (left_at e work.old (length times.now) left) (cell work.old (length times.now) right)) work.old }
{
    let rows = times.len();
    let base = row * rows;
    let begin = Stop::Before(window.from);
    let operand = left.unwrap_or(right);
    let by = slid_extremum(left, e);
    let mut extremum = sliding::start(by);
    let mut first = 0;
    let mut end = 0;
    for i in 0..rows {
        first = edge(times, i, first, begin);
        end = edge(times, i, end, window.stop);
        let low = if_left(left, i, first);
        let high = if_left(left, first, end);
        extremum = sliding::advanced(rows, by, work, operand, row, extremum, low, high);
        work[base + i] = at_place(rows, e, work, left, right, i, first, end, extremum.value);
    }
}
