// The sliding extremum: that of a row over the places between two ends that only move forward. This is sliding-window aggregation by two stacks, kept in place: it
// takes one pass, whatever lies between the ends, and no memory but the row that is being filled, whose places from the low end on have no final value yet.
#![tactic(auto)]

ghost use Rattle.std.specs.Prelude.{◌≡◌, ◌+◌, ◌*◌, ◌-◌, ◌≤◌, length};
ghost use Rattle.lists.specs.Fold.{fold};
ghost use Rattle.logic.specs.Reading.{margin_extreme};
ghost use Rattle.rows.specs.Cells.{cell, Above};
ghost use Rattle.sliding.specs.Run.{over, at_start, sliding_over, next_cut, suffixed};
ghost use Rattle.sliding.specs.Asks.{AdvanceAsks};

use logic::Extremum;

// The run of places between the ends is parted at `cut`. In the row that is being filled, each place of the run before `cut` holds the extremum from itself up to
// `cut`; `tail` is the one from `cut` up to `high`, and `value` that over the whole run.
#[derive(Clone, Copy)]
pub struct SlidingExtremum {
    pub cut: usize,
    pub high: usize,
    pub tail: i64,
    pub value: i64,
}

// Before the first place.
pub fn start(e: Extremum) -> SlidingExtremum
    ensures { result ≡ at_start e }
{
    let nothing = points::over_nothing(e);
    SlidingExtremum {
        cut: 0,
        high: 0,
        tail: nothing,
        value: nothing,
    }
}

// `tail` joined with a row's values at the places from `from` up to, not including, `high`.
fn joined_on(
    rows: usize,
    e: Extremum,
    cells: &[i64],
    source: usize,
    tail: i64,
    from: usize,
    high: usize,
) -> i64
    requires { source * rows + high ≤ length cells.now }
    ensures { result ≡ fold (margin_extreme e) tail (λ m. cell cells.now rows source (from + m)) (high - from) }
{
    let mut joined = tail;
    for j in from..high {
        joined = points::extreme(e, joined, rows::cell_at(rows, cells, source, j));
    }
    joined
}

// From the last place down, each place from `low` up to `high` gets the extremum from itself up to `high`. The one from `low` on is returned.
fn fill_suffixes(
    rows: usize,
    e: Extremum,
    work: &mut [i64],
    source: usize,
    row: usize,
    low: usize,
    high: usize,
) -> i64
    requires { Above work.old rows source row × (high ≤ rows) }
    ensures value { result ≡ over e (cell work.old rows source) low high }
    ensures work_after { work.new ≡ suffixed e (cell work.old rows source) (row * rows) low high work.old }
{
    let base = row * rows;
    let mut suffix = points::over_nothing(e);
    for j in (low..high).rev() {
        suffix = points::extreme(e, suffix, rows::cell_at(rows, work, source, j));
        work[base + j] = suffix;
    }
    suffix
}

// The ends move on to `low` and `high`. Where `low` has come to `cut`, the places up to `high` get their extrema: so each place gets one at most once.
pub fn advanced(
    rows: usize,
    e: Extremum,
    work: &mut [i64],
    source: usize,
    row: usize,
    s: SlidingExtremum,
    low: usize,
    high: usize,
) -> SlidingExtremum
    requires { AdvanceAsks work.old rows source row e s low high }
    ensures value { result ≡ sliding_over e (cell work.old rows source) low (next_cut s.cut low high) high }
    ensures work_after { work.new ≡ suffixed e (cell work.old rows source) (row * rows) low (next_cut s.cut low high) work.old }
{
    if low < s.cut {
        let tail = joined_on(rows, e, work, source, s.tail, s.high, high);
        let value = points::extreme(e, rows::cell_at(rows, work, row, low), tail);
        return SlidingExtremum {
            high,
            tail,
            value,
            ..s
        };
    }
    let value = fill_suffixes(rows, e, work, source, row, low, high);
    SlidingExtremum {
        cut: high,
        high,
        tail: points::over_nothing(e),
        value,
    }
}
