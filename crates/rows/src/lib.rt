// The cells of one node from the recording or from its children's cells. With `rows` places to a row, row r of the work slice owns the cells from
// r × rows on. A margin has one row for each node; a verdict has two.
// A row's length, the cells and a row's number are handed on one by one, also in sliding and temporal: promises are about the slice as it was lent and as it is
// given back, which a struct around it would hide.
#![tactic(auto)]

ghost use Rattle.std.specs.Prelude.{◌≡◌, ◌+◌, ◌*◌, ◌≤◌, ◌<◌, pos, length, get_or};
ghost use Rattle.lists.specs.Fill.{fill};
ghost use Rattle.logic.specs.declared.Extremum.TheVariants.{Smallest};
ghost use Rattle.logic.specs.Reading.{margin_extreme, margin_nothing};
ghost use Rattle.recordings.specs.Distance.{TOP, scaled_distance};
ghost use Rattle.points.specs.Point.{signed};
ghost use Rattle.rows.specs.Cells.{cell, Above, Bounded, Leaf};

use logic::Extremum;
use recordings::Predicate;

// The value of a row at place i.
pub fn cell_at(rows: usize, work: &[i64], row: usize, i: usize) -> i64
    requires { row * rows + i < length work.now }
    ensures { result ≡ cell work.now rows row i }
{
    work[row * rows + i]
}

// The first `rows` places of a part, all with one value.
pub fn fill_same(rows: usize, value: i64, part: &mut [i64])
    requires { rows ≤ length part.old }
    ensures { part.new ≡ fill 0 rows (λ i. value) part.old }
{
    part[..rows].fill(value);
}

// The row of true, or of its negation.
pub fn true_row(rows: usize, affirmed: bool, work: &mut [i64], row: usize)
    requires { row * rows + rows ≤ length work.old }
    ensures { work.new ≡ fill (row * rows) rows (λ i. signed affirmed (margin_nothing TOP Smallest)) work.old }
{
    let from = row * rows;
    let value = points::signed_of(affirmed, recordings::TOP);
    fill_same(rows, value, &mut work[from..]);
}

// The first `rows` places of a part, with a channel's distances from a range.
fn fill_distances(
    predicate: Predicate,
    scale: u64,
    channels: usize,
    values: &[i64],
    rows: usize,
    affirmed: bool,
    part: &mut [i64],
)
    requires rows_in_bounds { rows ≤ length part.old }
    requires leaf { Leaf values.now channels predicate scale rows }
    ensures { part.new ≡ fill 0 rows (λ i. signed affirmed (scaled_distance TOP scale predicate.range (get_or values.now (i * channels + predicate.channel) (pos 0)))) part.old }
{
    let channel = predicate.channel;
    let range = predicate.range;
    for i in 0..rows {
        let value = values[i * channels + channel];
        let far = points::scaled_distance(range, scale, value);
        part[i] = points::signed_of(affirmed, far);
    }
}

// The row of a predicate, or of its negation. Its parts come one by one: a whole recording would ask for its limits on channels and predicates too.
pub fn predicate_row(
    predicate: Predicate,
    scale: u64,
    channels: usize,
    values: &[i64],
    rows: usize,
    affirmed: bool,
    work: &mut [i64],
    row: usize,
)
    requires rows_in_bounds { row * rows + rows ≤ length work.old }
    requires leaf { Leaf values.now channels predicate scale rows }
    ensures { work.new ≡ fill (row * rows) rows (λ i. signed affirmed (scaled_distance TOP scale predicate.range (get_or values.now (i * channels + predicate.channel) (pos 0)))) work.old }
{
    let from = row * rows;
    fill_distances(
        predicate,
        scale,
        channels,
        values,
        rows,
        affirmed,
        &mut work[from..],
    );
}

// Another row's values, or minus them.
pub fn signed_row(rows: usize, affirmed: bool, work: &mut [i64], child: usize, row: usize)
    requires { Above work.old rows child row × Bounded work.old rows child }
    ensures { work.new ≡ fill (row * rows) rows (λ i. signed affirmed (cell work.old rows child i)) work.old }
{
    let base = row * rows;
    for i in 0..rows {
        work[base + i] = points::signed_of(affirmed, cell_at(rows, work, child, i));
    }
}

// The row of "or", or of "and".
pub fn joined_row(rows: usize, e: Extremum, work: &mut [i64], left: usize, right: usize, row: usize)
    requires { Above work.old rows left row × Above work.old rows right row }
    ensures { work.new ≡ fill (row * rows) rows (λ i. margin_extreme e (cell work.old rows left i) (cell work.old rows right i)) work.old }
{
    let base = row * rows;
    for i in 0..rows {
        work[base + i] = points::extreme(
            e,
            cell_at(rows, work, left, i),
            cell_at(rows, work, right, i),
        );
    }
}
