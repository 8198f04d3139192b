// One node's value at one place: the distance of a value from a range, a value or its negative, and the larger or the
// smaller of two, or over nothing.
#![tactic(auto)]

ghost use Rattle.std.specs.Prelude.{◌≡◌, ◌≤◌, neg_ℤ};
ghost use Rattle.std.specs.Int.{w64};
ghost use Rattle.std.proofs.Common.{SFits};
ghost use Rattle.logic.specs.Reading.{margin_extreme, margin_nothing};
ghost use Rattle.recordings.specs.Distance.{TOP, clearance, distance, scaled_distance};
ghost use Rattle.recordings.specs.Accepted.{MOST_SCALE, InRange, Ends};
ghost use Rattle.points.specs.Point.{signed};

use logic::Extremum;
use recordings::Range;

// No margin is further from zero than TOP.
pub const BOTTOM: i64 = -recordings::TOP;

// The larger of two, or the smaller.
pub fn extreme(e: Extremum, a: i64, b: i64) -> i64
    ensures { result ≡ margin_extreme e a b }
{
    match e {
        Extremum::Largest => numbers::larger(a, b),
        Extremum::Smallest => numbers::smaller(a, b),
    }
}

// The largest over nothing, or the smallest.
pub fn over_nothing(e: Extremum) -> i64
    ensures { result ≡ margin_nothing TOP e }
{
    match e {
        Extremum::Largest => BOTTOM,
        Extremum::Smallest => recordings::TOP,
    }
}

// How far b is from falling below a, counted from 1, or minus how far it is below.
fn clearance_of(a: i64, b: i64) -> i64
    requires { InRange a × InRange b }
    ensures { result ≡ clearance a b }
{
    let apart = numbers::difference(b, a);
    if numbers::at_most(a, b) {
        apart + 1
    } else {
        apart
    }
}

// The distance of a value from a range.
fn distance_of(range: Range, value: i64) -> i64
    requires { InRange value × Ends range }
    ensures { result ≡ distance TOP range value }
{
    match range {
        Range::Unset | Range::Free => recordings::TOP,
        Range::AtLeast(lo) => clearance_of(lo, value),
        Range::AtMost(hi) => clearance_of(value, hi),
        Range::Between(lo, hi) => numbers::smaller(
            clearance_of(lo, value),
            clearance_of(value, hi),
        ),
    }
}

// The same in the channel's unit: free alone stays at TOP.
pub fn scaled_distance(range: Range, scale: u64, value: i64) -> i64
    requires { InRange value × Ends range × (scale ≤ MOST_SCALE) }
    ensures { result ≡ scaled_distance TOP scale range value }
{
    if recordings::is_free(range) {
        return recordings::TOP;
    }
    numbers::product(scale as i64, distance_of(range, value))
}

// A value, or, where it is denied, its negative.
pub fn signed_of(affirmed: bool, a: i64) -> i64
    requires { SFits w64 (neg_ℤ a) }
    ensures { result ≡ signed affirmed a }
{
    if affirmed { a } else { numbers::negated(a) }
}
