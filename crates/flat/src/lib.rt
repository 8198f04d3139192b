// Tables, predicates, scales and places as flat numbers in slices of any length, for callers that have no types of ours. Nothing is asked of a slice: a place that it doesn't have
// reads as 0 and is not written.
#![tactic(auto)]

ghost use Rattle.std.specs.Prelude.{◌≡◌, ◌<◌, pos, get_or, [], ◌∷◌};
ghost use Rattle.lists.specs.Front.{written};
ghost use Rattle.flat.specs.Tables.{table_from};
ghost use Rattle.flat.specs.Places.{places_of};
ghost use Rattle.flat.specs.Predicates.{range_number, lo_of, hi_of, parts_of, ranges_of, ends_of, range_from, predicate_from, predicates_from};
ghost use Rattle.flat.specs.Scales.{scales_from, setup_from};

use building::CELLS;
use recordings::{MOST_CHANNELS, Predicate, Range, Scales, Setup};
use requirement_lines::Place;
use tables::Table;

// The table of nodes' numbers. A slice that is too short for all of a table's is copied over zeros first.
pub fn table_from(numbers: &[u64], count: u64) -> Table
    ensures { result ≡ table_from numbers.now count }
{
    if CELLS <= numbers.len() {
        return building::table_from(numbers, count as usize);
    }
    let mut padded = [0u64; CELLS];
    lists::write_front(numbers, &mut padded);
    building::table_from(&padded, count as usize)
}

// A number that no range has is unset.
pub fn range_from(number: u64, lo: i64, hi: i64) -> Range
    ensures { result ≡ range_from number lo hi }
{
    match number {
        1 => Range::Free,
        2 => Range::AtLeast(lo),
        3 => Range::AtMost(hi),
        4 => Range::Between(lo, hi),
        _ => Range::Unset,
    }
}

fn predicate_from(ranges: &[u64], ends: &[i64], p: usize) -> Predicate
    requires { p < 16 }
    ensures { result ≡ predicate_from ranges.now ends.now p }
{
    let number_at = |at: usize| ranges.get(at).copied().unwrap_or(0);
    let end_at = |at: usize| ends.get(at).copied().unwrap_or(0);
    Predicate {
        channel: number_at(2 * p + 1) as usize,
        range: range_from(number_at(2 * p), end_at(2 * p), end_at(2 * p + 1)),
    }
}

// The predicates of two numbers for each in one slice and two in another.
pub fn predicates_from(ranges: &[u64], ends: &[i64]) -> [Predicate; 16]
    ensures { result ≡ predicates_from ranges.now ends.now }
{
    let mut predicates = predicate_lines::unset_predicates();
    for p in 0..16usize {
        predicates[p] = predicate_from(ranges, ends, p);
    }
    predicates
}

// The first eight scales of a slice; one of all that is out of range makes them 0, so that it is judged.
pub fn scales_from(scales: &[u64]) -> Scales
    ensures { result ≡ scales_from scales.now }
{
    let mut each = [0u64; MOST_CHANNELS];
    if scales.iter().all(|x| scales::scale_obeys(*x)) {
        lists::write_front(scales, &mut each);
    }
    Scales {
        count: scales.len(),
        each,
    }
}

// The setup of flat numbers.
pub fn setup_from(ranges: &[u64], ends: &[i64], channels: u64, scales: &[u64]) -> Setup
    ensures { result ≡ setup_from ranges.now ends.now channels scales.now }
{
    Setup {
        channels: channels as usize,
        scales: scales_from(scales),
        predicates: predicates_from(ranges, ends),
    }
}

// A range's number, and its ends, 0 where it has no such end.
#[derive(Clone, Copy)]
struct Parts {
    number: u64,
    lo: i64,
    hi: i64,
}

fn parts_of(range: Range) -> Parts
    ensures { result ≡ parts_of range }
{
    let (number, lo, hi) = match range {
        Range::Unset => (0, 0, 0),
        Range::Free => (1, 0, 0),
        Range::AtLeast(lo) => (2, lo, 0),
        Range::AtMost(hi) => (3, 0, hi),
        Range::Between(lo, hi) => (4, lo, hi),
    };
    Parts { number, lo, hi }
}

// Each requirement's first place, and the place behind its last.
pub fn places_of(places: [Place; 16]) -> [u64; 32]
    ensures { result ≡ places_of places }
{
    let pairs = places.map(
        |place|
            ensures { result ≡ place.from ∷ place.to ∷ [] }
        { [place.from as u64, place.to as u64] },
    );
    let mut numbers = [0u64; 32];
    numbers.copy_from_slice(pairs.as_flattened());
    numbers
}

// Writes all eight scales into a slice.
pub fn write_scales(scales: Scales, out: &mut [u64])
    ensures { out.new ≡ written scales.each out.old }
{
    lists::write_front(&scales.each, out);
}

// Writes predicates into two slices.
pub fn write_predicates(predicates: [Predicate; 16], ranges: &mut [u64], ends: &mut [i64])
    ensures ranges { ranges.new ≡ written (ranges_of predicates) ranges.old }
    ensures ends { ends.new ≡ written (ends_of predicates) ends.old }
{
    let numbers = predicates.map(
        |predicate|
            ensures { result ≡ range_number predicate.range ∷ predicate.channel ∷ [] }
        { [parts_of(predicate.range).number, predicate.channel as u64] },
    );
    lists::write_front(numbers.as_flattened(), ranges);
    let values = predicates.map(
        |predicate|
            ensures { result ≡ lo_of predicate.range ∷ hi_of predicate.range ∷ [] }
        {
            let parts = parts_of(predicate.range);
            [parts.lo, parts.hi]
        },
    );
    lists::write_front(values.as_flattened(), ends);
}
