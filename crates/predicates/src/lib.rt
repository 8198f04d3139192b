// Refusals 3 and 4: a table with the predicates that it names, and the predicates with their channels. Their sentences are in tables/specs/Rules, in specs/ and in recordings/specs/Accepted.
// Names are looked up in a table that obeys.
#![tactic(auto)]

ghost use Rattle.std.specs.Prelude.{◌≡◌, ◌≤◌};
ghost use Rattle.tables.specs.Tree.{NODES};
ghost use Rattle.predicates.specs.Predicates.{is_set, names_set, all_named, requirement_obeys, value_obeys, range_obeys, predicate_obeys, predicates_obey, channels_obey};

use recordings::{FARTHEST, MOST_CHANNELS, Predicate, Range};
use tables::{Node, Table};

fn is_set(range: Range) -> bool
    ensures { result ≡ is_set range }
{
    !recordings::is_unset(range)
}

// Whether the predicate that a node names, if it names one, is set.
#[tactic(auto, unfolding(crate::specs::Predicates::names_set))]
fn names_set(node: Node, predicates: &[Predicate; 16]) -> bool
    ensures { result ≡ names_set node predicates.now }
{
    node.kind != tables::PREDICATE || predicates.get(node.left).is_some_and(|p| is_set(p.range))
}

// Refusal 3, of a table and what it names. The walk stands here, because a table handed to one more function is copied.
pub fn requirement_obeys(table: Table, predicates: [Predicate; 16]) -> bool
    ensures { result ≡ requirement_obeys table predicates }
{
    tables::table_obeys(table) && (0..table.count).all(|k| names_set(table.nodes[k], &predicates))
}

#[tactic(auto, using(numbers::proofs::Bits::back_is), unfolding(crate::specs::Predicates::value_obeys))]
pub fn value_obeys(v: i64) -> bool
    ensures { result ≡ value_obeys v }
{
    (-FARTHEST <= v) & (v <= FARTHEST)
}

pub fn range_obeys(range: Range) -> bool
    ensures { result ≡ range_obeys range }
{
    match range {
        Range::Unset | Range::Free => true,
        Range::AtLeast(lo) => value_obeys(lo),
        Range::AtMost(hi) => value_obeys(hi),
        Range::Between(lo, hi) => value_obeys(lo) & value_obeys(hi) & (lo <= hi),
    }
}

#[tactic(auto, unfolding(crate::specs::Predicates::predicate_obeys))]
pub fn predicate_obeys(predicate: Predicate, channels: usize) -> bool
    ensures { result ≡ predicate_obeys predicate channels }
{
    (!is_set(predicate.range) | (predicate.channel < channels)) & range_obeys(predicate.range)
}

fn predicates_obey(predicates: [Predicate; 16], channels: usize) -> bool
    ensures { result ≡ predicates_obey predicates channels }
{
    predicates.iter().all(|p| predicate_obeys(*p, channels))
}

// Refusal 4.
#[tactic(auto, unfolding(crate::specs::Predicates::channels_obey))]
pub fn channels_obey(predicates: [Predicate; 16], channels: usize) -> bool
    ensures { result ≡ channels_obey predicates channels }
{
    (1 <= channels) & (channels <= MOST_CHANNELS) & predicates_obey(predicates, channels)
}
