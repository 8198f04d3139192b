// The distance of a value from a predicate in its channel's unit, for callers that have neither a card nor a requirement. It asks nothing of them.
#![tactic(auto)]

ghost use Rattle.std.specs.Prelude.{◌≡◌};
ghost use Rattle.distances.specs.Answers.{distance_outcome, distance_judged};

use recordings::Predicate;
use refusals::Refusal;

// The distance, or the first refusal that applies. A predicate is refused that no card could have, whatever its channels. An unset one reads as free, as elsewhere.
#[tactic(auto, unfolding(refusals::specs::First::first, crate::specs::Answers::distance_judged))]
pub fn distance(predicate: Predicate, scale: u64, value: i64) -> Result<i64, Refusal>
    ensures { distance_outcome result ≡ distance_judged predicate scale value }
{
    if !predicates::predicate_obeys(predicate, recordings::MOST_CHANNELS) {
        return Err(Refusal::Channels);
    }
    if !scales::scale_obeys(scale) {
        return Err(Refusal::Scales);
    }
    if !predicates::value_obeys(value) {
        return Err(Refusal::Values);
    }
    Ok(points::scaled_distance(predicate.range, scale, value))
}
