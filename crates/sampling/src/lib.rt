// Refusals 9 to 11: whether step and drift are in range, and whether neighbouring samples are near enough in time and in value. Their sentences are in recordings/specs/Accepted.
// Differences are compared; nothing is added to a time or a value.
#![tactic(auto)]

ghost use Rattle.std.specs.Prelude.{◌≡◌, suc, ◌-◌, ◌<◌, leb};
ghost use Rattle.refusals.specs.First.{first};
ghost use Rattle.refusals.specs.Number.{number_of};
ghost use Rattle.recordings.specs.Card.{card_of, rows, scale, value};
ghost use Rattle.recordings.specs.Accepted.{Recorded};
ghost use Rattle.sampling.specs.Sampling.{step_obeys, times_close, near, Comparable, channel_near, values_near, checks, Comparables};

use recordings::{LARGEST_DRIFT, LONGEST_STEP, Recording};
use refusals::Refusal;

#[tactic(auto, unfolding(crate::specs::Sampling::step_obeys))]
fn step_obeys(step: u64, drift: u64) -> bool
    ensures { result ≡ step_obeys step drift }
{
    1 <= step && step <= LONGEST_STEP && drift <= LARGEST_DRIFT
}

fn close(from: u64, to: u64, step: u64) -> bool
    ensures { result ≡ leb (to - from) step }
{
    to.saturating_sub(from) <= step
}

// Asked of each time and the next.
fn times_close(times: &[u64], step: u64) -> bool
    ensures { result ≡ times_close times.now step }
{
    times.is_sorted_by(|from, to| close(*from, *to, step))
}

#[tactic(auto, unfolding(crate::specs::Sampling::near))]
fn near(scale: u64, from: i64, to: i64, drift: u64) -> bool
    requires { Comparable scale from to drift }
    ensures { result ≡ near scale from to drift }
{
    let apart = numbers::magnitude(numbers::difference(to, from));
    scale * apart <= 2 * drift
}

// Whether the channel's value at sample i is near that at the next.
fn next_near(recording: &Recording, channel: usize, drift: u64, i: usize) -> bool
    requires comparable { Comparables (card_of recording.now) drift }
    requires known { channel < recording.now.setup.channels }
    requires followed { suc i < rows (card_of recording.now) }
    ensures { let c = card_of recording.now in result ≡ near (scale c channel) (value c channel i) (value c channel (suc i)) drift }
{
    let channels = recording.setup.channels;
    let from = recording.values[i * channels + channel];
    let to = recording.values[(i + 1) * channels + channel];
    near(recording.setup.scales.each[channel], from, to, drift)
}

fn channel_near(recording: &Recording, channel: usize, drift: u64) -> bool
    requires comparable { Comparables (card_of recording.now) drift }
    requires known { channel < recording.now.setup.channels }
    ensures { result ≡ channel_near (card_of recording.now) channel drift }
{
    let gaps = recording.times.len() - 1;
    (0..gaps).all(|i| next_near(recording, channel, drift, i))
}

fn values_near(recording: &Recording, drift: u64) -> bool
    requires { Comparables (card_of recording.now) drift }
    ensures { result ≡ values_near (card_of recording.now) drift }
{
    (0..recording.setup.channels).all(|channel| channel_near(recording, channel, drift))
}

// The first of refusals 9 to 11 that applies.
#[tactic(auto, unfolding(refusals::specs::First::first))]
pub fn refusal(recording: &Recording, step: u64, drift: u64) -> Result<(), Refusal>
    requires { Recorded (card_of recording.now) }
    ensures { number_of result ≡ first (checks (card_of recording.now) step drift) }
{
    if !step_obeys(step, drift) {
        return Err(Refusal::Step);
    }
    if !times_close(recording.times, step) {
        return Err(Refusal::Gap);
    }
    if !values_near(recording, drift) {
        return Err(Refusal::Jump);
    }
    Ok(())
}
