// Refusals 3, 4, 13 and 5 to 7: what a table, a setup and a recording are judged by before a margin is taken. Their sentences are listed in specs/Refusals.
#![tactic(auto)]

ghost use Rattle.std.specs.Prelude.{◌≡◌, [], ◌≤◌, length};
ghost use Rattle.refusals.specs.First.{first};
ghost use Rattle.refusals.specs.Number.{number_of};
ghost use Rattle.rules.specs.Recording.{samples_obey, lengths_obey, all_rising, all_early, times_obey, values_obey};
ghost use Rattle.rules.specs.Refusals.{table_checks, checks};
ghost use Rattle.recordings.specs.Card.{card, card_of, rows};
ghost use Rattle.recordings.specs.Accepted.{MOST_CHANNELS};

use recordings::{LATEST, MOST_ROWS, Recording, Setup};
use refusals::Refusal;
use tables::Table;

// `values` is the count of values.
#[tactic(auto, unfolding(crate::specs::Recording::samples_obey))]
fn samples_obey(channels: usize, rows: usize, values: usize) -> bool
    requires { channels ≤ MOST_CHANNELS }
    ensures { result ≡ samples_obey channels rows values }
{
    rows <= MOST_ROWS && 1 <= rows && values == rows * channels
}

// Refusal 5.
#[tactic(auto, unfolding(crate::specs::Recording::lengths_obey))]
fn lengths_obey(recording: &Recording) -> bool
    requires { recording.now.setup.channels ≤ MOST_CHANNELS }
    ensures { let c = card_of recording.now in result ≡ lengths_obey c.setup.scales.count c.setup.channels (rows c) (length c.values) }
{
    let setup = recording.setup;
    let (rows, values) = (recording.times.len(), recording.values.len());
    setup.scales.count == setup.channels && samples_obey(setup.channels, rows, values)
}

fn all_rising(times: &[u64]) -> bool
    ensures { result ≡ all_rising times.now }
{
    times.is_sorted_by(|earlier, later| earlier < later)
}

fn all_early(times: &[u64]) -> bool
    ensures { result ≡ all_early times.now }
{
    times.iter().all(|time| *time <= LATEST)
}

// Refusal 6.
#[tactic(auto, unfolding(crate::specs::Recording::times_obey))]
fn times_obey(times: &[u64]) -> bool
    ensures { result ≡ times_obey times.now }
{
    all_rising(times) && all_early(times)
}

pub fn values_obey(values: &[i64]) -> bool
    ensures { result ≡ values_obey values.now }
{
    values.iter().all(|value| predicates::value_obeys(*value))
}

// The first of refusals 3, 4 and 13 that applies.
#[tactic(auto, unfolding(refusals::specs::First::first))]
pub fn table_refusal(table: Table, setup: Setup) -> Result<(), Refusal>
    ensures { number_of result ≡ first (table_checks (card setup [] []) table) }
{
    if !predicates::requirement_obeys(table, setup.predicates) {
        return Err(Refusal::Table);
    }
    if !predicates::channels_obey(setup.predicates, setup.channels) {
        return Err(Refusal::Channels);
    }
    if !scales::scales_obey(setup.scales) {
        return Err(Refusal::Scales);
    }
    Ok(())
}

// The first of refusals 3, 4, 13 and 5 to 7 that applies.
pub fn refusal(table: Table, recording: &Recording) -> Result<(), Refusal>
    ensures { number_of result ≡ first (checks (card_of recording.now) table) }
{
    table_refusal(table, recording.setup)?;
    if !lengths_obey(recording) {
        return Err(Refusal::Samples);
    }
    if !times_obey(recording.times) {
        return Err(Refusal::Times);
    }
    if !values_obey(recording.values) {
        return Err(Refusal::Values);
    }
    Ok(())
}
