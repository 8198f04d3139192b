// What refuses a watch at its making, and a row that is offered to it. Their sentences are listed in specs/Arrivals.
#![tactic(auto)]

ghost use Rattle.std.specs.Prelude.{◌≡◌, ◌≤◌, OnOk};
ghost use Rattle.refusals.specs.First.{first};
ghost use Rattle.refusals.specs.Number.{number_of};
ghost use Rattle.recordings.specs.Card.{Card};
ghost use Rattle.recordings.specs.Accepted.{LATEST, Values};
ghost use Rattle.arrivals.specs.Arrivals.{no_rows, making_checks, row_checks};
ghost use Rattle.arrivals.specs.Fits.{next_time, in_time};

use recordings::Setup;
use refusals::Refusal;
use tables::Table;

// The first of refusals 3, 4, 13 and 16 that applies.
pub fn making_refusal(table: Table, setup: Setup) -> Result<(), Refusal>
    ensures { number_of result ≡ first (making_checks (no_rows setup) table) }
{
    rules::table_refusal(table, setup)?;
    if !nesting::unnested(table) {
        return Err(Refusal::Nesting);
    }
    Ok(())
}

// Whether a row may come at a time, where none may before `next`.
fn in_time(next: u64, time: u64) -> bool
    ensures { result ≡ in_time next time }
{
    next <= time && time <= recordings::LATEST
}

// The first of refusals 5 to 7 that applies to a row. Of the rows before it, it is asked when the next one may come.
pub fn row_refusal(channels: u64, next: u64, time: u64, values: &[i64]) -> Result<(), Refusal>
    ensures number { (c : Card) → channels ≡ c.setup.channels → next ≡ next_time c → number_of result ≡ first (row_checks c (record { time = time; values = values.now })) }
    ensures early { OnOk result (time ≤ LATEST) }
    ensures values { OnOk result (Values values.now) }
{
    if values.len() as u64 != channels {
        return Err(Refusal::Samples);
    }
    if !in_time(next, time) {
        return Err(Refusal::Times);
    }
    if !rules::values_obey(values) {
        return Err(Refusal::Values);
    }
    Ok(())
}
