// The row reader: the measured rows of a sheet's part behind its head, into lent slices. It checks and counts the whole part first and stores only what fits, so that
// nothing is stored under a refusal.
#![tactic(auto)]

ghost use Rattle.std.specs.Prelude.{◌≡◌, ◌≤◌, length};
ghost use Rattle.std.proofs.lemmas.List.Edits.{sets};
ghost use Rattle.recordings.specs.Accepted.{MOST_CHANNELS};
ghost use Rattle.refusals.specs.First.{unless_refused};
ghost use Rattle.refusals.specs.Number.{number_of};
ghost use Rattle.row_lines.specs.Reading.{values_from, all_of, rows_of};
ghost use Rattle.sheet_rows.specs.Answer.{has_room, outcome, answer_of, times_of, values_of};
ghost use Rattle.lists.specs.Front.{in_front};
ghost use Rattle.sheet_rows.specs.Room.{Storable, Fitting};

use refusals::Refusal;
use row_lines::{Counts, RowLine};
use text::Field;

// Whether measured rows exceed neither a recording nor the slices.
fn has_room(rows: usize, channels: usize, times: usize, values: usize) -> bool
    requires { channels ≤ MOST_CHANNELS }
    ensures { result ≡ has_room rows channels times values }
{
    rows <= recordings::MOST_ROWS && rows <= times && rows * channels <= values
}

// Stores the values of a measured row from a place of the slice on.
fn store_values(s: &[u8], at: usize, channels: usize, values: &mut [i64], place: usize)
    requires { Storable s.now at channels place (length values.old) }
    ensures { values.new ≡ sets values.old place (all_of (values_from channels 0 s.now at)) }
{
    let mut next = at;
    for channel in 0..channels {
        let Field::Number(value, end) = row_lines::read_value(s, next, channel) else {
            return;
        };
        values[place + channel] = value;
        next = end;
    }
}

// Stores the measured rows of a text that was counted and fits, in sheet order.
fn store_rows(s: &[u8], channels: usize, times: &mut [u64], values: &mut [i64])
    requires { Fitting s.now channels (length times.old) (length values.old) }
    ensures times { times.new ≡ in_front (times_of (rows_of channels s.now)) times.old }
    ensures values { values.new ≡ in_front (values_of (rows_of channels s.now)) values.old }
{
    let mut at = 0;
    let mut rows = 0;
    // Each row says where the next one begins, so no range counts the turns.
    while at < s.len() {
        let Some(line) = row_lines::read_row(s, at, channels) else {
            return;
        };
        match line {
            RowLine::Measured(row) => {
                times[rows] = row.time;
                store_values(s, row.values, channels, values, rows * channels);
                rows += 1;
                at = row.next;
            }
            RowLine::Filled(next) => at = next,
        }
    }
}

// Reads the rows of a text, all of it. Times and values are stored from the slices' front on; places beyond the measured rows keep their contents.
pub fn read_rows(
    s: &[u8],
    channels: usize,
    times: &mut [u64],
    values: &mut [i64],
) -> Result<Counts, Refusal>
    ensures answer { outcome result ≡ answer_of s.now channels (length times.old) (length values.old) }
    ensures times { times.new ≡ unless_refused (number_of result) (in_front (times_of (rows_of channels s.now)) times.old) times.old }
    ensures values { values.new ≡ unless_refused (number_of result) (in_front (values_of (rows_of channels s.now)) values.old) values.old }
{
    if row_lines::LIMIT < s.len() {
        return Err(Refusal::Sheet);
    }
    if !row_lines::channels_in_range(channels) {
        return Err(Refusal::Channels);
    }
    let counts = row_lines::count_rows(s, channels).ok_or(Refusal::Sheet)?;
    if !has_room(counts.rows, channels, times.len(), values.len()) {
        return Err(Refusal::Samples);
    }
    store_rows(s, channels, times, values);
    Ok(counts)
}
