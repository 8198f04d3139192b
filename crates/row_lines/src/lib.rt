// Reads the line of a row, `t= src= v0= v1=` and so on, and counts the rows of a text. Nothing is stored here.
#![tactic(auto)]

ghost use Rattle.std.specs.Prelude.{◌≡◌};
ghost use Rattle.row_lines.specs.Reading.{channels_in_range, value_at, values_from, end_of, rest_at, row_at, rows_of, counts};

use text::{Field, signed};

// The longest text that is read.
pub const LIMIT: usize = 65_536;

// What a measured row's line says: its time, the place of its values and that of the next line.
#[derive(Clone, Copy)]
pub struct MeasuredRow {
    pub time: u64,
    pub values: usize,
    pub next: usize,
}

// A row's line; of a filled row nothing but the place of the next line.
#[derive(Clone, Copy)]
pub enum RowLine {
    Measured(MeasuredRow),
    Filled(usize),
}

// How many rows are measured and how many are filled.
#[derive(Clone, Copy)]
pub struct Counts {
    pub rows: usize,
    pub filled: usize,
}

// Whether a sheet's channel count is one that a recording can have. Rows are read only then.
pub fn channels_in_range(channels: usize) -> bool
    ensures { result ≡ channels_in_range channels }
{
    1 <= channels && channels <= recordings::MOST_CHANNELS
}

// The value of a channel: ` v`, the channel's number, `=` and a signed number.
#[tactic(auto, unfolding(crate::specs::Reading::value_at))]
pub fn read_value(s: &[u8], at: usize, channel: usize) -> Field<i64>
    ensures { result ≡ value_at s.now at channel }
{
    let Field::Number(number, next) = text::read_field(s, at, b" v", text::LARGEST) else {
        return Field::Bad;
    };
    if number as usize != channel {
        return Field::Bad;
    }
    signed::read_field(s, next, b"=")
}

// The place after the values of all channels.
#[tactic(auto, using(std::proofs::lemmas::Grind::common_steps, crate::proofs::Steps::turns))]
fn read_values(s: &[u8], at: usize, channels: usize) -> Option<usize>
    ensures { result ≡ end_of (values_from channels 0 s.now at) }
{
    let mut next = at;
    for channel in 0..channels {
        let Field::Number(_, end) = read_value(s, next, channel) else {
            return None;
        };
        next = end;
    }
    Some(next)
}

// The place after a row's values and its line feed.
#[tactic(auto, unfolding(crate::specs::Reading::rest_at))]
fn read_rest(s: &[u8], at: usize, channels: usize) -> Option<usize>
    ensures { result ≡ rest_at s.now at channels }
{
    let end = read_values(s, at, channels)?;
    text::read_mark(s, end, b"\n")
}

// The row whose line begins at a place.
#[tactic(auto, unfolding(crate::specs::Reading::row_at))]
pub fn read_row(s: &[u8], at: usize, channels: usize) -> Option<RowLine>
    ensures { result ≡ row_at s.now at channels }
{
    let Field::Number(time, end) = text::read_field(s, at, b"t=", text::LARGEST) else {
        return None;
    };
    let source = text::read_mark(s, end, b" src=")?;
    if let Some(values) = text::read_mark(s, source, b"m") {
        let next = read_rest(s, values, channels)?;
        return Some(RowLine::Measured(MeasuredRow { time, values, next }));
    }
    let values = text::read_mark(s, source, b"f")?;
    let next = read_rest(s, values, channels)?;
    Some(RowLine::Filled(next))
}

// The counts of the rows of a text, all of which is read.
pub fn count_rows(s: &[u8], channels: usize) -> Option<Counts>
    ensures { result ≡ counts (rows_of channels s.now) }
{
    let mut at = 0;
    let mut rows = 0;
    let mut filled = 0;
    // Each row says where the next one begins, so no range counts the turns.
    while at < s.len() {
        match read_row(s, at, channels)? {
            RowLine::Measured(row) => {
                rows += 1;
                at = row.next;
            }
            RowLine::Filled(next) => {
                filled += 1;
                at = next;
            }
        }
    }
    Some(Counts { rows, filled })
}
