// The sheet reader: the head, `req=` lines, then rows, which are judged here and read by the row reader.
// It judges the whole text, so that 1 comes before 12; each part's reader answers the place of the next line.
#![tactic(auto)]

ghost use Rattle.std.specs.Prelude.{◌≡◌, ◌≤◌, length};
ghost use Rattle.sheets.specs.Form.{outcome};
ghost use Rattle.sheets.specs.Sheets.{rows_kept, sheet_of};

use heads::Head;
use refusals::Refusal;
use requirement_lines::Place;

// What a sheet says: its head, its requirements, the k-th in the bytes of place k, and where its rows begin.
#[derive(Clone, Copy)]
pub struct Sheet {
    pub head: Head,
    pub count: usize,
    pub requirements: [Place; requirement_lines::MOST],
    pub rows: usize,
}

// Whether the lines from a place on are rows. Where the channel count is out of range they are unread.
fn keeps_rows(s: &[u8], at: usize, channels: usize) -> bool
    requires { at ≤ length s.now }
    ensures { result ≡ rows_kept s.now at channels }
{
    !row_lines::channels_in_range(channels) || row_lines::count_rows(&s[at..], channels).is_some()
}

// Reads a sheet. Its requirements' count is judged last, for a text that is written as a sheet.
pub fn read_sheet(s: &[u8]) -> Result<Sheet, Refusal>
    ensures { outcome result ≡ sheet_of s.now }
{
    if row_lines::LIMIT < s.len() {
        return Err(Refusal::Sheet);
    }
    let head = heads::read_head(s).ok_or(Refusal::Sheet)?;
    let found = requirement_lines::read_requirements(s, head.next).ok_or(Refusal::Sheet)?;
    let count = found.value.count;
    if count < 1 || !keeps_rows(s, found.next, head.value.setup.channels) {
        return Err(Refusal::Sheet);
    }
    if requirement_lines::MOST < count {
        return Err(Refusal::Requirements);
    }
    let requirements = found.value.places;
    Ok(Sheet {
        head: head.value,
        count,
        requirements,
        rows: found.next,
    })
}
