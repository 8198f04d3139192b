// The library for C and Rust: every function takes and hands back flat numbers and slices, and the number of the refusal, 0 for none; `varmityep_answer` prints it. Nothing is asked of a caller
// but that each slice is a pointer and a length that belong together. include/varmityep.h has the declarations in C.
#![tactic(auto)]

ghost use Rattle.std.specs.Prelude.{◌≡◌, [], ◌∷◌, ◌≤◌, length, pos};
ghost use Rattle.building.specs.Storing.{cells_of};
ghost use Rattle.flat.specs.Tables.{table_from};
ghost use Rattle.flat.specs.Predicates.{ranges_of, ends_of};
ghost use Rattle.flat.specs.Places.{places_of};
ghost use Rattle.sheets.specs.Sheets.{sheet_of};
ghost use Rattle.requirements.specs.Requirement.{requirement_of};
ghost use Rattle.writing.specs.Written.{written_of, text_slice};
ghost use Rattle.row_lines.specs.Reading.{rows_of};
ghost use Rattle.refusals.specs.First.{unless_refused};
ghost use Rattle.refusals.specs.Number.{number_of};
ghost use Rattle.lists.specs.Front.{in_front, written};
ghost use Rattle.sheet_rows.specs.Answer.{answer_of, times_of, values_of};
ghost use Rattle.distances.specs.Answers.{distance_outcome, distance_judged};
ghost use Rattle.margins.specs.Answers.{margin_outcome, margin_judged, margin_cells};
ghost use Rattle.verdicts.specs.Answer.{verdict_outcome, verdict_judged, verdict_cells};
ghost use Rattle.answers.specs.Answers.{answers_of};
ghost use Rattle.outcome_lines.specs.Printed.{LINES, lines_of};
ghost use Rattle.recordings.specs.Card.{Card};
ghost use Rattle.tables.specs.declared.Table.{Table};
ghost use Rattle.refusals.specs.First.{first};
ghost use Rattle.arrivals.specs.Arrivals.{no_rows, margin_so_far};
ghost use Rattle.watch_cells.specs.State.{NUMBERS, CELLS};
ghost use Rattle.watches.specs.Watches.{Roomy, lent_checks, SameBehind};
ghost use Rattle.watches.specs.Run.{lent, Watching, Took};
ghost use Rattle.varmityep.specs.Places.{watch_setup_from, sheet_numbers, row_places, card_from, predicate_of, handed, answer_handed, distance_handed, margin_handed, verdict_number, verdict_handed};

use recordings::{Predicate, Recording, Verdict};
use refusals::Refusal;
use writing::Written;

// The printed lines of the answers to a whole text, and their length.
#[unsafe(no_mangle)]
pub extern "C" fn varmityep_answer(text: &[u8], lines: &mut [u8]) -> usize
    ensures length { result ≡ length (lines_of (answers_of text.now)) }
    ensures room { result ≤ LINES }
    ensures lines { lines.new ≡ written (lines_of (answers_of text.now)) lines.old }
{
    let printed = answers::printed_answers(text);
    let whole = printed.as_slice();
    lists::write_front(whole, lines);
    whole.len()
}

// A sheet without its rows. Like every function below, it writes nothing under a refusal.
#[unsafe(no_mangle)]
pub extern "C" fn varmityep_sheet(
    text: &[u8],
    numbers: &mut [u64],
    places: &mut [u64],
    scales: &mut [u64],
    ranges: &mut [u64],
    ends: &mut [i64],
) -> u64
    ensures number { result ≡ (sheet_of text.now).number }
    ensures numbers { numbers.new ≡ handed (sheet_of text.now).number (sheet_numbers (sheet_of text.now)) numbers.old }
    ensures places { places.new ≡ handed (sheet_of text.now).number (places_of (sheet_of text.now).requirements) places.old }
    ensures scales { scales.new ≡ handed (sheet_of text.now).number (sheet_of text.now).head.setup.scales.each scales.old }
    ensures ranges { ranges.new ≡ handed (sheet_of text.now).number (ranges_of (sheet_of text.now).head.setup.predicates) ranges.old }
    ensures ends { ends.new ≡ handed (sheet_of text.now).number (ends_of (sheet_of text.now).head.setup.predicates) ends.old }
{
    let sheet = match sheets::read_sheet(text) {
        Ok(sheet) => sheet,
        Err(refusal) => return u64::from(refusal),
    };
    let head = sheet.head;
    let contents = [
        head.setup.channels as u64,
        head.step,
        head.drift,
        sheet.rows as u64,
        sheet.count as u64,
    ];
    lists::write_front(&contents, numbers);
    lists::write_front(&flat::places_of(sheet.requirements), places);
    flat::write_scales(head.setup.scales, scales);
    flat::write_predicates(head.setup.predicates, ranges, ends);
    0
}

// The table of a requirement text.
#[unsafe(no_mangle)]
pub extern "C" fn varmityep_requirement(text: &[u8], nodes: &mut [u64], count: &mut [u64]) -> u64
    ensures number { result ≡ (requirement_of text.now).refusal }
    ensures nodes { nodes.new ≡ handed (requirement_of text.now).refusal (cells_of (requirement_of text.now).table.nodes) nodes.old }
    ensures count { count.new ≡ handed (requirement_of text.now).refusal ((requirement_of text.now).table.count ∷ []) count.old }
{
    let mut cells = [0u64; building::CELLS];
    match requirements::read_numbers(text, &mut cells) {
        Ok(read) => {
            lists::write_front(&cells, nodes);
            lists::write_front(&[read as u64], count);
            0
        }
        Err(refusal) => u64::from(refusal),
    }
}

// The text of a table, and its length.
#[unsafe(no_mangle)]
pub extern "C" fn varmityep_write(nodes: &[u64], count: u64, text: &mut [u8]) -> Written
    ensures answer { result ≡ written_of (table_from nodes.now count) (length text.old) }
    ensures text { text.new ≡ text_slice (table_from nodes.now count) text.old }
{
    let mut cells = [0u64; building::CELLS];
    lists::write_front(nodes, &mut cells);
    let table = building::table_from(&cells, count as usize);
    Written::from(writing::write_numbered(&cells, table, text))
}

// The measured rows of a text, and the counts of measured and filled rows.
#[unsafe(no_mangle)]
pub extern "C" fn varmityep_rows(
    text: &[u8],
    channels: u64,
    times: &mut [u64],
    values: &mut [i64],
    counts: &mut [u64],
) -> u64
    ensures number { result ≡ (answer_of text.now channels (length times.old) (length values.old)).number }
    ensures times { times.new ≡ unless_refused result (in_front (times_of (rows_of channels text.now)) times.old) times.old }
    ensures values { values.new ≡ unless_refused result (in_front (values_of (rows_of channels text.now)) values.old) values.old }
    ensures counts { counts.new ≡ handed result (row_places (answer_of text.now channels (length times.old) (length values.old))) counts.old }
{
    match sheet_rows::read_rows(text, channels as usize, times, values) {
        Ok(read) => {
            lists::write_front(&[read.rows as u64, read.filled as u64], counts);
            0
        }
        Err(refusal) => u64::from(refusal),
    }
}

// Hands over a function's places with number 0, or the number of a refusal, under which the slice keeps what it holds.
fn hand<const N: usize>(answer: Result<[i64; N], Refusal>, res: &mut [i64]) -> u64
    ensures number { result ≡ number_of answer.entry }
    ensures res { res.new ≡ answer_handed answer.entry res.old }
{
    match answer {
        Ok(places) => {
            lists::write_front(&places, res);
            0
        }
        Err(refused) => u64::from(refused),
    }
}

// The distance of a value from one predicate.
#[unsafe(no_mangle)]
pub extern "C" fn varmityep_distance(
    range: u64,
    channel: u64,
    lo: i64,
    hi: i64,
    scale: u64,
    value: i64,
    res: &mut [i64],
) -> u64
    ensures number { result ≡ (distance_judged (predicate_of range channel lo hi) scale value).number }
    ensures res { res.new ≡ distance_handed (distance_judged (predicate_of range channel lo hi) scale value) res.old }
{
    let predicate = Predicate {
        channel: channel as usize,
        range: flat::range_from(range, lo, hi),
    };
    let distance = distances::distance(predicate, scale, value);
    hand(
        distance.map(
            |d|
                ensures { result ≡ d ∷ [] }
            { [d] },
        ),
        res,
    )
}

// The margin of a table over a recording, and in `work` the cells of every node.
#[unsafe(no_mangle)]
pub extern "C" fn varmityep_margin(
    nodes: &[u64],
    count: u64,
    ranges: &[u64],
    ends: &[i64],
    channels: u64,
    scales: &[u64],
    times: &[u64],
    values: &[i64],
    work: &mut [i64],
    res: &mut [i64],
) -> u64
    ensures number { result ≡ (margin_judged (card_from ranges.now ends.now channels scales.now times.now values.now) (table_from nodes.now count) (length work.old)).number }
    ensures work { work.new ≡ margin_cells (card_from ranges.now ends.now channels scales.now times.now values.now) (table_from nodes.now count) work.old }
    ensures res { res.new ≡ margin_handed (margin_judged (card_from ranges.now ends.now channels scales.now times.now values.now) (table_from nodes.now count) (length work.old)) res.old }
{
    let table = flat::table_from(nodes, count);
    let recording = Recording {
        setup: flat::setup_from(ranges, ends, channels, scales),
        times,
        values,
    };
    let margin = margins::margin(table, &recording, work);
    hand(
        margin.map(
            |m|
                ensures { result ≡ m ∷ [] }
            { [m] },
        ),
        res,
    )
}

fn verdict_number(verdict: Verdict) -> i64
    ensures { result ≡ verdict_number verdict }
{
    match verdict {
        Verdict::NotShown => 0,
        Verdict::Holds => 1,
        Verdict::Fails => 2,
    }
}

// The verdict on a recording, hold and fail, and in `work` two rows of cells for every node.
#[unsafe(no_mangle)]
pub extern "C" fn varmityep_verdict(
    nodes: &[u64],
    count: u64,
    ranges: &[u64],
    ends: &[i64],
    channels: u64,
    scales: &[u64],
    times: &[u64],
    values: &[i64],
    step: u64,
    drift: u64,
    work: &mut [i64],
    res: &mut [i64],
) -> u64
    ensures number { result ≡ (verdict_judged (card_from ranges.now ends.now channels scales.now times.now values.now) (table_from nodes.now count) step drift (length work.old)).number }
    ensures work { work.new ≡ verdict_cells (card_from ranges.now ends.now channels scales.now times.now values.now) (table_from nodes.now count) step drift work.old }
    ensures res { res.new ≡ verdict_handed (verdict_judged (card_from ranges.now ends.now channels scales.now times.now values.now) (table_from nodes.now count) step drift (length work.old)) res.old }
{
    let table = flat::table_from(nodes, count);
    let recording = Recording {
        setup: flat::setup_from(ranges, ends, channels, scales),
        times,
        values,
    };
    let judged = verdicts::verdict(table, &recording, step, drift, work);
    hand(
        judged.map(
            |j|
                ensures { result ≡ verdict_number j.verdict ∷ j.hold ∷ j.fail ∷ [] }
            { [verdict_number(j.verdict), j.hold, j.fail] },
        ),
        res,
    )
}

// A fresh watch in two slices of VARMITYEP_WATCH_NUMBERS numbers and VARMITYEP_WATCH_CELLS cells; the count of scales is its channel count. A refused making leaves a watch that gives
// its number to every later call; slices too short for a watch are left as they are.
#[unsafe(no_mangle)]
pub extern "C" fn varmityep_watch_fresh(
    nodes: &[u64],
    count: u64,
    ranges: &[u64],
    ends: &[i64],
    scales: &[u64],
    numbers: &mut [u64],
    cells: &mut [i64],
) -> u64
    ensures number { result ≡ first (lent_checks (watch_setup_from ranges.now ends.now scales.now) (table_from nodes.now count) (length numbers.old) (length cells.old)) }
    ensures watch { Roomy (length numbers.old) (length cells.old) → Watching (lent numbers.new cells.new) (table_from nodes.now count) (no_rows (watch_setup_from ranges.now ends.now scales.now)) }
    ensures short { (Roomy (length numbers.old) (length cells.old) → ⊥) → (numbers.new ≡ numbers.old) × (cells.new ≡ cells.old) }
    ensures behind { SameBehind NUMBERS 0 numbers.old numbers.new × SameBehind CELLS (pos 0) cells.old cells.new }
{
    let made = watches::make(
        flat::table_from(nodes, count),
        flat::predicates_from(ranges, ends),
        flat::scales_from(scales),
        numbers,
        cells,
    );
    watches::number_of(made)
}

// One row more for a watch. A refused one leaves it as it is.
#[unsafe(no_mangle)]
pub extern "C" fn varmityep_watch_row(
    numbers: &mut [u64],
    cells: &mut [i64],
    time: u64,
    values: &[i64],
) -> u64
    ensures row { Took (lent numbers.old cells.old) (record { time = time; values = values.now }) (record { number = result; watch = lent numbers.new cells.new }) }
    ensures short { (Roomy (length numbers.old) (length cells.old) → ⊥) → result ≡ 8 }
    ensures behind { SameBehind NUMBERS 0 numbers.old numbers.new × SameBehind CELLS (pos 0) cells.old cells.new }
{
    watches::take(numbers, cells, time, values)
        .err()
        .unwrap_or(0)
}

// The margin of the rows that a watch has accepted.
#[unsafe(no_mangle)]
pub extern "C" fn varmityep_watch_margin(numbers: &[u64], cells: &[i64], res: &mut [i64]) -> u64
    ensures number { (t : Table) (c : Card) → Watching (lent numbers.now cells.now) t c → result ≡ (margin_so_far c t).number }
    ensures res { (t : Table) (c : Card) → Watching (lent numbers.now cells.now) t c → res.new ≡ margin_handed (margin_so_far c t) res.old }
    ensures refused { (result ≡ 0 → ⊥) → res.new ≡ res.old }
    ensures short { (Roomy (length numbers.now) (length cells.now) → ⊥) → result ≡ 8 }
{
    match watches::tell(numbers, cells) {
        Ok(margin) => {
            lists::write_front(&[margin], res);
            0
        }
        Err(number) => number,
    }
}
