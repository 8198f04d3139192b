// The answers to a whole text, one for each requirement, and the lines that are printed for it. Times, values and cells are arrays of its own, so that nothing lent changes.
#![tactic(auto)]

ghost use Rattle.std.specs.Prelude.{◌≡◌, ◌≤◌, ◌<◌, length, map};
ghost use Rattle.recordings.specs.Card.{card_of};
ghost use Rattle.verdicts.specs.Answer.{verdict_refusal};
ghost use Rattle.outcomes.specs.Outcome.{outcome_of, text_outcome_of};
ghost use Rattle.printing.specs.Output.{blank, output, printed};
ghost use Rattle.outcome_lines.specs.Printed.{LINES, lines_of};
ghost use Rattle.sheet_rows.specs.Answer.{outcome as rows_outcome};
ghost use Rattle.sheets.specs.Form.{outcome as sheet_outcome};
ghost use Rattle.answers.specs.Answers.{CELLS, listing, requirement_part, answered, answer_for, entries, answers_of, Placed, Stored};

use outcomes::{Figures, OutcomeList};
use printing::Output;
use recordings::Recording;
use refusals::Refusal;
use row_lines::Counts;
use sheets::Sheet;
use tables::Table;

// The figures of a table over measured rows.
fn judge(
    table: Table,
    recording: &Recording,
    step: u64,
    drift: u64,
    filled: usize,
) -> Result<Figures, Refusal>
    ensures { outcome_of result ≡ answered (verdict_refusal (card_of recording.now) table step drift CELLS) (card_of recording.now) table step drift filled }
{
    let mut work = [0i64; 8192];
    let judged = verdicts::verdict(table, recording, step, drift, &mut work)?;
    let margin = margins::margin(table, recording, &mut work)?;
    Ok(Figures {
        rows: recording.times.len(),
        filled,
        margin,
        hold: judged.hold,
        fail: judged.fail,
        verdict: judged.verdict,
    })
}

// The answer for requirement k of a sheet over the rows that were read. Rows that are refused are judged as none, so that 3 and 4 still come before 5.
fn answer_for(
    text: &[u8],
    sheet: Sheet,
    k: usize,
    read: Result<Counts, Refusal>,
    times: &[u64],
    values: &[i64],
) -> Result<Figures, Refusal>
    requires { let x = sheet_outcome (Ok sheet) in (k < sheet.count) × Placed text.now x × Stored text.now x (rows_outcome read) times.now values.now }
    ensures { let x = sheet_outcome (Ok sheet) in outcome_of result ≡ answer_for sheet.head (listing text.now x) (requirement_part text.now x k) }
{
    let place = sheet.requirements[k];
    let table = requirements::read_requirement(&text[place.from..place.to])?;
    let head = sheet.head;
    let setup = head.setup;
    let Ok(counts) = read else {
        let none = Recording {
            setup,
            times: &times[..0],
            values: &values[..0],
        };
        return rules::refusal(table, &none).and(Err(Refusal::Samples));
    };
    let recording = Recording {
        setup,
        times: &times[..counts.rows],
        values: &values[..counts.rows * setup.channels],
    };
    judge(table, &recording, head.step, head.drift, counts.filled)
}

// The answers for all requirements of a sheet, whose rows are read once.
fn answer_all(text: &[u8], sheet: Sheet) -> OutcomeList
    requires { Placed text.now (sheet_outcome (Ok sheet)) }
    ensures { map outcome_of result ≡ entries text.now (sheet_outcome (Ok sheet)) }
{
    let mut times = [0u64; 2048];
    let mut values = [0i64; 16384];
    let read = sheet_rows::read_rows(
        &text[sheet.rows..],
        sheet.head.setup.channels,
        &mut times,
        &mut values,
    );
    let mut all = OutcomeList::new();
    for k in 0..sheet.count {
        all.push(answer_for(text, sheet, k, read, &times, &values));
    }
    all
}

// The answers to a whole text.
pub fn answers(text: &[u8]) -> Result<OutcomeList, Refusal>
    ensures { text_outcome_of result ≡ answers_of text.now }
{
    let sheet = sheets::read_sheet(text)?;
    Ok(answer_all(text, sheet))
}

// The lines that are printed for a whole text.
pub fn printed_answers(text: &[u8]) -> Output<{ outcome_lines::LINES }>
    ensures result_value { result ≡ printed (blank LINES) (lines_of (answers_of text.now)) }
    ensures room { length (lines_of (answers_of text.now)) ≤ LINES }
{
    let mut out = Output::new();
    outcome_lines::print(&mut out, &answers(text));
    out
}

// The same at the front of a slice; with LINES places they are whole. Answers the place behind them.
pub fn answer_lines(text: &[u8], out: &mut [u8]) -> usize
    ensures result_value { output out.new result ≡ printed (output out.old 0) (lines_of (answers_of text.now)) }
    ensures room { length (lines_of (answers_of text.now)) ≤ LINES }
{
    let lines = printed_answers(text);
    printing::word(out, 0, lines.as_slice())
}
