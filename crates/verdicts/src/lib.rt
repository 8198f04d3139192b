// The verdict: hold, fail, and whether the requirement holds, fails or is not shown between the samples.
#![tactic(auto)]

ghost use Rattle.std.specs.Prelude.{◌≡◌, ◌*◌, ◌≤◌, pos, length};
ghost use Rattle.std.specs.Int.Signed.{lt_z};
ghost use Rattle.recordings.specs.Accepted.{LONGEST_STEP, LARGEST_DRIFT};
ghost use Rattle.recordings.specs.Card.{card_of};
ghost use Rattle.recordings.specs.Verdict.{decide};
ghost use Rattle.refusals.specs.Number.{number_of};
ghost use Rattle.tables.specs.declared.Table.{Table};
ghost use Rattle.tables.specs.Kind.{operator};
ghost use Rattle.tables.specs.Tree.{NODES, window};
ghost use Rattle.tables.specs.Rules.{WindowRules};
ghost use Rattle.windows.specs.Bounds.{Short};
ghost use Rattle.verdicts.specs.Cells.{cells};
ghost use Rattle.verdicts.specs.Rows.{strong_window, left_sign, row_of, Ready, Due, Fills};
ghost use Rattle.verdicts.specs.Answer.{verdict_outcome, verdict_refusal, verdict_judged, verdict_cells};

use logic::Window;
use recordings::{Recording, Verdict};
use refusals::Refusal;
use tables::{Node, Table};

// The verdict, and the strengthened margins that it was decided by.
#[derive(Clone, Copy)]
pub struct Judgement {
    pub verdict: Verdict,
    pub hold: i64,
    pub fail: i64,
}

// The row of node k, or of its negation.
fn row_for(affirmed: bool, k: usize) -> usize
    requires { k ≤ NODES }
    ensures { result ≡ row_of affirmed k }
{
    if affirmed { 2 * k } else { 2 * k + 1 }
}

// The node's window, strengthened; in the negation it is that of the dual operator.
fn row_window(node: Node, affirmed: bool, step: u64) -> Window
    requires { WindowRules node.span × Short (window node) × (step ≤ LONGEST_STEP) }
    ensures { result ≡ strong_window affirmed step (operator node.kind) node }
{
    let e = logic::turn(affirmed, tables::extremum_of(node.kind));
    windows::strengthened(e, step, windows::plain(node))
}

// The row that a node's left number names: "not" reads its child's other row.
fn left_row(node: Node, affirmed: bool) -> usize
    requires { node.left ≤ NODES }
    ensures { result ≡ row_of (left_sign affirmed (operator node.kind)) node.left }
{
    if node.kind == tables::NOT {
        row_for(!affirmed, node.left)
    } else {
        row_for(affirmed, node.left)
    }
}

// Row `row` of the cells, that of a node or of its negation, the rows before it being filled. It takes the node alone: a table by value would be copied for each row.
fn strong_row(node: Node, recording: &Recording, step: u64, work: &mut [i64], row: usize)
    requires { (t : Table) × Due (card_of recording.now) t node step work.old row }
    ensures { Fills (card_of recording.now) node step work.old row work.new }
{
    let affirmed = row % 2 == 0;
    let window = row_window(node, affirmed, step);
    let left = left_row(node, affirmed);
    let right = row_for(affirmed, node.right);
    nodes::node_row(node, recording, affirmed, window, work, left, right, row)
}

// All rows of the cells.
fn strong_rows(table: Table, recording: &Recording, step: u64, work: &mut [i64])
    requires { Ready (card_of recording.now) table step (length work.old) }
    ensures { work.new ≡ cells (card_of recording.now) step table.nodes table.count work.old }
{
    for row in 0..2 * table.count {
        strong_row(table.nodes[row / 2], recording, step, work, row);
    }
}

// Whether a margin is above the drift.
fn exceeds(drift: u64, margin: i64) -> bool
    requires { drift ≤ LARGEST_DRIFT }
    ensures { result ≡ lt_z (pos drift) margin }
{
    (drift as i64) < margin
}

fn decided(drift: u64, hold: i64, fail: i64) -> Verdict
    requires { drift ≤ LARGEST_DRIFT }
    ensures { result ≡ decide drift hold fail }
{
    if exceeds(drift, hold) {
        Verdict::Holds
    } else if exceeds(drift, fail) {
        Verdict::Fails
    } else {
        Verdict::NotShown
    }
}

// The first of refusals 3 to 11 that applies. `cells` is the count of cells.
fn refusal_of(
    table: Table,
    recording: &Recording,
    step: u64,
    drift: u64,
    cells: usize,
) -> Result<(), Refusal>
    ensures { number_of result ≡ verdict_refusal (card_of recording.now) table step drift cells }
{
    rules::refusal(table, recording)?;
    if cells < 2 * table.count * recording.times.len() {
        return Err(Refusal::Work);
    }
    sampling::refusal(recording, step, drift)
}

// Judges a recording against a requirement table. The work slice gets 2 × n × rows cells; under a refusal it stays as it was.
pub fn verdict(
    table: Table,
    recording: &Recording,
    step: u64,
    drift: u64,
    work: &mut [i64],
) -> Result<Judgement, Refusal>
    ensures answer { verdict_outcome result ≡ verdict_judged (card_of recording.now) table step drift (length work.old) }
    ensures cells { work.new ≡ verdict_cells (card_of recording.now) table step drift work.old }
{
    refusal_of(table, recording, step, drift, work.len())?;
    strong_rows(table, recording, step, work);
    let rows = recording.times.len();
    let root = table.count - 1;
    let hold = rows::cell_at(rows, work, row_for(true, root), 0);
    let fail = rows::cell_at(rows, work, row_for(false, root), 0);
    Ok(Judgement {
        verdict: decided(drift, hold, fail),
        hold,
        fail,
    })
}
