// The margin of a requirement table over a recording: the cells of every node, children first, and the root's margin at sample 0.
#![tactic(auto)]

ghost use Rattle.std.specs.Prelude.{◌≡◌, ℕ, ◌*◌, length};
ghost use Rattle.lists.specs.Fill.{fill, fill_rows};
ghost use Rattle.logic.specs.Formula.{Formula};
ghost use Rattle.recordings.specs.Card.{card_of, rows};
ghost use Rattle.recordings.specs.Margin.{margin};
ghost use Rattle.refusals.specs.Number.{number_of};
ghost use Rattle.tables.specs.Kind.{operator};
ghost use Rattle.tables.specs.Tree.{formula, tree};
ghost use Rattle.margins.specs.Nodes.{RowAsks, Holds, TableAsks};
ghost use Rattle.margins.specs.Answers.{margin_outcome, margin_refusal, margin_judged, margin_cells};

use recordings::Recording;
use refusals::Refusal;
use tables::{Node, Table};

// The row of node k: whatever requirements the earlier rows hold the margins of, it then holds the margins of the node over them. "Not" negates its child's row,
// every other kind reads the rows of its children as they are.
fn margin_row(node: Node, recording: &Recording, work: &mut [i64], k: usize)
    requires { RowAsks (card_of recording.now) node k work.old }
    ensures { let c = card_of recording.now in (φ : ℕ → Formula ℕ) → Holds c work.old k φ → work.new ≡ fill (k * rows c) (rows c) (margin c (formula (operator node.kind) node φ)) work.old }
{
    if node.kind == tables::NOT {
        rows::signed_row(recording.times.len(), false, work, node.left, k)
    } else {
        let window = windows::plain(node);
        nodes::node_row(
            node, recording, true, window, work, node.left, node.right, k,
        )
    }
}

// The rows of all nodes, those that the root doesn't reach included.
fn fill_margins(table: Table, recording: &Recording, work: &mut [i64])
    requires { TableAsks (card_of recording.now) table work.old }
    ensures { let c = card_of recording.now in work.new ≡ fill_rows (rows c) (λ k. margin c (tree table.nodes k)) table.count work.old }
{
    for k in 0..table.count {
        margin_row(table.nodes[k], recording, work, k);
    }
}

// The first of refusals 3 to 8 that applies. `cells` is the count of cells.
fn refusal_of(table: Table, recording: &Recording, cells: usize) -> Result<(), Refusal>
    ensures { number_of result ≡ margin_refusal (card_of recording.now) table cells }
{
    rules::refusal(table, recording)?;
    if cells < table.count * recording.times.len() {
        return Err(Refusal::Work);
    }
    Ok(())
}

// The margin of the table's root at sample 0, or the first refusal that applies; and in `work` the margins of every node at every sample.
pub fn margin(table: Table, recording: &Recording, work: &mut [i64]) -> Result<i64, Refusal>
    ensures answer { margin_outcome result ≡ margin_judged (card_of recording.now) table (length work.old) }
    ensures cells { work.new ≡ margin_cells (card_of recording.now) table work.old }
{
    refusal_of(table, recording, work.len())?;
    fill_margins(table, recording, work);
    Ok(rows::cell_at(recording.times.len(), work, table.count - 1, 0))
}
