// The row of one node from the rows of its children: the same for a margin, which has a row for each node, and for a verdict, which has two.
#![tactic(auto)]

ghost use Rattle.std.specs.Prelude.{◌≡◌, ◌*◌};
ghost use Rattle.lists.specs.Fill.{fill};
ghost use Rattle.rows.specs.Cells.{cell};
ghost use Rattle.tables.specs.Kind.{operator};
ghost use Rattle.nodes.specs.Values.{node_value};
ghost use Rattle.nodes.specs.Asks.{NodeAsks};
ghost use Rattle.recordings.specs.Card.{card_of, rows};

use logic::Window;
use recordings::Recording;
use tables::{Node, Operator};

// Row `row` gets the node's values, or, where it is not affirmed, those of its negation, from rows `left` and `right`.
#[tactic(auto, unfolding(crate::specs::Values::node_value))]
pub fn node_row(
    node: Node,
    recording: &Recording,
    affirmed: bool,
    window: Window,
    work: &mut [i64],
    left: usize,
    right: usize,
    row: usize,
)
    requires { NodeAsks work.old (card_of recording.now) node left right row }
    ensures { let c = card_of recording.now in
        work.new ≡ fill (row * rows c) (rows c) (node_value c affirmed window (operator node.kind) node (cell work.old (rows c) left) (cell work.old (rows c) right)) work.old }
{
    let times = recording.times;
    let rows = times.len();
    match Operator::from(node.kind) {
        Operator::Constant | Operator::Unknown => rows::true_row(rows, affirmed, work, row),
        Operator::Named => {
            let setup = recording.setup;
            let predicate = setup.predicates[node.left];
            let scale = setup.scales.each[predicate.channel];
            rows::predicate_row(
                predicate,
                scale,
                setup.channels,
                recording.values,
                rows,
                affirmed,
                work,
                row,
            )
        }
        Operator::Negated => rows::signed_row(rows, true, work, left, row),
        Operator::Joined(e) => {
            rows::joined_row(rows, logic::turn(affirmed, e), work, left, right, row)
        }
        Operator::Binary(_, e) => {
            let e = logic::turn(affirmed, e);
            temporal::temporal_row(times, e, window, work, Some(left), right, row)
        }
        Operator::Unary(_, e) => {
            let e = logic::turn(affirmed, e);
            temporal::temporal_row(times, e, window, work, None, left, row)
        }
    }
}
