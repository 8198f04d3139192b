// A watch in numbers, and one row more taken by each of its nodes, in place: a caller lends the watch, and nothing is copied at a row. Of a node without window the row gives the
// value there, and the margin at sample 0 comes from its operands'. A temporal operator takes in the new sample and carries left's extremum along.
// Nothing is asked of what the slices hold. Numbers that no making left give some margin; no place outside the slices is read or written.
#![tactic(auto)]

ghost use Rattle.std.specs.Prelude.{◌≡◌, ◌≤◌, ◌<◌, neg_ℤ, length};
ghost use Rattle.numbers.specs.Order.{Within};
ghost use Rattle.logic.specs.Window.{inside};
ghost use Rattle.logic.specs.declared.Direction.TheVariants.{Future};
ghost use Rattle.recordings.specs.Distance.{TOP};
ghost use Rattle.recordings.specs.Card.{Card};
ghost use Rattle.recordings.specs.Accepted.{Values};
ghost use Rattle.tables.specs.declared.Table.{Table};
ghost use Rattle.tables.specs.Kind.{operator};
ghost use Rattle.tables.specs.declared.Operator.TheVariants.{Negated, Joined, Binary, Unary};
ghost use Rattle.tables.specs.Tree.{NODES, NO_END};
ghost use Rattle.arrivals.specs.Arrivals.{Row};
ghost use Rattle.watch_cells.specs.State.{node_in, kept_window, held_in};
ghost use Rattle.watch_cells.specs.Taking.{IsDistance, LeafValue, untimed, IsPoint, TimedAsks, so_far, margin_after, newest_of, SameBeyond, Arriving, Taking, NodeTakes};

use logic::Extremum;
use tables::{Node, Operator};

// Where the scales, the predicates' numbers and the nodes begin, and the nodes' cells.
pub const SCALES_AT: usize = 5;

pub const RANGES_AT: usize = 13;

pub const NODES_AT: usize = 45;

pub const HELD_AT: usize = 32;

// So many numbers and cells are a watch; a slice that holds one may be longer.
const NUMBERS: usize = NODES_AT + building::WIDTH * tables::NODES;

const CELLS: usize = HELD_AT + 3 * tables::NODES;

// A node's cells, one in each of three runs: its margin at the newest row, its margin at sample 0, and what it carries.
const NEWEST: usize = 0;

const MARGIN: usize = 1;

const CARRIED: usize = 2;

fn kind_of(numbers: &[u64; NUMBERS], k: usize) -> u64
    requires { k < NODES }
    ensures { result ≡ (node_in numbers.now k).kind }
{
    numbers[NODES_AT + building::WIDTH * k]
}

fn node_of(numbers: &[u64; NUMBERS], k: usize) -> Node
    requires { k < NODES }
    ensures { result ≡ node_in numbers.now k }
{
    building::read_node(numbers, NODES_AT + building::WIDTH * k)
}

// The distance of the row's value from a predicate. Numbers that no making left name some predicate and some scale; TOP where there is no distance.
fn distance_of(numbers: &[u64; NUMBERS], cells: &[i64; CELLS], values: &[i64], node: Node) -> i64
    requires { Values values.now }
    ensures { IsDistance numbers.now cells.now values.now node result }
{
    let named = node.left % 16;
    let at = RANGES_AT + 2 * named;
    let channel = numbers[at + 1] as usize;
    if values.len() <= channel {
        return recordings::TOP;
    }
    let scale = numbers[SCALES_AT + channel % recordings::MOST_CHANNELS];
    if recordings::MOST_SCALE < scale {
        return recordings::TOP;
    }
    let range = flat::range_from(numbers[at], cells[2 * named], cells[2 * named + 1]);
    if !predicates::range_obeys(range) {
        return recordings::TOP;
    }
    points::scaled_distance(range, scale, values[channel])
}

// A part of a node's cells. Numbers that no making left name some node.
fn operand(cells: &[i64; CELLS], child: usize, part: usize) -> i64
    requires { part < 3 }
    ensures { child < NODES → result ≡ held_in cells.now child part }
{
    cells[HELD_AT + tables::NODES * part + child % tables::NODES]
}

// Minus a margin. What is below all margins isn't negated.
fn opposite(a: i64) -> i64
    ensures { Within TOP a → result ≡ neg_ℤ a }
{
    if numbers::at_most(points::BOTTOM, a) {
        numbers::negated(a)
    } else {
        recordings::TOP
    }
}

// "Not", or "and" or "or" by its extremum, from one part of its operands' cells.
fn point_at(cells: &[i64; CELLS], node: Node, junction: Option<Extremum>, part: usize) -> i64
    requires { part < 3 }
    ensures { (k : _) → k ≤ NODES → operator node.kind ≡ untimed junction → IsPoint cells.now node k part result }
{
    let a = operand(cells, node.left, part);
    match junction {
        None => opposite(a),
        Some(e) => points::extreme(e, a, operand(cells, node.right, part)),
    }
}

// Whether a sample so many seconds after the first is in the window of the first. Both ends of a kept window count, and one without end needs no test: no sample is so late.
fn in_window(node: Node, since: u64) -> bool
    requires { since ≤ NO_END }
    ensures { result ≡ inside (kept_window node) since }
{
    (node.span.lo <= since) & (since <= node.span.hi)
}

// What a node holds before the row; `none` before the first.
fn so_far(cells: &[i64; CELLS], opening: bool, none: i64, k: usize, part: usize) -> i64
    requires { (k < NODES) × (part < 3) }
    ensures { result ≡ so_far cells.now opening none k part }
{
    if opening {
        none
    } else {
        cells[HELD_AT + tables::NODES * part + k]
    }
}

// A temporal operator's margin with one sample more, where that is in the window: right there is joined with what left was before it.
fn margin_after(e: Extremum, margin: i64, carried: i64, right: i64, here: bool) -> i64
    ensures { result ≡ margin_after e margin carried right here }
{
    if here {
        points::extreme(e, margin, points::extreme(logic::dual(e), right, carried))
    } else {
        margin
    }
}

// A temporal operator at the row itself, behind which there is no sample yet: right there, if its window starts now.
fn newest_of(node: Node, e: Extremum, right: i64) -> i64
    ensures { result ≡ newest_of node e right }
{
    if in_window(node, 0) {
        right
    } else {
        points::over_nothing(e)
    }
}

// True or a predicate takes the row: at sample 0 it keeps what it had at the first one.
fn take_leaf(cells: &mut [i64; CELLS], leaf: i64, opening: bool, k: usize)
    requires { k < NODES }
    ensures taken { (numbers values : _) (since : _) (n : _) → n ≡ node_in numbers k → LeafValue numbers cells.old values n leaf → NodeTakes numbers cells.old cells.new values opening since k }
    ensures beyond { SameBeyond cells.old cells.new }
{
    cells[HELD_AT + tables::NODES * NEWEST + k] = leaf;
    if opening {
        cells[HELD_AT + tables::NODES * MARGIN + k] = leaf;
    }
}

// "Not", or "and" or "or" by its extremum, takes the row: it has a value there, and one at sample 0.
fn take_point(
    numbers: &[u64; NUMBERS],
    cells: &mut [i64; CELLS],
    junction: Option<Extremum>,
    k: usize,
)
    requires { k < NODES }
    ensures taken { (values : _) (opening : _) (since : _) → operator (node_in numbers.now k).kind ≡ untimed junction → NodeTakes numbers.now cells.old cells.new values opening since k }
    ensures beyond { SameBeyond cells.old cells.new }
{
    let node = node_of(numbers, k);
    let newest = point_at(cells, node, junction, NEWEST);
    let margin = point_at(cells, node, junction, MARGIN);
    cells[HELD_AT + tables::NODES * NEWEST + k] = newest;
    cells[HELD_AT + tables::NODES * MARGIN + k] = margin;
}

// A temporal operator takes the row, given its operands there.
fn take_timed(
    cells: &mut [i64; CELLS],
    node: Node,
    e: Extremum,
    left: i64,
    right: i64,
    opening: bool,
    since: u64,
    k: usize,
)
    requires { (k < NODES) × (since ≤ NO_END) }
    ensures taken { (numbers values : _) → node ≡ node_in numbers k → TimedAsks cells.old node e left right → NodeTakes numbers cells.old cells.new values opening since k }
    ensures beyond { SameBeyond cells.old cells.new }
{
    let other = logic::dual(e);
    let margin = so_far(cells, opening, points::over_nothing(e), k, MARGIN);
    let carried = so_far(cells, opening, points::over_nothing(other), k, CARRIED);
    let here = in_window(node, since);
    let next = points::extreme(other, carried, left);
    let best = margin_after(e, margin, carried, right, here);
    let newest = newest_of(node, e, right);
    cells[HELD_AT + tables::NODES * NEWEST + k] = newest;
    cells[HELD_AT + tables::NODES * MARGIN + k] = best;
    cells[HELD_AT + tables::NODES * CARRIED + k] = next;
}

// Until or release takes the row.
fn take_binary(
    numbers: &[u64; NUMBERS],
    cells: &mut [i64; CELLS],
    e: Extremum,
    opening: bool,
    since: u64,
    k: usize,
)
    requires { (k < NODES) × (since ≤ NO_END) }
    ensures taken { (values : _) → operator (node_in numbers.now k).kind ≡ Binary Future e → NodeTakes numbers.now cells.old cells.new values opening since k }
    ensures beyond { SameBeyond cells.old cells.new }
{
    let node = node_of(numbers, k);
    let left = operand(cells, node.left, NEWEST);
    let right = operand(cells, node.right, NEWEST);
    take_timed(cells, node, e, left, right, opening, since, k)
}

// Eventually or always takes the row.
fn take_unary(
    numbers: &[u64; NUMBERS],
    cells: &mut [i64; CELLS],
    e: Extremum,
    opening: bool,
    since: u64,
    k: usize,
)
    requires { (k < NODES) × (since ≤ NO_END) }
    ensures taken { (values : _) → operator (node_in numbers.now k).kind ≡ Unary Future e → NodeTakes numbers.now cells.old cells.new values opening since k }
    ensures beyond { SameBeyond cells.old cells.new }
{
    let node = node_of(numbers, k);
    let left = points::over_nothing(logic::dual(e));
    let right = operand(cells, node.left, NEWEST);
    take_timed(cells, node, e, left, right, opening, since, k)
}

// Node k takes the row. Its kind is asked for here alone, and once, and its other numbers in the arm that they count in: each question costs a row time.
// So does an extremum that is known only at the row: each arm names its own. A kind that no table has may stand there, too.
fn take_node(
    numbers: &[u64; NUMBERS],
    cells: &mut [i64; CELLS],
    values: &[i64],
    opening: bool,
    since: u64,
    k: usize,
)
    requires { (k < NODES) × Values values.now × (since ≤ NO_END) }
    ensures taken { NodeTakes numbers.now cells.old cells.new values.now opening since k }
    ensures beyond { SameBeyond cells.old cells.new }
{
    match Operator::from(kind_of(numbers, k)) {
        Operator::Constant => take_leaf(cells, recordings::TOP, opening, k),
        Operator::Named => {
            let leaf = distance_of(numbers, cells, values, node_of(numbers, k));
            take_leaf(cells, leaf, opening, k)
        }
        Operator::Negated => take_point(numbers, cells, None, k),
        Operator::Joined(Extremum::Smallest) => {
            take_point(numbers, cells, Some(Extremum::Smallest), k)
        }
        Operator::Joined(Extremum::Largest) => {
            take_point(numbers, cells, Some(Extremum::Largest), k)
        }
        Operator::Binary(_, Extremum::Largest) => {
            take_binary(numbers, cells, Extremum::Largest, opening, since, k)
        }
        Operator::Binary(_, Extremum::Smallest) => {
            take_binary(numbers, cells, Extremum::Smallest, opening, since, k)
        }
        Operator::Unary(_, Extremum::Largest) => {
            take_unary(numbers, cells, Extremum::Largest, opening, since, k)
        }
        Operator::Unary(_, Extremum::Smallest) | Operator::Unknown => {
            take_unary(numbers, cells, Extremum::Smallest, opening, since, k)
        }
    }
}

// All nodes take the row: `opening` says that it is the first, and `since` how long after the first it is.
pub fn take_nodes(
    numbers: &[u64],
    cells: &mut [i64],
    values: &[i64],
    opening: bool,
    since: u64,
    count: usize,
)
    requires { (NUMBERS ≤ length numbers.now) × (CELLS ≤ length cells.old) × (count ≤ NODES) × Values values.now × (since ≤ NO_END) }
    ensures taken { (t : Table) (c : Card) (r : Row) → Arriving values.now opening since t c r → count ≡ t.count → Taking numbers.now cells.old t c r 0 → Taking numbers.now cells.new t c r count }
    ensures beyond { SameBeyond cells.old cells.new }
{
    let numbers = numbers.first_chunk().unwrap();
    let cells = cells.first_chunk_mut().unwrap();
    for k in 0..count {
        take_node(numbers, cells, values, opening, since, k);
    }
}
