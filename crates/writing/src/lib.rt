// Writes a requirement table as text. Whether the text stays within the grammar's limits is known from the nodes' measures, each from those of its children, before any of it is written:
// shared nodes are unfolded only where the whole tree has at most 64 nodes.
#![tactic(auto)]

ghost use Rattle.std.specs.Prelude.{◌≡◌, suc, ◌+◌, ◌-◌, ◌≤◌, min, length};
ghost use Rattle.tables.specs.Kind.{operator};
ghost use Rattle.tables.specs.Tree.{node_at};
ghost use Rattle.tables.specs.Rules.{left_use, right_use, TableRules};
ghost use Rattle.grammar.specs.Grammar.{ENCLOSINGS, Requires};
ghost use Rattle.building.specs.Storing.{node_from};
ghost use Rattle.building.specs.Unshared.{unshared, tree_of};
ghost use Rattle.spelling.specs.Text.{text_as, part_of};
ghost use Rattle.printing.specs.Output.{printed};
ghost use Rattle.writing.specs.Measures.{measure_of, deep_as, one_measure, two_measure, node_measure, leaf_measure};
ghost use Rattle.writing.specs.Ruled.{Ruled, HoldsNodes, leaf_text};
ghost use Rattle.writing.specs.Written.{table_text, outcome, written_of, text_slice};

use building::CELLS;
use grammar::Part;
use printing::Output;
use refusals::Refusal;
use tables::{Node, Table};

// What a tree is, counted no further than one past the limits: its nodes, the enclosings of its text, and the part of the grammar that this is.
#[derive(Clone, Copy)]
pub struct Measure {
    pub nodes: u64,
    pub enclosings: u64,
    pub part: Part,
}

// What C is handed: the refusal's number, 0 for none, and the text's length, 0 under a refusal.
#[repr(C)]
#[derive(Clone, Copy)]
pub struct Written {
    pub number: u64,
    pub length: usize,
}

impl From<Result<usize, Refusal>> for Written {
    ghost from_gives = { λ answer written. written ≡ outcome answer };

    fn from(answer: Result<usize, Refusal>) -> Written {
        match answer {
            Ok(length) => Written { number: 0, length },
            Err(refusal) => Written {
                number: u64::from(refusal),
                length: 0,
            },
        }
    }
}

// One past the most nodes, and one past the most enclosings.
const TOO_LARGE: u64 = 65;

const TOO_DEEP: u64 = 33;

// No text within the limits is longer: 64 nodes of at most 26 bytes.
pub const LONGEST_TEXT: usize = 26 * tables::NODES;

// Where a text is written, before it is known that the slice has room for it.
type Room = Output<LONGEST_TEXT>;

// A sum, or the limit where that is less.
fn sum_up_to(x: u64, y: u64, limit: u64) -> u64
    ensures { result ≡ min (x + y) limit }
{
    x.saturating_add(y).min(limit)
}

// The enclosings of a child where a part is due.
fn deep_as(due: Part, child: Measure) -> u64
    ensures { result ≡ min (deep_as due child) (suc ENCLOSINGS) }
{
    let pair = u64::from(!spelling::stands_as(due, child.part));
    sum_up_to(child.enclosings, pair, TOO_DEEP)
}

fn leaf_measure() -> Measure
    ensures { result ≡ leaf_measure }
{
    Measure {
        nodes: 1,
        enclosings: 0,
        part: Part::Unary,
    }
}

fn one_measure(child: Measure) -> Measure
    ensures { result ≡ one_measure child }
{
    let deep = deep_as(Part::Unary, child);
    Measure {
        nodes: sum_up_to(child.nodes, 1, TOO_LARGE),
        enclosings: sum_up_to(deep, 1, TOO_DEEP),
        part: Part::Unary,
    }
}

fn two_measure(part: Part, left: Measure, right: Measure) -> Measure
    ensures { result ≡ two_measure part left right }
{
    let nodes = sum_up_to(left.nodes, right.nodes, TOO_LARGE);
    let before = deep_as(spelling::left_part(part), left);
    let behind = deep_as(spelling::right_part(part), right);
    Measure {
        nodes: sum_up_to(nodes, 1, TOO_LARGE),
        enclosings: before.max(behind),
        part,
    }
}

// The measure of a node of a kind from those of its children; a number that is no child counts for nothing.
fn node_measure(kind: u64, left: Measure, right: Measure) -> Measure
    ensures { result ≡ node_measure (left_use (operator kind)) (right_use (operator kind)) (part_of kind) left right }
{
    if tables::has_right(kind) {
        return two_measure(spelling::part_of(kind), left, right);
    }
    if tables::has_left(kind) {
        return one_measure(left);
    }
    leaf_measure()
}

// The measure of a table's last node: a node's children are measured before it.
fn last_measure(table: Table) -> Measure
    requires ruled { Ruled (node_at table.nodes) (table.count - 1) }
    requires le_count { 1 ≤ table.count }
    ensures { result ≡ measure_of (unshared (node_at table.nodes) (table.count - 1)) }
{
    let mut measures = [leaf_measure(); tables::NODES];
    for k in 0..table.count {
        let node = table.nodes[k];
        measures[k] = node_measure(node.kind, measures[node.left], measures[node.right]);
    }
    measures[table.count - 1]
}

// A node without children: `T`, or a predicate by its number.
fn write_leaf(out: &mut Room, node: Node)
    ensures { out.new ≡ printed out.old (leaf_text node) }
{
    if node.kind == tables::PREDICATE {
        return spelling::write_predicate(out, node.left);
    }
    spelling::write_sign(out, tables::TRUE, tables::no_span());
}

// The text of node k where a part is due.
fn write_node(out: &mut Room, cells: &[u64; CELLS], k: usize, due: Part)
    requires { Ruled (node_from cells.now) k }
    ensures { out.new ≡ printed out.old (text_as due (unshared (node_from cells.now) k)) }
{
    let node = building::node_at(cells, k);
    if tables::has_right(node.kind) {
        let own = spelling::part_of(node.kind);
        spelling::write_parenthesis(out, due, own, b"(");
        write_node(out, cells, node.left, spelling::left_part(own));
        spelling::write_sign(out, node.kind, node.span);
        write_node(out, cells, node.right, spelling::right_part(own));
        return spelling::write_parenthesis(out, due, own, b")");
    }
    if tables::has_left(node.kind) {
        spelling::write_sign(out, node.kind, node.span);
        return write_node(out, cells, node.left, Part::Unary);
    }
    write_leaf(out, node);
}

// The text of a table that is within the limits, where the slice has room for it.
fn write_table(cells: &[u64; CELLS], table: Table, text: &mut [u8]) -> Result<usize, Refusal>
    requires holds_nodes { HoldsNodes cells.now table }
    requires table_rules { TableRules table }
    requires limits { Requires (table_text table) (tree_of table) }
    ensures answer { outcome result ≡ written_of table (length text.old) }
    ensures text { text.new ≡ text_slice table text.old }
{
    let mut out = Room::new();
    write_node(&mut out, cells, table.count - 1, Part::Alternative);
    let written = out.as_slice();
    if text.len() < written.len() {
        return Err(Refusal::Room);
    }
    lists::write_front(written, text);
    Ok(written.len())
}

// Writes a table's text into the front of a slice, the table's numbers being at hand, and gives its length. Under a refusal, of 3, 14 or 15, the slice keeps what it holds.
pub fn write_numbered(cells: &[u64; CELLS], table: Table, text: &mut [u8]) -> Result<usize, Refusal>
    requires { HoldsNodes cells.now table }
    ensures answer { outcome result ≡ written_of table (length text.old) }
    ensures text { text.new ≡ text_slice table text.old }
{
    if !tables::table_obeys(table) {
        return Err(Refusal::Table);
    }
    let measure = last_measure(table);
    if TOO_LARGE <= measure.nodes || TOO_DEEP <= measure.enclosings {
        return Err(Refusal::Limits);
    }
    write_table(cells, table, text)
}

// The same of a table alone.
pub fn write_requirement(table: Table, text: &mut [u8]) -> Result<usize, Refusal>
    ensures answer { outcome result ≡ written_of table (length text.old) }
    ensures text { text.new ≡ text_slice table text.old }
{
    let cells = building::cells_of(table.nodes);
    write_numbered(&cells, table, text)
}
