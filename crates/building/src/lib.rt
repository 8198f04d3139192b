// Where a requirement's nodes are kept while they are read: seven cells a node, so that a deep text costs no copy of the table.
#![tactic(auto)]

ghost use Rattle.std.specs.Prelude.{◌≡◌, ◌+◌, ◌≤◌, ◌<◌, length};
ghost use Rattle.grammar.specs.Reading.{leaf_at};
ghost use Rattle.tables.specs.Tree.{NODES, no_span};
ghost use Rattle.building.specs.Nodes.{node, empty_table};
ghost use Rattle.building.specs.Storing.{cells_of, step_of, leaf_cells, pushed_step, pushed_cells, parent_step, wrap_cells, join_cells, closed_step, WIDTH as NODE_WIDTH, CELLS as TABLE_CELLS, node_read, node_from, table_from};

use tables::{Node, Span, Table};
use text::Field;

// A node has so many numbers.
pub const WIDTH: usize = 7;

// Cells for all nodes of a table.
pub const CELLS: usize = WIDTH * tables::NODES;

// A part of the grammar that was read, as the nodes of its tree: the place after it, its root's number and the next free number.
// The free number goes with what was read, and not with the cells, which are lent: a part that is refused has none.
#[derive(Clone, Copy)]
pub struct Subtree {
    pub end: usize,
    pub root: usize,
    pub free: usize,
}

// One node more, which is the root; refused where the table is full.
pub fn push(at: usize, free: usize, x: Node, cells: &mut [u64; CELLS]) -> Option<Subtree>
    ensures step { result ≡ pushed_step free at }
    ensures cells { cells.new ≡ pushed_cells free x cells.old }
{
    if tables::NODES <= free {
        return None;
    }
    let first = WIDTH * free;
    cells[first] = x.kind;
    cells[first + 1] = x.left as u64;
    cells[first + 2] = x.right as u64;
    cells[first + 3] = x.span.lo;
    cells[first + 4] = x.span.hi;
    cells[first + 5] = x.span.openlo;
    cells[first + 6] = x.span.openhi;
    Some(Subtree {
        end: at,
        root: free,
        free: free + 1,
    })
}

// The parent of one reading.
pub fn wrap(
    kind: u64,
    span: Span,
    inner: Option<Subtree>,
    cells: &mut [u64; CELLS],
) -> Option<Subtree>
    ensures step { result ≡ parent_step inner }
    ensures cells { cells.new ≡ wrap_cells kind span inner cells.old }
{
    let part = inner?;
    let x = Node {
        kind,
        left: part.root,
        right: 0,
        span,
    };
    push(part.end, part.free, x, cells)
}

// The parent of the root `left` and of the reading after it.
pub fn join(
    kind: u64,
    span: Span,
    left: usize,
    inner: Option<Subtree>,
    cells: &mut [u64; CELLS],
) -> Option<Subtree>
    ensures step { result ≡ parent_step inner }
    ensures cells { cells.new ≡ join_cells kind span left inner cells.old }
{
    let part = inner?;
    let x = Node {
        kind,
        left,
        right: part.root,
        span,
    };
    push(part.end, part.free, x, cells)
}

// A reading and the parenthesis that closes it.
pub fn close(s: &[u8], inner: Option<Subtree>) -> Option<Subtree>
    ensures { result ≡ closed_step s.now inner }
{
    let part = inner?;
    let end = text::read_mark(s, part.end, b")")?;
    Some(Subtree { end, ..part })
}

// A node without children and window: a predicate's number stands in left.
fn leaf(kind: u64, number: usize) -> Node
    ensures { result ≡ node kind number 0 no_span }
{
    Node {
        kind,
        left: number,
        right: 0,
        span: tables::no_span(),
    }
}

// The empty table: no node, and all numbers 0.
pub fn empty_table() -> Table
    ensures { result ≡ empty_table }
{
    // Written out, so that the array is cleared in place: a call here costs a copy of the table.
    let none = Node {
        kind: 0,
        left: 0,
        right: 0,
        span: Span {
            lo: 0,
            hi: 0,
            openlo: 0,
            openhi: 0,
        },
    };
    Table {
        nodes: [none; tables::NODES],
        count: 0,
    }
}

// The node whose numbers stand from a place on.
pub fn read_node(numbers: &[u64], at: usize) -> Node
    requires { at + NODE_WIDTH ≤ length numbers.now }
    ensures { result ≡ node_read numbers.now at }
{
    Node {
        kind: numbers[at],
        left: numbers[at + 1] as usize,
        right: numbers[at + 2] as usize,
        span: Span {
            lo: numbers[at + 3],
            hi: numbers[at + 4],
            openlo: numbers[at + 5],
            openhi: numbers[at + 6],
        },
    }
}

// The node of a number.
pub fn node_at(cells: &[u64; CELLS], k: usize) -> Node
    requires { k < NODES }
    ensures { result ≡ node_from cells.now k }
{
    read_node(cells, WIDTH * k)
}

// The numbers of each of a table's nodes.
pub fn cells_of(nodes: [Node; tables::NODES]) -> [u64; CELLS]
    ensures { result ≡ cells_of nodes }
{
    let mut cells = [0u64; CELLS];
    for (k, node) in nodes.iter().enumerate() {
        push(0, k, *node, &mut cells);
    }
    cells
}

// The table of the first `count` nodes; the empty one where there cannot be so many.
pub fn table_from(cells: &[u64], count: usize) -> Table
    requires { TABLE_CELLS ≤ length cells.now }
    ensures { result ≡ table_from cells.now count }
{
    if tables::NODES < count {
        return empty_table();
    }
    let mut table = empty_table();
    for k in 0..count {
        table.nodes[k] = read_node(cells, WIDTH * k);
    }
    table.count = count;
    table
}

// True, or a predicate with 0 to 15.
pub fn read_leaf(s: &[u8], at: usize, free: usize, cells: &mut [u64; CELLS]) -> Option<Subtree>
    ensures step { result ≡ step_of free (leaf_at s.now at) }
    ensures cells { cells.new ≡ leaf_cells free (leaf_at s.now at) cells.old }
{
    if let Some(next) = operators::read_letter(s, at, tables::TRUE) {
        return push(next, free, leaf(tables::TRUE, 0), cells);
    }
    let Field::Number(value, next) = text::read_field(s, at, b"p", 15) else {
        return None;
    };
    push(next, free, leaf(tables::PREDICATE, value as usize), cells)
}
