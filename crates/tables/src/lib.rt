// The requirement table: up to 64 nodes of seven numbers each, the root last; and the test of its rules, which specs/Rules.antt states.
// The tests take every number that the types hold: none of them adds to a number that it has not bounded.
#![tactic(auto)]

ghost use Rattle.std.specs.Prelude.{◌≡◌, ◌≤◌};
ghost use Rattle.tables.specs.Kind.{operator, operator_extremum};
ghost use Rattle.tables.specs.Tree.{NODES, no_span};
ghost use Rattle.tables.specs.Rules.{is_child, left_use, right_use, timed, use_obeys, in_limits, window_obeys, is_blank, ends_obey, node_obeys, nodes_obey, table_obeys};

use logic::{Direction, Extremum};

// The kinds of nodes; the definitions have them in specs/Kind.antt. They stay numbers, since a lent table may hold any: `Operator` is what a number stands for.
pub const TRUE: u64 = 0;

pub const PREDICATE: u64 = 1;

pub const NOT: u64 = 2;

pub const AND: u64 = 3;

pub const OR: u64 = 4;

pub const UNTIL: u64 = 5;

pub const RELEASE: u64 = 6;

pub const EVENTUALLY: u64 = 7;

pub const ALWAYS: u64 = 8;

// How many kinds there are.
pub const KINDS: u64 = 9;

// A table has up to so many nodes.
pub const NODES: usize = 64;

// A window's ends go up to this.
pub const LONGEST: u64 = 1_000_000_000;

// `hi` of a window without end.
pub const NO_END: u64 = 4_294_967_295;

// A window as it is written: its two ends, and a mark for each, 1 where that end is excluded. Kinds without a window have all at 0.
#[derive(Clone, Copy)]
pub struct Span {
    pub lo: u64,
    pub hi: u64,
    pub openlo: u64,
    pub openhi: u64,
}

// One node: its kind, its children (for a predicate, the predicate's number in left), and its window.
#[derive(Clone, Copy)]
pub struct Node {
    pub kind: u64,
    pub left: usize,
    pub right: usize,
    pub span: Span,
}

// The first `count` places of `nodes` are the table; the others are not looked at.
#[derive(Clone, Copy)]
pub struct Table {
    pub nodes: [Node; NODES],
    pub count: usize,
}

// The numbers of a window where there is none.
pub fn no_span() -> Span
    ensures { result ≡ no_span }
{
    Span {
        lo: 0,
        hi: 0,
        openlo: 0,
        openhi: 0,
    }
}

// What a kind asks for: nothing, a predicate's number, one operand, two; the temporal ones a window too.
#[derive(Clone, Copy)]
pub enum Operator {
    Constant,
    Named,
    Negated,
    Unknown,
    Joined(Extremum),
    Binary(Direction, Extremum),
    Unary(Direction, Extremum),
}

// A number that is no kind's is unknown.
impl From<u64> for Operator {
    ghost from_gives = { λ kind result. result ≡ operator kind };

    fn from(kind: u64) -> Operator {
        match kind {
            TRUE => Operator::Constant,
            PREDICATE => Operator::Named,
            NOT => Operator::Negated,
            AND => Operator::Joined(Extremum::Smallest),
            OR => Operator::Joined(Extremum::Largest),
            UNTIL => Operator::Binary(Direction::Future, Extremum::Largest),
            RELEASE => Operator::Binary(Direction::Future, Extremum::Smallest),
            EVENTUALLY => Operator::Unary(Direction::Future, Extremum::Largest),
            ALWAYS => Operator::Unary(Direction::Future, Extremum::Smallest),
            _ => Operator::Unknown,
        }
    }
}

// Whether a kind's left number is a child.
pub fn has_left(kind: u64) -> bool
    ensures { result ≡ is_child (left_use (operator kind)) }
{
    matches!(
        Operator::from(kind),
        Operator::Negated | Operator::Joined(_) | Operator::Binary(_, _) | Operator::Unary(_, _)
    )
}

// Whether its right number is.
pub fn has_right(kind: u64) -> bool
    ensures { result ≡ is_child (right_use (operator kind)) }
{
    matches!(
        Operator::from(kind),
        Operator::Joined(_) | Operator::Binary(_, _)
    )
}

// Whether it has a window.
pub fn is_timed(kind: u64) -> bool
    ensures { result ≡ timed (operator kind) }
{
    matches!(
        Operator::from(kind),
        Operator::Binary(_, _) | Operator::Unary(_, _)
    )
}

// The extremum that it takes, if it takes one.
pub fn extremum_of(kind: u64) -> Extremum
    ensures { result ≡ operator_extremum (operator kind) }
{
    match Operator::from(kind) {
        Operator::Joined(e) | Operator::Binary(_, e) | Operator::Unary(_, e) => e,
        Operator::Constant | Operator::Named | Operator::Negated | Operator::Unknown =>
            Extremum::Smallest,
    }
}

// Whether the left number is what the kind asks for: a predicate's number, an earlier node, or nothing.
fn left_obeys(kind: u64, left: usize, k: usize) -> bool
    ensures { result ≡ use_obeys (left_use (operator kind)) k left }
{
    match Operator::from(kind) {
        Operator::Constant | Operator::Unknown => left == 0,
        Operator::Named => left <= 15,
        Operator::Negated | Operator::Joined(_) | Operator::Binary(_, _) | Operator::Unary(_, _) =>
            left < k,
    }
}

fn right_obeys(kind: u64, right: usize, k: usize) -> bool
    ensures { result ≡ use_obeys (right_use (operator kind)) k right }
{
    if has_right(kind) {
        right < k
    } else {
        right == 0
    }
}

// Whether a window's low end and its marks are within their limits.
fn in_limits(w: Span) -> bool
    ensures { result ≡ in_limits w }
{
    (w.lo <= LONGEST) & ((w.openlo <= 1) & (w.openhi <= 1))
}

// Whether a window obeys: nothing is added to its ends before they are known to be within their limits.
pub fn window_obeys(w: Span) -> bool
    ensures { result ≡ window_obeys w }
{
    if !in_limits(w) {
        return false;
    }
    if w.hi == NO_END {
        return w.openhi == 0;
    }
    let least = w.lo + w.openlo + w.openhi;
    (w.hi <= LONGEST) & (least <= w.hi)
}

fn is_blank(w: Span) -> bool
    ensures { result ≡ is_blank w }
{
    (w.lo == 0) & ((w.hi == 0) & ((w.openlo == 0) & (w.openhi == 0)))
}

fn ends_obey(kind: u64, w: Span) -> bool
    ensures { result ≡ ends_obey (timed (operator kind)) w }
{
    if is_timed(kind) {
        window_obeys(w)
    } else {
        is_blank(w)
    }
}

// Whether a node may stand at place k.
pub fn node_obeys(node: Node, k: usize) -> bool
    ensures { result ≡ node_obeys node k }
{
    let left = left_obeys(node.kind, node.left, k);
    let right = right_obeys(node.kind, node.right, k);
    let ends = ends_obey(node.kind, node.span);
    (node.kind < KINDS) & (left & (right & ends))
}

// Refusal 3, of the table alone: 1 to 64 nodes, each of which obeys. The walk stands here, because a table handed to one more function is copied.
pub fn table_obeys(table: Table) -> bool
    ensures { result ≡ table_obeys table }
{
    let count = table.count;
    count <= NODES && 1 <= count && (0..count).all(|k| node_obeys(table.nodes[k], k))
}
