// Reads requirement text into a table: nodes stand left, right, parent, none shared.
// alternative, conjunction, bind and unary are the grammar's parts; each reader keeps the nodes of its part from the next free number on.
#![tactic(auto)]

ghost use Rattle.std.specs.Prelude.{◌≡◌};
ghost use Rattle.grammar.specs.Reading.{unary_at, bind_at, part_at, more};
ghost use Rattle.building.specs.Storing.{zeros, Done};
ghost use Rattle.requirements.specs.Requirement.{outcome, requirement_of, Numbered};

use building::Subtree;
use grammar::{Operator, Part};
use refusals::Refusal;
use tables::Table;

// At most so many of `!`, `G`, `F` and `(` enclose one another.
const ENCLOSINGS: usize = 32;

// A part of the grammar: alternative = conjunction, then any count of `|` conjunction; conjunction = bind, then any count of `&` bind; both are grouped to the left.
#[cycle(readers)]
fn read_part(
    part: Part,
    s: &[u8],
    at: usize,
    depth: usize,
    free: usize,
    cells: &mut [u64; building::CELLS],
) -> Option<Subtree>
    ensures { Done free (part_at part depth s.now at) result cells.old cells.new }
{
    match part {
        Part::Alternative => read_grouped(Part::Conjunction, tables::OR, s, at, depth, free, cells),
        Part::Conjunction => read_grouped(Part::Bind, tables::AND, s, at, depth, free, cells),
        Part::Bind => read_bind(s, at, depth, free, cells),
        Part::Unary => read_unary(s, at, depth, free, cells),
    }
}

// A part, then any count of a kind's letter and such a part, grouped to the left.
#[cycle(readers)]
fn read_grouped(
    part: Part,
    kind: u64,
    s: &[u8],
    at: usize,
    depth: usize,
    free: usize,
    cells: &mut [u64; building::CELLS],
) -> Option<Subtree>
    ensures { Done free (more (part_at part depth) kind s.now (part_at part depth s.now at)) result cells.old cells.new }
{
    let mut left = read_part(part, s, at, depth, free, cells)?;
    while let Some(next) = operators::read_letter(s, left.end, kind) {
        let right = read_part(part, s, next, depth, left.free, cells);
        left = building::join(kind, tables::no_span(), left.root, right, cells)?;
    }
    Some(left)
}

// unary = `!` unary, `G` or `F` window unary, `T`, `p` with 0 to 15, or a parenthesised alternative.
#[cycle(readers)]
fn read_unary(
    s: &[u8],
    at: usize,
    depth: usize,
    free: usize,
    cells: &mut [u64; building::CELLS],
) -> Option<Subtree>
    ensures { Done free (unary_at depth s.now at) result cells.old cells.new }
{
    if depth == 0 {
        return building::read_leaf(s, at, free, cells);
    }
    if let Some(inside) = text::read_mark(s, at, b"(") {
        let inner = read_part(Part::Alternative, s, inside, depth - 1, free, cells);
        return building::close(s, inner);
    }
    match operators::read_prefix(s, at) {
        Operator::Absent => building::read_leaf(s, at, free, cells),
        Operator::Over(kind, span, next) => building::wrap(
            kind,
            span,
            read_unary(s, next, depth - 1, free, cells),
            cells,
        ),
        Operator::Bad => None,
    }
}

// bind = unary, optionally followed by `U` or `R`, a window and a unary.
#[cycle(readers)]
fn read_bind(
    s: &[u8],
    at: usize,
    depth: usize,
    free: usize,
    cells: &mut [u64; building::CELLS],
) -> Option<Subtree>
    ensures { Done free (bind_at depth s.now at) result cells.old cells.new }
{
    let left = read_unary(s, at, depth, free, cells)?;
    match operators::read_binder(s, left.end) {
        Operator::Absent => Some(left),
        Operator::Over(kind, span, next) => building::join(
            kind,
            span,
            left.root,
            read_unary(s, next, depth, left.free, cells),
            cells,
        ),
        Operator::Bad => None,
    }
}

// Reads a requirement text into cells that are all 0: its table's numbers, and how many nodes there are, so that who wants those alone pays for no table.
pub fn read_numbers(text: &[u8], cells: &mut [u64; building::CELLS]) -> Result<usize, Refusal>
    requires { cells.old ≡ zeros }
    ensures { Numbered (requirement_of text.now) result cells.new }
{
    match read_part(Part::Alternative, text, 0, ENCLOSINGS, 0, cells) {
        Some(whole) if whole.end == text.len() => Ok(whole.free),
        _ => Err(Refusal::Requirement),
    }
}

// The whole text, within the limits of enclosings and nodes.
pub fn read_requirement(text: &[u8]) -> Result<Table, Refusal>
    ensures { outcome result ≡ requirement_of text.now }
{
    let mut cells = [0u64; building::CELLS];
    let count = read_numbers(text, &mut cells)?;
    Ok(building::table_from(&cells, count))
}
