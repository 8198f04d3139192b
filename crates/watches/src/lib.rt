// A margin while the card runs. A watch is made from a table, its predicates and scales, takes one row at a time and tells the margin of the rows that it has accepted, without
// storing them: its size is fixed. It is a struct by value; `make`, `take` and `tell` are the same for a watch that a caller lends as two slices, and nothing is copied there.
#![tactic(auto)]

ghost use Rattle.std.specs.Prelude.{◌≡◌, map, ◌≤◌, ◌<◌, ◌+◌, ◌-◌, ◌*◌, min, eqb, pos, length, get_or, OnOk, IfErr};
ghost use Rattle.lists.specs.Fill.{fill};
ghost use Rattle.lists.specs.Front.{written};
ghost use Rattle.flat.specs.Predicates.{ends_of};
ghost use Rattle.recordings.specs.Card.{Card, rows};
ghost use Rattle.recordings.specs.Margin.{margin};
ghost use Rattle.recordings.specs.Accepted.{LATEST, Values};
ghost use Rattle.tables.specs.declared.Table.{Table};
ghost use Rattle.tables.specs.Tree.{NODES, root};
ghost use Rattle.tables.specs.Rules.{TableRules};
ghost use Rattle.refusals.specs.First.{first};
ghost use Rattle.refusals.specs.Number.{number_of};
ghost use Rattle.arrivals.specs.Arrivals.{watch_setup, no_rows, with_row, offer_refusal, accepted, margin_so_far};
ghost use Rattle.watch_cells.specs.State.{NUMBERS, CELLS, HELD_AT, kept_node};
ghost use Rattle.watches.specs.Watches.{Kept, Watches, Roomy, room_check, lent_checks, SameBehind, setup_numbers, fresh_numbers, fresh_cells, begun};
ghost use Rattle.watches.specs.Run.{lent, Watching, number_in, Took, Told};

use recordings::{Predicate, Scales, Setup};
use refusals::Refusal;
use tables::{Node, Table};
use watch_cells::{NODES_AT, RANGES_AT, SCALES_AT};

// The numbers in front: what the making was refused by, the count of nodes, the first time, the least time that the next row may have, 0 before the first,
// and the count of channels.
const REFUSAL: usize = 0;

const COUNT: usize = 1;

const START: usize = 2;

const NEXT: usize = 3;

const CHANNELS: usize = 4;

#[derive(Clone, Copy)]
pub struct Watch {
    pub numbers: [u64; Watch::NUMBERS],
    pub cells: [i64; Watch::CELLS],
}

impl Watch {
    // A watch is so many numbers and cells long, whatever it has seen.
    pub const NUMBERS: usize = NODES_AT + building::CELLS;

    pub const CELLS: usize = 224;

    // A fresh watch has seen no row. A refused making hands back a watch too, which gives its number to every later call.
    pub fn fresh(table: Table, predicates: [Predicate; 16], scales: Scales) -> Watch
        ensures { Watching result table (no_rows (watch_setup predicates scales)) }
    {
        let mut numbers = [0u64; Watch::NUMBERS];
        let mut cells = [0i64; Watch::CELLS];
        let _ = make(table, predicates, scales, &mut numbers, &mut cells);
        Watch { numbers, cells }
    }

    // One row more. A refused one leaves the watch as it was.
    pub fn row(&mut self, time: u64, values: &[i64]) -> Result<(), u64>
        ensures row { Took self.old (record { time = time; values = values.now }) (record { number = number_in result; watch = self.new }) }
        ensures some { IfErr result (λ n. 1 ≤ n) }
    {
        take(&mut self.numbers, &mut self.cells, time, values)
    }

    // The margin of the rows accepted so far.
    pub fn margin(&self) -> Result<i64, u64>
        ensures margin { Told self.now result }
        ensures some { IfErr result (λ n. 1 ≤ n) }
    {
        tell(&self.numbers, &self.cells)
    }
}

// Numbers written into a slice from a place on.
fn put_numbers(new: &[u64], out: &mut [u64], at: usize)
    requires { at + length new.now ≤ length out.old }
    ensures { out.new ≡ fill at (length new.now) (λ i. get_or new.now i 0) out.old }
{
    out[at..at + new.len()].copy_from_slice(new);
}

// Whether two slices have room for a watch.
fn is_roomy(numbers: usize, cells: usize) -> bool
    ensures { result ≡ (room_check numbers cells).passes }
{
    (Watch::NUMBERS <= numbers) & (Watch::CELLS <= cells)
}

// The predicates and the scales of a watch.
fn write_setup(predicates: [Predicate; 16], scales: Scales, numbers: &mut [u64], cells: &mut [i64])
    requires { NUMBERS ≤ length numbers.old }
    ensures numbers { numbers.new ≡ setup_numbers predicates scales numbers.old }
    ensures cells { cells.new ≡ written (ends_of predicates) cells.old }
{
    let mut ranges = [0u64; 32];
    flat::write_predicates(predicates, &mut ranges, cells);
    put_numbers(&ranges, numbers, RANGES_AT);
    let mut each = [0u64; recordings::MOST_CHANNELS];
    flat::write_scales(scales, &mut each);
    put_numbers(&each, numbers, SCALES_AT);
}

// The nodes hold nothing before the first row.
fn clear_nodes(cells: &mut [i64])
    requires { CELLS ≤ length cells.old }
    ensures { cells.new ≡ fill HELD_AT (3 * NODES) (λ i. pos 0) cells.old }
{
    rows::fill_same(3 * tables::NODES, 0, &mut cells[watch_cells::HELD_AT..]);
}

// A node as a watch keeps it: its window closed, so that no row asks for marks. A window that breaks the rules, of a refused making, stays as it is.
fn kept_node(node: Node) -> Node
    ensures { result ≡ kept_node node }
{
    if !tables::window_obeys(node.span) {
        return node;
    }
    Node {
        span: windows::closed(node.span),
        ..node
    }
}

fn kept_nodes(nodes: [Node; tables::NODES]) -> [Node; tables::NODES]
    ensures { result ≡ map kept_node nodes }
{
    nodes.map(kept_node)
}

// A fresh watch, whatever its making was refused by.
fn write_fresh(
    number: u64,
    table: Table,
    predicates: [Predicate; 16],
    scales: Scales,
    numbers: &mut [u64],
    cells: &mut [i64],
)
    requires { (NUMBERS ≤ length numbers.old) × (CELLS ≤ length cells.old) }
    ensures numbers { numbers.new ≡ fresh_numbers number table predicates scales numbers.old }
    ensures cells { cells.new ≡ fresh_cells predicates cells.old }
    ensures arrays { (length table.nodes ≡ NODES) × (length predicates ≡ 16) }
{
    let places = building::cells_of(kept_nodes(table.nodes));
    put_numbers(&places, numbers, NODES_AT);
    write_setup(predicates, scales, numbers, cells);
    let head = [number, table.count as u64, 0, 0, scales.count as u64];
    put_numbers(&head, numbers, 0);
    clear_nodes(cells);
}

// The number of what a making was refused by, 0 where nothing applies.
pub fn number_of(made: Result<(), Refusal>) -> u64
    ensures { result ≡ number_of made }
{
    match made {
        Ok(()) => 0,
        Err(refusal) => u64::from(refusal),
    }
}

// A fresh watch in two slices. A refused making leaves a watch there that gives its number to every later call; slices too short for a watch are left as they are.
pub fn make(
    table: Table,
    predicates: [Predicate; 16],
    scales: Scales,
    numbers: &mut [u64],
    cells: &mut [i64],
) -> Result<(), Refusal>
    ensures number { number_of result ≡ first (lent_checks (watch_setup predicates scales) table (length numbers.old) (length cells.old)) }
    ensures watch { Roomy (length numbers.old) (length cells.old) → Watching (lent numbers.new cells.new) table (no_rows (watch_setup predicates scales)) }
    ensures short { (Roomy (length numbers.old) (length cells.old) → ⊥) → (numbers.new ≡ numbers.old) × (cells.new ≡ cells.old) }
    ensures behind { SameBehind NUMBERS 0 numbers.old numbers.new × SameBehind CELLS (pos 0) cells.old cells.new }
{
    let setup = Setup {
        channels: scales.count,
        scales,
        predicates,
    };
    let made = arrivals::making_refusal(table, setup);
    if !is_roomy(numbers.len(), cells.len()) {
        return made.and(Err(Refusal::Work));
    }
    write_fresh(number_of(made), table, predicates, scales, numbers, cells);
    made
}

// The first refusal that applies to a row. It is a number, because that of the making stands in the watch, where a caller may have put any other.
fn offer_refusal(numbers: &[u64], time: u64, values: &[i64]) -> Result<(), u64>
    requires { NUMBERS ≤ length numbers.now }
    ensures number { (cells : _) (t : Table) (c : Card) → Watches numbers.now cells t c → number_in result ≡ offer_refusal c t (record { time = time; values = values.now }) }
    ensures early { OnOk result (time ≤ LATEST) }
    ensures values { OnOk result (Values values.now) }
    ensures some { IfErr result (λ n. 1 ≤ n) }
{
    let refusal = numbers[REFUSAL];
    if refusal != 0 {
        return Err(refusal);
    }
    arrivals::row_refusal(numbers[CHANNELS], numbers[NEXT], time, values)?;
    Ok(())
}

// Whether the row is the first; then its time is the first time.
fn begin(numbers: &mut [u64], time: u64) -> bool
    requires { NUMBERS ≤ length numbers.old }
    ensures first { result ≡ eqb (get_or numbers.old 3 0) 0 }
    ensures numbers { numbers.new ≡ begun time numbers.old }
{
    let opening = numbers[NEXT] == 0;
    if opening {
        numbers[START] = time;
    }
    opening
}

// A count of nodes. Numbers that no making left have no more than there is room for.
fn node_count(count: u64) -> usize
    ensures { result ≡ min count NODES }
{
    count.min(tables::NODES as u64) as usize
}

// A row that was accepted.
fn take_row(numbers: &mut [u64], cells: &mut [i64], time: u64, values: &[i64])
    requires { (NUMBERS ≤ length numbers.old) × (CELLS ≤ length cells.old) × (time ≤ LATEST) × Values values.now }
    ensures watch { (t : Table) (c : Card) → Watches numbers.old cells.old t c → offer_refusal c t (record { time = time; values = values.now }) ≡ 0 → Watches numbers.new cells.new t (with_row c (record { time = time; values = values.now })) }
    ensures behind { SameBehind NUMBERS 0 numbers.old numbers.new × SameBehind CELLS (pos 0) cells.old cells.new }
{
    let opening = begin(numbers, time);
    let since = time.saturating_sub(numbers[START]);
    let count = node_count(numbers[COUNT]);
    watch_cells::take_nodes(numbers, cells, values, opening, since, count);
    numbers[NEXT] = time + 1;
}

// One row more, in a watch that is lent. A refused one leaves it as it is.
pub fn take(numbers: &mut [u64], cells: &mut [i64], time: u64, values: &[i64]) -> Result<(), u64>
    ensures row { Took (lent numbers.old cells.old) (record { time = time; values = values.now }) (record { number = number_in result; watch = lent numbers.new cells.new }) }
    ensures short { (Roomy (length numbers.old) (length cells.old) → ⊥) → result ≡ Err 8 }
    ensures behind { SameBehind NUMBERS 0 numbers.old numbers.new × SameBehind CELLS (pos 0) cells.old cells.new }
    ensures some { IfErr result (λ n. 1 ≤ n) }
{
    if !is_roomy(numbers.len(), cells.len()) {
        return Err(u64::from(Refusal::Work));
    }
    offer_refusal(numbers, time, values)?;
    take_row(numbers, cells, time, values);
    Ok(())
}

// Where the root's margin stands: in the second of the nodes' runs, at the last node. The remainder gives numbers that no making left some node, too.
fn root_cell(count: u64) -> usize
    ensures { (result < CELLS) × (1 ≤ count → count ≤ NODES → result ≡ HELD_AT + NODES + (count - 1)) }
{
    watch_cells::HELD_AT + tables::NODES + (count as usize % tables::NODES + 63) % tables::NODES
}

// The root's margin at sample 0.
fn root_margin(numbers: &[u64], cells: &[i64]) -> i64
    requires { (NUMBERS ≤ length numbers.now) × (CELLS ≤ length cells.now) }
    ensures { (t : Table) (c : Card) → Kept numbers.now cells.now t c → TableRules t → 1 ≤ rows c → result ≡ margin c (root t) 0 }
{
    cells[root_cell(numbers[COUNT])]
}

// The margin of the rows accepted so far, of a watch that is lent.
pub fn tell(numbers: &[u64], cells: &[i64]) -> Result<i64, u64>
    ensures margin { Told (lent numbers.now cells.now) result }
    ensures short { (Roomy (length numbers.now) (length cells.now) → ⊥) → result ≡ Err 8 }
    ensures some { IfErr result (λ n. 1 ≤ n) }
{
    if !is_roomy(numbers.len(), cells.len()) {
        return Err(u64::from(Refusal::Work));
    }
    let refusal = numbers[REFUSAL];
    if refusal != 0 {
        return Err(refusal);
    }
    if numbers[NEXT] == 0 {
        return Err(u64::from(Refusal::Samples));
    }
    Ok(root_margin(numbers, cells))
}
