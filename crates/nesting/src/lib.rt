// Refusal 16: whether a temporal operator stands inside another. Of each node it is noted whether a temporal operator stands in it, and a temporal node asks that of its operands.
#![tactic(auto)]

ghost use Rattle.std.specs.Prelude.{◌≡◌};
ghost use Rattle.tables.specs.Kind.{operator};
ghost use Rattle.tables.specs.Rules.{TableRules};
ghost use Rattle.nesting.specs.Nesting.{nodes_unnested};
ghost use Rattle.nesting.specs.Operands.{in_operands};

use tables::Table;

// Whether a temporal operator stands in one of a node's operands, from what was noted of the nodes that its left and right number name.
fn operands_timed(kind: u64, left: bool, right: bool) -> bool
    ensures { result ≡ in_operands (operator kind) left right }
{
    (tables::has_left(kind) & left) | (tables::has_right(kind) & right)
}

// A node's operands are earlier nodes, so one walk from the first node on is enough.
pub fn unnested(table: Table) -> bool
    requires { TableRules table }
    ensures { result ≡ nodes_unnested table.nodes table.count }
{
    let mut timed = [false; tables::NODES];
    let mut ok = true;
    for k in 0..table.count {
        let node = table.nodes[k];
        let here = tables::is_timed(node.kind);
        let below = operands_timed(node.kind, timed[node.left], timed[node.right]);
        ok &= !(here & below);
        timed[k] = here | below;
    }
    ok
}
