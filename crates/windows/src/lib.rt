// A node's window as the rows read it, and its strengthening. An end that stands for no end is told apart before anything is added to it.
#![tactic(auto)]

ghost use Rattle.std.specs.Prelude.{◌≡◌, ◌-◌, ◌≤◌};
ghost use Rattle.logic.specs.Strengthening.{sooner, later, delayed, contraction, expansion, strengthen_window};
ghost use Rattle.tables.specs.Tree.{NO_END, window};
ghost use Rattle.tables.specs.Rules.{WindowRules};
ghost use Rattle.tables.specs.Closed.{closed_span};
ghost use Rattle.windows.specs.Bounds.{Short, ShortStop};

use logic::{Extremum, Stop, Window};
use tables::{Node, Span};

// The same window with both ends counted: an excluded low end is read as lo + 1, an excluded high end as hi - 1. Nothing else reads a mark for what it means.
pub fn closed(w: Span) -> Span
    requires { WindowRules w }
    ensures { result ≡ closed_span w }
{
    Span {
        lo: w.lo + w.openlo,
        hi: w.hi - w.openhi,
        openlo: 0,
        openhi: 0,
    }
}

// The window as it is read.
pub fn plain(node: Node) -> Window
    requires { WindowRules node.span }
    ensures { result ≡ window node }
{
    let Span { lo, hi, .. } = closed(node.span);
    let stop = if hi == tables::NO_END {
        Stop::Endless
    } else {
        Stop::Before(hi + 1)
    };
    Window { from: lo, stop }
}

// An end that is so much sooner, not below 0. No end remains no end.
fn sooner(step: u64, stop: Stop) -> Stop
    ensures { result ≡ sooner step stop }
{
    match stop {
        Stop::Endless => Stop::Endless,
        Stop::Before(end) => Stop::Before(end.saturating_sub(step)),
    }
}

// An end that is so much later.
fn later(step: u64, stop: Stop) -> Stop
    requires { ShortStop stop × (step ≤ NO_END) }
    ensures { result ≡ later step stop }
{
    match stop {
        Stop::Endless => Stop::Endless,
        Stop::Before(end) => Stop::Before(end + step),
    }
}

// A start that is so much later. One that is now stays: no time comes before it.
fn delayed(step: u64, from: u64) -> u64
    requires { (from ≤ NO_END) × (step ≤ NO_END) }
    ensures { result ≡ delayed step from }
{
    if from == 0 { 0 } else { from + step }
}

// The source's contraction: where the step is longer than the window, nothing is left.
fn contracted(step: u64, w: Window) -> Window
    requires { Short w × (step ≤ NO_END) }
    ensures { result ≡ contraction step w }
{
    Window {
        from: delayed(step, w.from),
        stop: sooner(step, w.stop),
    }
}

// The source's expansion, not below 0.
fn expanded(step: u64, w: Window) -> Window
    requires { Short w × (step ≤ NO_END) }
    ensures { result ≡ expansion step w }
{
    Window {
        from: w.from.saturating_sub(step),
        stop: later(step, w.stop),
    }
}

// Until and eventually contract their windows, release and always expand them.
pub fn strengthened(e: Extremum, step: u64, w: Window) -> Window
    requires { Short w × (step ≤ NO_END) }
    ensures { result ≡ strengthen_window e step w }
{
    match e {
        Extremum::Largest => contracted(step, w),
        Extremum::Smallest => expanded(step, w),
    }
}
