// What the pieces of a requirement text are, before they are put together: the operators, with their windows; and the grammar's parts.
#![tactic(auto)]

ghost use Rattle.std.specs.Prelude.{◌≡◌};
ghost use Rattle.grammar.specs.Reading.{or_else};

use tables::Span;

// An operator that may stand at a place: its kind, its window and the place after it. Bad is a letter without its window.
#[derive(Clone, Copy)]
pub enum Operator {
    Absent,
    Over(u64, Span, usize),
    Bad,
}

impl Operator {
    // This operator, or the second where this one is absent.
    pub fn or(self, second: Operator) -> Operator
        ensures { result ≡ or_else self second }
    {
        match self {
            Operator::Absent => second,
            found => found,
        }
    }
}

// The parts of the grammar, each made of those after it, and ordered so; a parenthesis makes a unary of an alternative.
#[derive(Clone, Copy, PartialEq, Eq, PartialOrd, Ord)]
pub enum Part {
    Alternative,
    Conjunction,
    Bind,
    Unary,
}
