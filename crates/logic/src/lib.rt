// What a requirement's operators are told apart by, as the rows' loops need it. The semantics of requirements without recordings is in specs/,
// the sampling argument on lines of times in proofs/.
#![tactic(auto)]

ghost use Rattle.std.specs.Prelude.{◌≡◌};
ghost use Rattle.logic.specs.Formula.{dual};
ghost use Rattle.logic.specs.Negation.{turn};

// Which of two values an operator takes. "Or", until and eventually take the largest; "and", release and always, their duals, the smallest.
#[derive(Clone, Copy)]
pub enum Extremum {
    Largest,
    Smallest,
}

// Where a temporal operator looks: at later places.
#[derive(Clone, Copy)]
pub enum Direction {
    Future,
}

// The end of a window: none, or the first second past it. No Option: the definitions and their readers say Endless and Before, and `None` would not say which end it is.
#[derive(Clone, Copy)]
pub enum Stop {
    Endless,
    Before(u64),
}

// The seconds from `from` on that stand before `stop`, counted from a place's time. Half-open, so that an empty window needs no negative number.
#[derive(Clone, Copy)]
pub struct Window {
    pub from: u64,
    pub stop: Stop,
}

pub fn dual(e: Extremum) -> Extremum
    ensures { result ≡ dual e }
{
    match e {
        Extremum::Largest => Extremum::Smallest,
        Extremum::Smallest => Extremum::Largest,
    }
}

// An operator's extremum, or, where it is denied, that of its dual.
pub fn turn(affirmed: bool, e: Extremum) -> Extremum
    ensures { result ≡ turn affirmed e }
{
    if affirmed { e } else { dual(e) }
}
