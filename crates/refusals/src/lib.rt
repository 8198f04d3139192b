// The papers' refusals. How the one that counts is found, and laws of it that every reader, margin and verdict cites, stand in specs/ and proofs/.
#![tactic(auto)]

ghost use Rattle.std.specs.Prelude.{◌≡◌};
ghost use Rattle.refusals.specs.Number.{number};

// What is broken or not fit to be judged, each by the papers' number.
#[derive(Clone, Copy, PartialEq, Eq)]
pub enum Refusal {
    Sheet = 1,
    Requirement = 2,
    Table = 3,
    Channels = 4,
    Samples = 5,
    Times = 6,
    Values = 7,
    Work = 8,
    Step = 9,
    Gap = 10,
    Jump = 11,
    Requirements = 12,
    Scales = 13,
    Limits = 14,
    Room = 15,
    Nesting = 16,
}

impl From<Refusal> for u64 {
    ghost from_gives = { λ refusal n. n ≡ number refusal };

    fn from(refusal: Refusal) -> u64 {
        refusal as u64
    }
}
