// Predicates on a card's channels and the channels' scales, a card's setup, the three verdicts, and the limits of a recording. Their meaning is in specs/.
#![tactic(auto)]

ghost use Rattle.std.specs.Prelude.{◌≡◌};
ghost use Rattle.recordings.specs.Distance.{is_unset, is_free};

// A recording has at most so many samples and channels.
pub const MOST_ROWS: usize = 4_096;

pub const MOST_CHANNELS: usize = 8;

// No time is later.
pub const LATEST: u64 = 2_000_000_000;

// No value and no end of a range is farther from zero, on either side.
pub const FARTHEST: i64 = 1_000_000_000;

pub const LONGEST_STEP: u64 = 1_000_000_000;

pub const LARGEST_DRIFT: u64 = 1_000_000_000;

// No scale is larger.
pub const MOST_SCALE: u64 = 1_000;

// No margin is further from zero; its distance is what a free range and true have.
pub const TOP: i64 = 4_000_000_000_000;

// The numbers that a predicate asks for. The ends belong to the range.
#[derive(Clone, Copy)]
pub enum Range {
    Unset,
    Free,
    AtLeast(i64),
    AtMost(i64),
    Between(i64, i64),
}

pub fn is_unset(range: Range) -> bool
    ensures { result ≡ is_unset range }
{
    matches!(range, Range::Unset)
}

// Whether every number is inside the range; unset reads as free.
pub fn is_free(range: Range) -> bool
    ensures { result ≡ is_free range }
{
    matches!(range, Range::Unset | Range::Free)
}

// A channel together with a range. A requirement names one of sixteen of them by its number.
#[derive(Clone, Copy)]
pub struct Predicate {
    pub channel: usize,
    pub range: Range,
}

// The scales that were passed: the first `count` of eight, one for each channel. A count above eight passes all eight.
#[derive(Clone, Copy)]
pub struct Scales {
    pub count: usize,
    pub each: [u64; MOST_CHANNELS],
}

// What a card is judged with beside its samples. It is handed on whole, so that what joins it moves no signature.
#[derive(Clone, Copy)]
pub struct Setup {
    pub channels: usize,
    pub scales: Scales,
    pub predicates: [Predicate; 16],
}

// A recording as its caller lends it, with the setup that it is judged by.
#[derive(Clone, Copy)]
pub struct Recording<'a> {
    pub setup: Setup,
    pub times: &'a [u64],
    pub values: &'a [i64],
}

#[derive(Clone, Copy)]
pub enum Verdict {
    Holds,
    Fails,
    NotShown,
}
