// Words and numbers, printed one behind the other into a buffer of a fixed length, and a word into a lent slice. A byte that has no place is left out.
#![tactic(auto, using(crate::proofs::Printed::printed_append, crate::proofs::Decimal::decimal_one, crate::proofs::Decimal::decimal_more), unfolding(crate::specs::Output::printed))]

ghost use Rattle.std.specs.Prelude.{◌≡◌, [], ◌∷◌, take};
ghost use Rattle.printing.specs.Decimal.{decimal, decimal_signed};
ghost use Rattle.printing.specs.Output.{blank, output, printed};

use std::marker::Model;

fn byte(out: &mut [u8], at: usize, b: u8) -> usize
    ensures { output out.new result ≡ printed (output out.old at) (b ∷ []) }
{
    if out.len() <= at {
        return at;
    }
    out[at] = b;
    at + 1
}

// A word in a lent slice, from a place on. Answers the place behind it.
pub fn word(out: &mut [u8], at: usize, word: &[u8]) -> usize
    ensures { output out.new result ≡ printed (output out.old at) word.now }
{
    let mut next = at;
    for b in word.iter() {
        next = byte(out, next, *b);
    }
    next
}

// What is printed: the bytes in front of `end`.
#[derive(Drop)]
pub struct Output<const N: usize> {
    bytes: [u8; N],
    end: usize,
}

// Clauses see the record of specs/Output.
impl<const N: usize> Model for Output<N> {
    ghost use Rattle.std.specs.Prelude.{◌≤◌};
    ghost use Rattle.printing.specs.Output.{Output as Printed};

    ghost Value = { Printed };

    ghost view = { λ o. record { bytes = o.bytes; end = o.end } };

    ghost invariant = { λ o. o.end ≤ N };
}

impl<const N: usize> Output<N> {
    // Nothing is printed yet.
    pub fn new() -> Self
        ensures { result ≡ blank N }
    {
        Output {
            bytes: [0; N],
            end: 0,
        }
    }

    // The bytes that were printed.
    pub fn as_slice(&self) -> &[u8]
        ensures { result.now ≡ take self.now.end self.now.bytes }
    {
        &self.bytes[..self.end]
    }

    pub fn byte(&mut self, b: u8)
        ensures { self.new ≡ printed self.old (b ∷ []) }
    {
        if self.end < N {
            self.bytes[self.end] = b;
            self.end += 1;
        }
    }

    // A fixed word.
    pub fn word(&mut self, word: &[u8])
        ensures { self.new ≡ printed self.old word.now }
    {
        for b in word.iter() {
            self.byte(*b);
        }
    }

    // A number in decimal digits. It is not left to `write!`, which promises a text only where it answers `Ok`, and does not say when it does.
    pub fn number(&mut self, n: u64)
        ensures { self.new ≡ printed self.old (decimal n) }
    {
        if 10 <= n {
            self.number(n / 10);
        }
        self.byte(b'0' + (n % 10) as u8);
    }

    // A number with its sign, where it is negative.
    pub fn signed(&mut self, v: i64)
        ensures { self.new ≡ printed self.old (decimal_signed v) }
    {
        if v < 0 {
            self.word(b"-");
        }
        self.number(v.unsigned_abs());
    }
}
