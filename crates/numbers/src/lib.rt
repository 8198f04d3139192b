// The smaller and the larger of two signed 64-bit numbers, whether one is at most the other, their difference and their product, and a number's negative.
// Only these functions compare, subtract or multiply margins, so that no proof above them sees how a sign is stored.
#![tactic(auto)]

ghost use Rattle.std.specs.Prelude.{◌≡◌, neg_ℤ, ◌-ℤ◌, ◌*ℤ◌, nat_abs};
ghost use Rattle.std.specs.Int.Signed.{le_z};
ghost use Rattle.std.specs.Int.{w64};
ghost use Rattle.std.proofs.Common.{SFits};
ghost use Rattle.numbers.specs.Order.{smaller_of, larger_of};

pub fn smaller(a: i64, b: i64) -> i64
    ensures { result ≡ smaller_of a b }
{
    a.min(b)
}

pub fn larger(a: i64, b: i64) -> i64
    ensures { result ≡ larger_of a b }
{
    a.max(b)
}

// Whether a is not above b.
pub fn at_most(a: i64, b: i64) -> bool
    ensures { result ≡ le_z a b }
{
    a <= b
}

pub fn negated(a: i64) -> i64
    requires { SFits w64 (neg_ℤ a) }
    ensures { result ≡ neg_ℤ a }
{
    -a
}

pub fn difference(a: i64, b: i64) -> i64
    requires { SFits w64 (a -ℤ b) }
    ensures { result ≡ a -ℤ b }
{
    a - b
}

pub fn product(a: i64, b: i64) -> i64
    requires { SFits w64 (a *ℤ b) }
    ensures { result ≡ a *ℤ b }
{
    a * b
}

// The number without its sign.
pub fn magnitude(a: i64) -> u64
    ensures { result ≡ nat_abs a }
{
    a.unsigned_abs()
}
