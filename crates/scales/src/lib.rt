// Refusal 13: whether the scales that were passed are in range. Its sentence is in recordings/specs/Accepted.
#![tactic(auto)]

ghost use Rattle.std.specs.Prelude.{◌≡◌};
ghost use Rattle.scales.specs.Scales.{scale_obeys, passed_obeys, scales_obey};

use recordings::{MOST_CHANNELS, MOST_SCALE, Scales};

#[tactic(auto, unfolding(crate::specs::Scales::scale_obeys))]
pub fn scale_obeys(scale: u64) -> bool
    ensures { result ≡ scale_obeys scale }
{
    (1 <= scale) & (scale <= MOST_SCALE)
}

// A place from the count on holds no scale that was passed.
#[tactic(auto, unfolding(crate::specs::Scales::passed_obeys))]
fn passed_obeys(count: usize, channel: usize, scale: u64) -> bool
    ensures { result ≡ passed_obeys count channel scale }
{
    (count <= channel) | scale_obeys(scale)
}

pub fn scales_obey(scales: Scales) -> bool
    ensures { result ≡ scales_obey scales }
{
    (0..MOST_CHANNELS).all(|channel| passed_obeys(scales.count, channel, scales.each[channel]))
}
