// Reads the scale lines of a sheet's head, `c= scale=`: one for each channel, in order.
#![tactic(auto)]

ghost use Rattle.std.specs.Prelude.{◌≡◌, []};
ghost use Rattle.recordings.specs.Card.{passed};
ghost use Rattle.scale_lines.specs.Form.{due};
ghost use Rattle.scale_lines.specs.Reading.{line_at, scales_at};

use recordings::Scales;
use text::{Field, Read};

// How many scale lines are due: one for each channel where there are 1 to 8, and otherwise none.
#[tactic(auto, unfolding(crate::specs::Form::due))]
fn lines_due(channels: usize) -> usize
    ensures { result ≡ due channels }
{
    if channels <= recordings::MOST_CHANNELS {
        channels
    } else {
        0
    }
}

// The line of a channel: its scale and the place of the next line.
#[tactic(auto, unfolding(crate::specs::Reading::line_at))]
fn read_line(s: &[u8], at: usize, channel: usize) -> Option<Read<u64>>
    ensures { result ≡ line_at s.now at channel }
{
    let Field::Number(number, end) = text::read_field(s, at, b"c=", text::LARGEST) else {
        return None;
    };
    if number as usize != channel {
        return None;
    }
    number_lines::read_number(s, end, b" scale=")
}

// The scales of no lines.
pub fn no_scales() -> Scales
    ensures { result ≡ passed [] }
{
    Scales {
        count: 0,
        each: [0; recordings::MOST_CHANNELS],
    }
}

// The scales of the lines from a place on, as many as are due.
#[tactic(auto, using(std::proofs::lemmas::Grind::common_steps, crate::proofs::Steps::turns))]
pub fn read_scales(s: &[u8], at: usize, channels: usize) -> Option<Read<Scales>>
    ensures { result ≡ scales_at s.now at channels }
{
    let count = lines_due(channels);
    let mut each = [0; recordings::MOST_CHANNELS];
    let mut next = at;
    for channel in 0..count {
        let scale = read_line(s, next, channel)?;
        each[channel] = scale.value;
        next = scale.next;
    }
    let value = Scales { count, each };
    Some(Read { value, next })
}
