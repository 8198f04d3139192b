// The head of a sheet: `chan=`, `c=` lines, `p=` lines, `step=`, `drift=`, in this order. Each line reader answers the place of the next line, so one line more is one reader more.
#![tactic(auto)]

ghost use Rattle.std.specs.Prelude.{◌≡◌};
ghost use Rattle.heads.specs.Form.{no_head};
ghost use Rattle.heads.specs.Reading.{head_of};

use recordings::Setup;
use text::Read;

// What the head's lines say.
#[derive(Clone, Copy)]
pub struct Head {
    pub setup: Setup,
    pub step: u64,
    pub drift: u64,
}

// The head of no sheet.
pub fn no_head() -> Head
    ensures { result ≡ no_head }
{
    let setup = Setup {
        channels: 0,
        scales: scale_lines::no_scales(),
        predicates: predicate_lines::unset_predicates(),
    };
    Head {
        setup,
        step: 0,
        drift: 0,
    }
}

// The head of a text, and the place of the line behind it.
#[tactic(auto, unfolding(crate::specs::Reading::head_of))]
pub fn read_head(s: &[u8]) -> Option<Read<Head>>
    ensures { result ≡ head_of s.now }
{
    let channels = number_lines::read_number(s, 0, b"chan=")?;
    let scales = scale_lines::read_scales(s, channels.next, channels.value as usize)?;
    let predicates = predicate_lines::read_predicates(s, scales.next)?;
    let step = number_lines::read_number(s, predicates.next, b"step=")?;
    let drift = number_lines::read_number(s, step.next, b"drift=")?;
    let all = predicates.value;
    let setup = Setup {
        channels: channels.value as usize,
        scales: scales.value,
        predicates: all,
    };
    let value = Head {
        setup,
        step: step.value,
        drift: drift.value,
    };
    Some(Read {
        value,
        next: drift.next,
    })
}
