// Reads the requirement lines of a sheet, `req=` and any bytes up to the line feed, one after another. All are counted, so that a seventeenth is seen; the places of the first
// sixteen are kept.
#![tactic(auto)]

ghost use Rattle.std.specs.Prelude.{◌≡◌, ◌≤◌, length};
ghost use Rattle.requirement_lines.specs.Form.{nowhere};
ghost use Rattle.requirement_lines.specs.Reading.{until_feed, requirement_at, requirements_at, stored};

use text::Read;

// The most requirements of a sheet.
pub const MOST: usize = 16;

// A requirement's first place, and the place behind its last.
#[derive(Clone, Copy)]
pub struct Place {
    pub from: usize,
    pub to: usize,
}

// How many requirement lines there are, and the places of the first sixteen.
#[derive(Clone, Copy)]
pub struct Requirements {
    pub count: usize,
    pub places: [Place; MOST],
}

// How many bytes stand before the first line feed of a text, all of them where there is none.
fn before_feed(s: &[u8]) -> usize
    ensures value { result ≡ length (until_feed s.now) }
    ensures bound { result ≤ length s.now }
{
    s.iter().take_while(|b| **b != b'\n').count()
}

// The line `req=`: the requirement is what follows the equals sign, up to the line feed.
#[tactic(auto, unfolding(crate::specs::Reading::requirement_at))]
fn read_line(s: &[u8], at: usize) -> Option<Read<Place>>
    ensures { result ≡ requirement_at s.now at }
{
    let from = text::read_mark(s, at, b"req=")?;
    let to = from + before_feed(&s[from..]);
    let next = text::read_mark(s, to, b"\n")?;
    let value = Place { from, to };
    Some(Read { value, next })
}

// No requirement.
pub fn nowhere() -> [Place; MOST]
    ensures { result ≡ nowhere }
{
    let none = Place { from: 0, to: 0 };
    [none; MOST]
}

// The requirements whose lines follow one another from a place on. A line has a byte at least, so the count stays below the next line's place.
pub fn read_requirements(s: &[u8], at: usize) -> Option<Read<Requirements>>
    ensures { result ≡ stored (requirements_at s.now at) }
{
    let mut places = nowhere();
    let mut count = 0;
    let mut next = at;
    // Each line says where the next one begins, so no range counts the turns.
    while text::key_at(s, next, b"req=") {
        let line = read_line(s, next)?;
        if count < MOST {
            places[count] = line.value;
        }
        count += 1;
        next = line.next;
    }
    let value = Requirements { count, places };
    Some(Read { value, next })
}
