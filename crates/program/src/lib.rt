// Reads a text and prints its answer. A call that a signal interrupts is made again. A proved loop has to end, and nothing says that signals do, so each loop counts its turns
// up to a number that no run reaches.
#![tactic(auto)]

ghost use Rattle.std.specs.Prelude.{length, OnOk, IfSome};
ghost use Rattle.std.specs.Io.KnownBytes.{Appends};
ghost use Rattle.answers.specs.Answers.{answers_of};
ghost use Rattle.outcome_lines.specs.Printed.{lines_of};
ghost use Rattle.program.specs.Input.{Within, Reads, AppendsFront};

use std::io;
use std::io::{ErrorKind, Read, Write};

// One byte more than a text may have, which shows that it is too long.
const ROOM: usize = row_lines::LIMIT + 1;

// Reads until the text is full or the reader ends, and gives the count of bytes.
fn read_text<R: Read>(reader: &mut R, text: &mut [u8]) -> io::Result<usize>
    ensures within { Within result (length text.new) }
    ensures bytes { Reads result text.new (R.remaining reader.old) }
{
    let mut done: usize = 0;
    for _ in 0..u64::MAX {
        if done == text.len() {
            return Ok(done);
        }
        match reader.read(&mut text[done..]) {
            Ok(0) => return Ok(done),
            Ok(more) => done += more,
            Err(error) if error.kind() == ErrorKind::Interrupted => {}
            Err(error) => return Err(error),
        }
    }
    Err(io::Error::from(ErrorKind::Interrupted))
}

// Stops where nothing more can be written, as on a closed output.
fn write_lines<W: Write>(writer: &mut W, lines: &[u8]) -> io::Result<()>
    ensures whole { OnOk result (Appends (W.contents writer.old) (W.contents writer.new) lines.now) }
    ensures front { AppendsFront (W.contents writer.old) (W.contents writer.new) lines.now }
{
    let mut done: usize = 0;
    for _ in 0..u64::MAX {
        if done == lines.len() {
            return Ok(());
        }
        match writer.write(&lines[done..]) {
            Ok(0) => return Err(io::Error::from(ErrorKind::WriteZero)),
            Ok(more) => done += more,
            Err(error) if error.kind() == ErrorKind::Interrupted => {}
            Err(error) => return Err(error),
        }
    }
    Err(io::Error::from(ErrorKind::Interrupted))
}

// The answers to the text that a reader gives; nothing where it cannot be read.
pub fn answer_from<R: Read, W: Write>(reader: &mut R, writer: &mut W) -> io::Result<()>
    ensures whole { OnOk result (IfSome (R.remaining reader.old)
        (λ xs. Appends (W.contents writer.old) (W.contents writer.new) (lines_of (answers_of xs)))) }
    ensures front { IfSome (R.remaining reader.old)
        (λ xs. AppendsFront (W.contents writer.old) (W.contents writer.new) (lines_of (answers_of xs))) }
{
    let mut text = [0u8; ROOM];
    let count = read_text(reader, &mut text)?;
    let lines = answers::printed_answers(&text[..count]);
    write_lines(writer, lines.as_slice())
}
