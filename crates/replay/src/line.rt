// One line: it is written back up to its mark, with the answer after it.
use crate::answer::Refused;
use crate::ask;
use crate::question::Question;
use crate::sets::Sets;
use crate::words::Unread;
use std::alloc::Global;
use std::io;
use std::io::{ErrorKind, Write};

// The longest line that can be read.
pub const LONGEST: usize = 8191;

// How much of a longer one is written back.
const SHOWN: usize = 64;

// It stands between a question and its answer.
const MARK: &[u8] = b" = ";

// What stands before the first mark: the whole line, where there is none.
fn question_part(line: &[u8]) -> &[u8] {
    match line.windows(MARK.len()).position(|part| part == MARK) {
        Some(at) => &line[..at],
        None => line,
    }
}

// What is written back of a line that is too long.
fn beginning(line: &[u8]) -> &[u8] {
    &line[..line.len().min(SHOWN)]
}

fn answer_question<W: Write>(
    alloc: Global,
    question: &[u8],
    sets: &Sets,
    out: &mut W,
) -> io::Result<()> {
    out.write_all(question)?;
    match Question::read(alloc, question) {
        Ok(asked) => match ask::answer(asked, sets) {
            Ok(answer) => writeln!(out, " = {answer}"),
            Err(why) => writeln!(out, " = {}", Refused(why)),
        },
        Err(Unread::Malformed) => writeln!(out, " = malformed"),
        Err(Unread::OutOfMemory) => Err(ErrorKind::OutOfMemory.into()),
    }
}

pub fn answer<W: Write>(
    alloc: Global,
    line: &[u8],
    sets: &mut Sets,
    out: &mut W,
) -> io::Result<()> {
    if line.len() > LONGEST {
        out.write_all(beginning(line))?;
        return writeln!(out, " = malformed");
    }
    match sets.take(alloc, line) {
        Ok(()) => {
            out.write_all(line)?;
            writeln!(out)
        }
        Err(Unread::Malformed) => answer_question(alloc, question_part(line), sets, out),
        Err(Unread::OutOfMemory) => Err(ErrorKind::OutOfMemory.into()),
    }
}
