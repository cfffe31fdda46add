// Standard input, block by block.
use crate::line;
use crate::line::LONGEST;
use crate::sets::Sets;
use std::alloc::{AllocError, Global};
use std::io;
use std::io::{BufRead, Write};

const NEWLINE: u8 = b'\n';

// Adds the next part of a line. Of a line that is too long no more is kept than shows that it is.
fn keep(line: &mut Vec<u8>, part: &[u8]) -> Result<(), AllocError> {
    let room = (LONGEST + 1).saturating_sub(line.len());
    line.extend_from_slice(&part[..room.min(part.len())])
}

// Answers line after line, to the end of the input; what a block answers is written before the next
// one is waited for. A last line that no newline ends gets one. The turns are counted, since a proved
// loop has to end, and no run uses them up.
pub fn answer_all<R: BufRead, W: Write>(
    alloc: Global,
    input: &mut R,
    out: &mut W,
) -> io::Result<()> {
    let mut sets = Sets::new(alloc);
    let mut unfinished = Vec::new(alloc);
    for _ in 0..u64::MAX {
        let block = input.fill_buf()?;
        let read = block.len();
        if read == 0 {
            break;
        }
        for part in block.split_inclusive(|byte| *byte == NEWLINE) {
            match part.strip_suffix(&[NEWLINE]) {
                None => keep(&mut unfinished, part)?,
                Some(whole) if unfinished.is_empty() => line::answer(alloc, whole, &mut sets, out)?,
                Some(end) => {
                    keep(&mut unfinished, end)?;
                    line::answer(alloc, &unfinished, &mut sets, out)?;
                    unfinished.clear();
                }
            }
        }
        out.flush()?;
        input.consume(read);
    }
    if !unfinished.is_empty() {
        line::answer(alloc, &unfinished, &mut sets, out)?;
    }
    out.flush()
}
