// Reads case lines from standard input, and writes each back with its own answer.
#![tactic(auto)]

mod answer;
mod ask;
mod hash;
mod input;
mod line;
mod published;
mod question;
mod sets;
mod words;

use std::io;
use std::io::{BufReader, BufWriter};

const BUFFER: usize = 65536;

fn main(rt: HostRuntime) -> io::Result<()> {
    let mut input = BufReader::with_capacity(rt.alloc(), BUFFER, rt.reader())?;
    let mut out = BufWriter::with_capacity(rt.alloc(), BUFFER, io::writer(&rt))?;
    input::answer_all(rt.alloc(), &mut input, &mut out)
}
