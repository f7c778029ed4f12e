// The cases of standard input, one a line, each answered by one line.
//
// A case is a letter and its arguments, exactly one space before each: decimal numbers, and byte strings as pairs of
// capital hex digits, `-` where empty. A line that is no case is answered by `?`.
#![tactic(auto)]

mod cases;
mod frames;
mod line_words;
mod print;
mod rows;
mod walks;
mod writes;

use arrayvec::ArrayVec;
use cases::respond;
use std::io;
use std::io::{Read, Write};

// Every line of the text.
fn each(out: &mut impl Write, s: &[u8]) -> io::Result<()> {
    for line in s.split_inclusive(|&c| c == b'\n') {
        respond(out, line.strip_suffix(b"\n").unwrap_or(line))?;
    }
    Ok(())
}

// All of standard input that there is room for. (A longer one would be cut, and its missing lines seen.)
fn main(rt: HostRuntime) -> io::Result<()> {
    let mut text = ArrayVec::<u8, 1048576>::new();
    io::copy(&mut rt.reader().take(1048576), &mut text)?;
    each(&mut io::writer(&rt), &text)
}
