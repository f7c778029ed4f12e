// The cases of whole frames: reading.
use crate::line_words::{STRING, number, string};
use crate::print::{answer as print_answer, no_case, words as print_words};
use std::io;
use std::io::Write;

pub(crate) fn bandwidth(line: &[u8]) -> u32 {
    (number(line, 1) % 4294967296) as u32
}

// The answer and the words lent, after the frame that a line says is read into them.
fn read_into(out: &mut impl Write, words: &mut [u32], line: &[u8]) -> io::Result<()> {
    let mut space = [0; STRING];
    let mut other = [0; STRING];
    let n = string(line, 2, &mut space);
    let m = string(line, 3, &mut other);
    let a = reader::read(bandwidth(line), &space[..n], &other[..m], words);
    print_answer(out, a)?;
    print_words(out, words)
}

// The same, of as many of the words lent as a line says.
fn read_room(out: &mut impl Write, words: &mut [u32], line: &[u8]) -> io::Result<()> {
    let room = number(line, 4);
    if room > words.len() {
        return no_case(out);
    }
    read_into(out, &mut words[..room], line)
}

// As a reference to an array, so that no proof has to count its words.
fn lend_words(out: &mut impl Write, words: &mut [u32; 256], line: &[u8]) -> io::Result<()> {
    read_room(out, words, line)
}

// R bw S T room: what reading S and T into `room` words, at most 256, comes to.
pub(crate) fn read(out: &mut impl Write, line: &[u8]) -> io::Result<()> {
    let mut words = [0xA5A5A5A5u32; 256];
    lend_words(out, &mut words, line)
}
