// The cases of words: writing.
ghost use Rattle.std.specs.Prelude.{◌≤◌};

use crate::frames::bandwidth;
use crate::line_words::{STRING, number, string};
use crate::print::{answer as print_answer, bytes, no_case, text};
use std::io;
use std::io::Write;

// The answer and both channels lent, after the words are written into them.
fn write_into(
    out: &mut impl Write,
    cc1: &mut [u8],
    cc2: &mut [u8],
    words: &[u32],
    line: &[u8],
) -> io::Result<()> {
    let a = writer::write(bandwidth(line), words, cc1, cc2);
    print_answer(out, a)?;
    text(out, b" ")?;
    bytes(out, cc1)?;
    text(out, b" ")?;
    bytes(out, cc2)
}

// The same, of as many of the bytes lent as a line says.
fn write_room(
    out: &mut impl Write,
    cc1: &mut [u8],
    cc2: &mut [u8],
    words: &[u32],
    line: &[u8],
) -> io::Result<()> {
    let n = number(line, 3);
    let m = number(line, 4);
    if n > cc1.len() {
        return no_case(out);
    }
    if m > cc2.len() {
        return no_case(out);
    }
    write_into(out, &mut cc1[..n], &mut cc2[..m], words, line)
}

// As references to arrays, so that no proof has to count their bytes.
fn lend_channels(
    out: &mut impl Write,
    cc1: &mut [u8; 640],
    cc2: &mut [u8; 640],
    words: &[u32],
    line: &[u8],
) -> io::Result<()> {
    write_room(out, cc1, cc2, words, line)
}

fn write_words(out: &mut impl Write, words: &[u32], line: &[u8]) -> io::Result<()> {
    let mut cc1 = [0xA5u8; 640];
    let mut cc2 = [0xA5u8; 640];
    lend_channels(out, &mut cc1, &mut cc2, words, line)
}

// Word i of a byte string, its lowest byte first.
fn word_of(s: &[u8], i: usize) -> u32
    requires { i ≤ 1024 }
{
    bits::field_at(s, 32 * i, 16) % 65536 + bits::field_at(s, 32 * i + 16, 16) % 65536 * 65536
}

// The words of a byte string, at most 256, that there is room for.
fn unpack(s: &[u8], words: &mut [u32]) {
    let n = (s.len() / 4).min(256).min(words.len());
    for i in 0..n {
        words[i] = word_of(s, i);
    }
}

// How many words a byte string of so many bytes is, at most 256. A text that is not divisible by four is no words: 256 are
// more than any frame has, and get the answer that 01 gives it.
fn count(n: usize) -> usize {
    if n % 4 != 0 {
        return 256;
    }
    (n / 4).min(256)
}

// The words that a line says, in the words lent, and what writing them comes to.
fn write_line(out: &mut impl Write, words: &mut [u32], line: &[u8]) -> io::Result<()> {
    let mut space = [0; STRING];
    let n = string(line, 2, &mut space);
    unpack(&space[..n], words);
    let k = count(n).min(words.len());
    write_words(out, &words[..k], line)
}

fn lend_words(out: &mut impl Write, words: &mut [u32; 256], line: &[u8]) -> io::Result<()> {
    write_line(out, words, line)
}

// W bw WORDS room1 room2: what writing WORDS, little-endian, into room1 and room2 bytes, at most 640 each, comes to.
pub(crate) fn write(out: &mut impl Write, line: &[u8]) -> io::Result<()> {
    let mut words = [0u32; 256];
    lend_words(out, &mut words, line)
}
