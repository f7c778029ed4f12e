// What is written to standard output.
ghost use Rattle.std.specs.Prelude.{◌≡◌, ◌≤◌, ◌%◌, length, take};
ghost use Rattle.vectors.specs.Text.{glyph_of};

use answer::Answer;
use std::io;
use std::io::Write;

pub(crate) fn text(out: &mut impl Write, s: &[u8]) -> io::Result<()> {
    out.write_all(s)
}

// What answers a line that is no case.
pub(crate) fn no_case(out: &mut impl Write) -> io::Result<()> {
    text(out, b"?")
}

pub(crate) fn number(out: &mut impl Write, n: u64) -> io::Result<()> {
    write!(out, "{n}")
}

// A space and a number.
pub(crate) fn next(out: &mut impl Write, n: u64) -> io::Result<()> {
    text(out, b" ")?;
    number(out, n)
}

// The capital hex digit of the lowest four bits.
fn glyph(x: u8) -> u8
    ensures { result ≡ glyph_of (x % 16) }
{
    let d = x % 16;
    if d < 10 { b'0' + d } else { b'A' + (d - 10) }
}

// The hex digits of the bytes that there is room for, and how many they are.
fn encode(s: &[u8], out: &mut [u8]) -> usize
    ensures { (result ≤ length out.new) × (result ≡ length (take result out.new)) }
{
    let n = s.len().min(out.len() / 2);
    for i in 0..n {
        out[2 * i] = glyph(s[i] / 16);
        out[2 * i + 1] = glyph(s[i]);
    }
    2 * n
}

// A byte string: pairs of capital hex digits, `-` where empty.
pub(crate) fn bytes(out: &mut impl Write, s: &[u8]) -> io::Result<()> {
    if s.len() == 0 {
        return text(out, b"-");
    }
    let mut space = [0; 65536];
    let n = encode(s, &mut space);
    text(out, &space[..n])
}

// What a call answers.
pub(crate) fn answer(out: &mut impl Write, a: Answer) -> io::Result<()> {
    write!(out, "{} {} {}", a.number, a.channel, a.place)
}

// A space and the eight hex digits of a word, in one write: nothing stands between this and standard output.
fn word(out: &mut impl Write, w: u32) -> io::Result<()> {
    let mut digits = [b' '; 9];
    encode(&w.to_be_bytes(), &mut digits[1..]);
    text(out, &digits)
}

// The first 160 words.
pub(crate) fn words(out: &mut impl Write, s: &[u32]) -> io::Result<()> {
    for w in s.iter().take(160) {
        word(out, *w)?;
    }
    Ok(())
}
