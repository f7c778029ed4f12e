// The cases, by their letters: each has a function that prints its answer, given a line whose words are of its kinds.
use crate::frames::read;
use crate::line_words::{STRING, has, number, string};
use crate::print::{bytes, no_case, number as print_number, text};
use crate::rows::{is_row, row};
use crate::walks::walk;
use crate::writes::write;
use std::io;
use std::io::Write;

fn print_bool(out: &mut impl Write, holds: bool) -> io::Result<()> {
    print_number(out, u64::from(holds))
}

// b S i: bit i of S.
fn bit(out: &mut impl Write, line: &[u8]) -> io::Result<()> {
    let mut space = [0; STRING];
    let n = string(line, 1, &mut space);
    let i = number(line, 2);
    print_number(out, u64::from(bits::bit_at(&space[..n], i)))
}

// f S at n: the field of n bits from `at`.
fn field(out: &mut impl Write, line: &[u8]) -> io::Result<()> {
    let mut space = [0; STRING];
    let n = string(line, 1, &mut space);
    let at = number(line, 2);
    let width = number(line, 3);
    if width > 25 {
        return no_case(out);
    }
    print_number(out, u64::from(bits::field_at(&space[..n], at, width)))
}

// l S at n: how many of the n bits from `at` lie past the end.
fn lacks(out: &mut impl Write, line: &[u8]) -> io::Result<()> {
    let mut space = [0; STRING];
    let n = string(line, 1, &mut space);
    let at = number(line, 2);
    let width = number(line, 3);
    print_number(out, lengths::lacks_at(&space[..n], at, width) as u64)
}

// d S T at n: the first difference, counted from `at`.
fn difference(out: &mut impl Write, line: &[u8]) -> io::Result<()> {
    let mut space = [0; STRING];
    let mut other = [0; STRING];
    let n = string(line, 1, &mut space);
    let m = string(line, 2, &mut other);
    let at = number(line, 3);
    let width = number(line, 4);
    print_number(
        out,
        common_field::first_diff(&space[..n], &other[..m], at, width) as u64,
    )
}

// The bytes lent, after the field that a line says is put into them.
fn put_in(out: &mut impl Write, s: &mut [u8], line: &[u8]) -> io::Result<()> {
    let at = number(line, 2);
    let width = number(line, 3);
    let value = (number(line, 4) % 4294967296) as u32;
    if width > 25 {
        return no_case(out);
    }
    put_bits::put_field(s, at, width, value);
    bytes(out, s)
}

// p S at n v: S after the lowest n bits of v are put at bit `at`.
fn put(out: &mut impl Write, line: &[u8]) -> io::Result<()> {
    let mut space = [0; STRING];
    let n = string(line, 1, &mut space);
    put_in(out, &mut space[..n], line)
}

// c S at n: the check of the n bits from `at`, its first sent bit lowest.
fn check(out: &mut impl Write, line: &[u8]) -> io::Result<()> {
    let mut space = [0; STRING];
    let n = string(line, 1, &mut space);
    let at = number(line, 2);
    let width = number(line, 3);
    print_number(out, u64::from(block::check_at(&space[..n], at, width)))
}

// k S at n: whether the check of the n bits from `at` is right and the tail after it zero.
fn block(out: &mut impl Write, line: &[u8]) -> io::Result<()> {
    let mut space = [0; STRING];
    let n = string(line, 1, &mut space);
    let at = number(line, 2);
    let width = number(line, 3);
    print_bool(out, block::block_right(&space[..n], at, width))
}

// What a line that starts with a letter is answered.
fn by_letter(out: &mut impl Write, line: &[u8], letter: u8) -> io::Result<()> {
    match letter {
        b'b' if has(line, b"sn") => bit(out, line),
        b'f' if has(line, b"snn") => field(out, line),
        b'l' if has(line, b"snn") => lacks(out, line),
        b'd' if has(line, b"ssnn") => difference(out, line),
        b'p' if has(line, b"snnn") => put(out, line),
        b'c' if has(line, b"snn") => check(out, line),
        b'k' if has(line, b"snn") => block(out, line),
        b'r' if is_row(line) => row(out, line),
        b'w' if has(line, b"ns") => walk(out, line),
        b'R' if has(line, b"nssn") => read(out, line),
        b'W' if has(line, b"nsnn") => write(out, line),
        _ => no_case(out),
    }
}

// The answer to a line, as a line.
pub(crate) fn respond(out: &mut impl Write, line: &[u8]) -> io::Result<()> {
    by_letter(out, line, bits::byte_at(line, 0))?;
    text(out, b"\n")
}
