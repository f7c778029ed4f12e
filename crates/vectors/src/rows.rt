// The cases of rows: the layout, the plan's resources with their subcarriers, and the owner of every User field.
ghost use Rattle.std.specs.Prelude.{◌≡◌, ◌≤◌, ◌<◌, length};
ghost use Rattle.plan.specs.Engine.{kinds_of};
ghost use Rattle.resource.specs.Values.{own_pieces};

use crate::line_words::{has, number, words};
use crate::print::{answer as print_answer, next, text};
use answer::Answer;
use records::Record;
use resource::{Pairing, Resource, Run, Size, Tones};
use std::io;
use std::io::Write;

// Whether a line's words are a row of 1, 2, 4, 8 or 16 values.
pub(crate) fn is_row(line: &[u8]) -> bool {
    match words(line) {
        2 => has(line, b"n"),
        3 => has(line, b"nn"),
        5 => has(line, b"nnnn"),
        9 => has(line, b"nnnnnnnn"),
        17 => has(line, b"nnnnnnnnnnnnnnnn"),
        _ => false,
    }
}

// Word k as a value. Nine bits hold no more than 511, which is carried no more than what is above it.
fn value(line: &[u8], k: usize) -> u16 {
    number(line, k).min(511) as u16
}

fn size_name(size: Size) -> &'static str {
    match size {
        Size::S26 => "26",
        Size::S52 => "52",
        Size::S106 => "106",
        Size::S242 => "242",
        Size::S484 => "484",
        Size::S996 => "996",
        Size::S2x996 => "2x996",
    }
}

fn pairing_name(pairing: Pairing) -> &'static str {
    match pairing {
        Pairing::P106And26 => "106+26",
        Pairing::P484And242 => "484+242",
        Pairing::P996And484 => "996+484",
        Pairing::P3x996 => "3x996",
        Pairing::P2x996And484 => "2x996+484",
        Pairing::P3x996And484 => "3x996+484",
    }
}

// A resource's name and index.
fn print_resource(out: &mut impl Write, r: Resource) -> io::Result<()> {
    let (name, index) = match r {
        Resource::Single(size, i) => (size_name(size), i),
        Resource::Joined(pairing, i) => (pairing_name(pairing), i),
    };
    write!(out, "{name} {index}")
}

// The number u - zero.
fn signed(u: u32, zero: u32) -> i64 {
    i64::from(u) - i64::from(zero)
}

fn print_run(out: &mut impl Write, run: Run, zero: u32) -> io::Result<()> {
    write!(out, "{}:{}", signed(run.lo, zero), signed(run.hi, zero))
}

// The runs of a resource, in a channel of n positions.
fn print_tones(out: &mut impl Write, t: Tones, n: u16) -> io::Result<()>
    requires { (t.count ≤ 8) × (length t.runs ≡ 8) }
{
    let runs = t.runs;
    for (i, run) in runs[..usize::from(t.count)].iter().enumerate() {
        if 0 < i {
            text(out, b",")?;
        }
        print_run(out, *run, 128 * u32::from(n))?;
    }
    Ok(())
}

// A resource, and its subcarriers in a channel of n positions.
fn print_record(out: &mut impl Write, x: Record, t: Tones, n: u16) -> io::Result<()>
    requires { (t.count ≤ 8) × (length t.runs ≡ 8) }
{
    let resource = x.resource;
    text(out, b" | ")?;
    print_resource(out, resource)?;
    write!(
        out,
        " {} {} {} {} ",
        x.segment, x.position, x.fields1, x.fields2
    )?;
    print_tones(out, t, n)
}

// The k-th piece of position p, whose value is v.
fn print_piece(out: &mut impl Write, n: u16, v: u16, p: usize, k: u16) -> io::Result<()>
    requires { (p < 16) × (k < length (own_pieces v)) }
{
    let x = resource::piece_at(v, k);
    let t = subcarriers::piece_tones(n, p as u16, x);
    print_record(out, records::piece_record(v, p, x), t, n)
}

// The pieces of position p, which is given to itself.
fn print_pieces(out: &mut impl Write, n: u16, v: u16, p: usize) -> io::Result<()>
    requires { p < 16 }
{
    let here = resource::pieces_of(v);
    for k in 0..here {
        print_piece(out, n, v, p, k)?;
    }
    Ok(())
}

// The larger resource of this kind, where p is its lowest position.
fn print_larger(out: &mut impl Write, row: &[u16], kind: u16, p: usize) -> io::Result<()>
    requires { (length row.now ≤ 16) × (p < length row.now) × (kind < 36) }
{
    if records::listed_of(kind, p, row[p]) == 0 {
        return Ok(());
    }
    let t = records::larger_tones(kind, p);
    print_record(
        out,
        records::larger_record(kind, row, p),
        t,
        row.len() as u16,
    )
}

// The resources whose lowest position is p, which is given to this kind.
fn print_position(out: &mut impl Write, row: &[u16], kind: u16, p: usize) -> io::Result<()>
    requires { (length row.now ≤ 16) × (p < length row.now) × (kind < 36) }
{
    if kind == 0 {
        return print_pieces(out, row.len() as u16, row[p], p);
    }
    print_larger(out, row, kind, p)
}

// The resources of a row, by the kinds of its plan.
fn print_records(out: &mut impl Write, row: &[u16], kinds: &[u16; 16]) -> io::Result<()>
    requires { (length row.now ≤ 16) × (kinds.now ≡ kinds_of row.now) }
{
    let n = row.len();
    for p in 0..n {
        print_position(out, row, kinds[p], p)?;
    }
    Ok(())
}

// The resources, from 1, that own the fields of a channel: 144 is told of the field after the last.
fn print_owners(out: &mut impl Write, owners: &[u16; 72]) -> io::Result<()> {
    for &k in owners.iter().take_while(|&&k| k < 144) {
        next(out, u64::from(k) + 1)?;
    }
    Ok(())
}

// What an accepted row comes to, by the kinds of its plan.
fn print_plan(out: &mut impl Write, row: &[u16], kinds: &[u16; 16]) -> io::Result<()>
    requires { (length row.now ≤ 16) × (kinds.now ≡ kinds_of row.now) }
{
    let before = records::numbers_before(kinds, row);
    print_answer(
        out,
        Answer::accepted(usize::from(records::count_in(&before, row))),
    )?;
    print_records(out, row, kinds)?;
    text(out, b" ;")?;
    let first = records::owners_of(kinds, &before, row, 1);
    print_owners(out, &first)?;
    let second = records::owners_of(kinds, &before, row, 2);
    print_owners(out, &second)
}

fn print_row(out: &mut impl Write, row: &[u16]) -> io::Result<()>
    requires { length row.now ≤ 16 }
{
    let plan = plan::plan_of(row);
    let outcome = plan.outcome;
    let kinds = plan.kinds;
    if let Err(x) = outcome {
        return print_answer(out, x.into());
    }
    print_plan(out, row, &kinds)
}

// The values of a line, in the row lent, and what they come to.
fn row_line(out: &mut impl Write, row: &mut [u16], line: &[u8]) -> io::Result<()>
    requires { length row.old ≤ 16 }
{
    let n = row.len();
    for p in 0..n {
        row[p] = value(line, p + 1);
    }
    print_row(out, row)
}

// The same, of as many of the values lent as the line has.
fn row_room(out: &mut impl Write, row: &mut [u16], line: &[u8]) -> io::Result<()> {
    let n = words(line).saturating_sub(1).min(16).min(row.len());
    row_line(out, &mut row[..n], line)
}

// As a reference to an array, so that no proof has to count its values.
fn lend_row(out: &mut impl Write, row: &mut [u16; 16], line: &[u8]) -> io::Result<()> {
    row_room(out, row, line)
}

// r v v ..: what a row of values comes to.
pub(crate) fn row(out: &mut impl Write, line: &[u8]) -> io::Result<()> {
    let mut row = [0u16; 16];
    lend_row(out, &mut row, line)
}
