// The lines of the resources of one position of a row (01, "Listing"), into a lent buffer.
#![tactic(auto)]

ghost use Rattle.std.specs.Prelude.{◌≡◌, map, ◌++◌, ◌+◌, ◌*◌, ◌/◌, ◌%◌, ◌≤◌, ◌<◌, T, length};
ghost use Rattle.text.specs.Text.{codes, Wrote};
ghost use Rattle.resource.specs.Values.{piece_fields, own_pieces};
ghost use Rattle.resource.specs.Engine.{span_of, piece_at, runs_of, held};
ghost use Rattle.piece_codes.specs.Engine.{is_code, is_single, runs_by};
ghost use Rattle.resource_line.specs.ResourceLine.{tones_text};
ghost use Rattle.kinds.specs.Kinds.{span};
ghost use Rattle.records.specs.Records.{piece_record, lead, list_at};
ghost use Rattle.position_lines.specs.Engine.{listed_at, runs_line, runs_lines, code_line};

use records::Record;
use resource::Tones;

fn put_record(out: &mut [u8], at: usize, n: u16, x: Record, tones: Tones) -> usize
    requires { (at ≤ 700000) × (tones ≡ held (runs_of n x.segment x.resource)) }
    ensures wrote { Wrote out.old at (runs_line n x) out.new result }
    ensures bounded { result ≤ at + 460 }
{
    let users = x.fields1 as u64 + x.fields2 as u64;
    let resource = x.resource;
    resource_line::put_ru(out, at, n, x.segment, resource, users, tones)
}

// The line of the k-th piece of position p, whose value is v, in a channel of n positions.
pub fn put_piece(out: &mut [u8], at: usize, n: u16, v: u16, p: usize, k: u16) -> usize
    requires { (at ≤ 700000) × (p < 4096) × (k < length (own_pieces v)) }
    ensures wrote { Wrote out.old at (runs_line n (piece_record (λ q. v) p (piece_at v k))) out.new result }
    ensures bounded { result ≤ at + 460 }
{
    let x = resource::piece_at(v, k);
    let tones = subcarriers::piece_tones(n, p as u16, x);
    put_record(out, at, n, records::piece_record(v, p, x), tones)
}

// The subcarriers that a word says of a piece, from base on, and the line's end.
fn put_word_tones(out: &mut [u8], at: usize, n: u32, base: u32, w: u32) -> usize
    requires { (n ≤ 16) × (base < 4096) × (1 ≤ w / 256 % 256) × (65536 ≤ w → 1 ≤ w / 65536 / 256) × (at ≤ 800000) × (at + 24 ≤ length out.old) }
    ensures wrote { Wrote out.old at (tones_text (map (span_of n) (runs_by base w)) ++ codes "\n") out.new result }
    ensures bounded { result ≤ at + 24 }
{
    let zero = 128 * n;
    let lo = base + w % 256;
    let hi = lo + w / 256 % 256 - 1;
    if w < 65536 {
        return stores::put_span(out, at, lo, hi, zero, b'\n' as u64);
    }
    let a = stores::put_span(out, at, lo, hi, zero, b',' as u64);
    let lo2 = base + w / 65536 % 256;
    let hi2 = lo2 + w / 65536 / 256 - 1;
    stores::put_span(out, a, lo2, hi2, zero, b'\n' as u64)
}

// The subcarriers of the 242 at 20 MHz, and the line's end: "-122:-2,2:122".
fn put_whole_20(out: &mut [u8], at: usize) -> usize
    requires { (at ≤ 800000) × (at + 24 ≤ length out.old) }
    ensures wrote { Wrote out.old at (codes "-122:-2,2:122\n") out.new result }
    ensures bounded { result ≤ at + 24 }
{
    let a = stores::put_eight(out, at, 0x2C322D3A3232312D); // -122:-2,
    stores::put_by_fours(out, a, 0x0A3232313A32, 2) // 2:122 and a line feed
}

// The line of the piece of this code at position p, in a channel of n positions, by whole stores.
fn put_coded(out: &mut [u8], at: usize, n: u32, p: u32, c: u32, users: u32) -> usize
    requires { (n ≤ 16) × (p < 16) × (c < 128) × T (is_code c) × (users < 10) × (at ≤ 700000) × (at + 70 ≤ length out.old) }
    ensures wrote { Wrote out.old at (code_line n p c users) out.new result }
    ensures bounded { result ≤ at + 70 }
{
    let i = piece_codes::index_at(p % 4, c);
    let a = resource_line::put_start(out, at, c / 16, i, p / 4, users);
    if (n == 1) & (c == 65) {
        return put_whole_20(out, a);
    }
    let base = piece_codes::base_of(n, p);
    let w = piece_codes::word_at(n, c);
    put_word_tones(out, a, n, base, w)
}

// The line of the piece of this code, of one run: its subcarriers first, then what comes before.
fn put_single(out: &mut [u8], at: usize, n: u32, p: u32, c: u32, users: u32) -> usize
    requires { (n ≤ 16) × (p < 16) × (c < 128) × T (is_code c) × (users < 10) × (at ≤ 700000) × (at + 70 ≤ length out.old) × T (is_single n c) }
    ensures wrote { Wrote out.old at (code_line n p c users) out.new result }
    ensures bounded { result ≤ at + 70 }
{
    let x = piece_codes::entry_at(n, c);
    let q = (p % 4) as u64;
    let index = stores::spaced_of(((x >> 40) % 256 * q / 2 + (x >> 48) % 256) as u32);
    let len = (x >> 56) as usize;
    let a = at + (len + (index / 16777216) as usize + 34);
    let base = piece_codes::base_of(n, p);
    let e = stores::put_run(
        out,
        a,
        base + (x % 256) as u32,
        base + ((x >> 32) % 256) as u32,
        128 * n,
        b'\n',
    );
    resource_line::put_named(out, at, x / 256 % 16777216, len, index, p / 4, users);
    e
}

// The line of the piece of this code.
fn put_coded_piece(out: &mut [u8], at: usize, n: u32, p: u32, c: u32, users: u32) -> usize
    requires { (n ≤ 16) × (p < 16) × (c < 128) × T (is_code c) × (users < 10) × (at ≤ 700000) × (at + 70 ≤ length out.old) }
    ensures wrote { Wrote out.old at (code_line n p c users) out.new result }
    ensures bounded { result ≤ at + 70 }
{
    if piece_codes::is_single(n, c) {
        return put_single(out, at, n, p, c, users);
    }
    put_coded(out, at, n, p, c, users)
}

// A line for each piece of position p, which is given to itself, of at most nine.
fn put_pieces_whole(out: &mut [u8], at: usize, n: u16, v: u16, p: usize) -> usize
    requires { (at ≤ 600000) × (n ≤ 16) × (p < 16) × (at + 630 ≤ length out.old) }
    ensures wrote { Wrote out.old at (runs_lines n (list_at 0 (λ q. v) p)) out.new result }
    ensures bounded { (result ≤ at + 70 * length (list_at 0 (λ q. v) p)) × (result ≤ at + 630) }
{
    let here = resource::pieces_of(v);
    let users = resource::piece_fields(v) as u32;
    let mut left = piece_codes::codes_of(v);
    let mut e = at;
    for k in 0..here {
        e = put_coded_piece(out, e, n as u32, p as u32, (left % 128) as u32, users);
        left /= 128;
    }
    e
}

// The same where there may be too little room: the lines stand in room of their own first. It is no part of its caller, so that a listing with
// room for all does not set this aside too.
#[inline(never)]
fn put_pieces_narrow(out: &mut [u8], at: usize, n: u16, v: u16, p: usize) -> usize
    requires { (at ≤ 600000) × (n ≤ 16) × (p < 16) }
    ensures wrote { Wrote out.old at (runs_lines n (list_at 0 (λ q. v) p)) out.new result }
    ensures bounded { result ≤ at + 460 * length (list_at 0 (λ q. v) p) }
{
    let mut own = [0u8; 630];
    let end = put_pieces_whole(&mut own, 0, n, v, p);
    text::put_all(out, at, &own[..end])
}

// The same into whatever room there is. A position without a piece, as a punctured one, has no line to make room for.
fn put_pieces(out: &mut [u8], at: usize, n: u16, v: u16, p: usize) -> usize
    requires { (at ≤ 600000) × (n ≤ 16) × (p < 16) }
    ensures wrote { Wrote out.old at (runs_lines n (list_at 0 (λ q. v) p)) out.new result }
    ensures bounded { result ≤ at + 460 * length (list_at 0 (λ q. v) p) }
{
    if resource::pieces_of(v) == 0 {
        return at;
    }
    if at + 630 <= out.len() {
        return put_pieces_whole(out, at, n, v, p);
    }
    put_pieces_narrow(out, at, n, v, p)
}

// The line of the larger resource of this kind, of which p is the lowest position, whatever its users: `put_larger` takes any row, and whole
// stores have room for one digit of users.
fn put_larger_exact(out: &mut [u8], at: usize, row: &[u16], kind: u16, p: usize) -> usize
    requires { (at ≤ 600000) × (length row.now ≤ 16) × (p < length row.now) × (kind < 36) × (kind ≡ 0 → ⊥) × (p % span kind ≡ lead kind) }
    ensures wrote { Wrote out.old at (runs_lines (length row.now) (listed_at row.now kind p)) out.new result }
    ensures bounded { result ≤ at + 460 * length (listed_at row.now kind p) }
{
    let n = row.len() as u16;
    let tones = records::larger_tones(kind, p);
    put_record(out, at, n, records::larger_record(kind, row, p), tones)
}

// The same, by whole stores of fewer than ten users: where there may be too little room, the line stands in room of its own first.
pub fn put_larger(out: &mut [u8], at: usize, row: &[u16], kind: u16, p: usize) -> usize
    requires { (at ≤ 600000) × (length row.now ≤ 16) × (p < length row.now) × (kind < 36) × (kind ≡ 0 → ⊥) × (p % span kind ≡ lead kind) }
    ensures wrote { Wrote out.old at (runs_lines (length row.now) (listed_at row.now kind p)) out.new result }
    ensures bounded { result ≤ at + 460 * length (listed_at row.now kind p) }
{
    let users = kinds::total_of(kind, row, p);
    if 10 <= users {
        return put_larger_exact(out, at, row, kind, p);
    }
    let n = row.len() as u32;
    if at + 240 <= out.len() {
        return larger_line::put_line(out, at, n, kind, p as u32, users as u32);
    }
    let mut own = [0u8; 240];
    let end = larger_line::put_line(&mut own, 0, n, kind, p as u32, users as u32);
    text::put_all(out, at, &own[..end])
}

// A line for each of the resources whose lowest position is p, which is given to this kind.
pub fn put_position(out: &mut [u8], at: usize, row: &[u16], kind: u16, p: usize) -> usize
    requires { (at ≤ 600000) × (length row.now ≤ 16) × (p < length row.now) × (kind < 36) }
    ensures wrote { Wrote out.old at (runs_lines (length row.now) (listed_at row.now kind p)) out.new result }
    ensures bounded { result ≤ at + 460 * length (listed_at row.now kind p) }
{
    if kind == 0 {
        return put_pieces(out, at, row.len() as u16, row[p], p);
    }
    if !records::is_lowest(kind, p) {
        return at;
    }
    put_larger(out, at, row, kind, p)
}
