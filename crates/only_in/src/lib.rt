// The lines of the resources that only one of two plans has (02, T-06: "resources only in one"), in one walk over the positions of both.
#![tactic(auto)]

ghost use Rattle.std.specs.Prelude.{◌≡◌, ◌+◌, ◌*◌, ◌≤◌, ◌<◌, length};
ghost use Rattle.text.specs.Text.{Wrote, upto};
ghost use Rattle.resource.specs.Values.{own_pieces};
ghost use Rattle.resource.specs.Engine.{numbered_of};
ghost use Rattle.plan.specs.Engine.{kinds_of};
ghost use Rattle.only_in.specs.Engine.{part_number, piece_number, shape_of, shape_in, only_piece, only_larger, only_at, only_lines};

use resource::{Piece, Size};

// ---- the pieces of a position as a set, a bit for each piece that there is

fn part_number(size: Size, i: u16) -> u16
    requires { i ≤ 9 }
    ensures { (result ≡ part_number size i) × (result ≤ 22) }
{
    match size {
        Size::S26 => i,
        Size::S52 => 9 + i,
        Size::S106 => 13 + i,
        Size::S242 => 16,
        Size::S484 => 16,
        Size::S996 => 16,
        Size::S2x996 => 16,
    }
}

// The number of a piece: nine 26s, four 52s, two 106s, the 242, two 106+26s.
fn piece_number(x: Piece) -> u16
    requires { numbered_of x ≤ 9 }
    ensures { (result ≡ piece_number x) × (result ≤ 25) }
{
    match x {
        Piece::Part(size, i) => part_number(size, i),
        Piece::With26(i) => 16 + i,
    }
}

// The pieces of a position that is given to itself.
fn shape_of(v: u16) -> u32
    ensures { result ≡ shape_of v (length (own_pieces v)) }
{
    let here = resource::pieces_of(v);
    let mut shape: u32 = 0;
    for k in 0..here {
        shape += 1 << piece_number(resource::piece_at(v, k));
    }
    shape
}

// None where it is given to a larger resource.
fn shape_in(kind: u16, v: u16) -> u32
    ensures { result ≡ shape_in kind v }
{
    if kind == 0 { shape_of(v) } else { 0 }
}

// ---- the lines

// A frame and the other's are parameters one by one: `put_only` is public and takes them so, and each contract below names them one by one.

// Of the k-th piece of position p, unless it is one of the other frame's.
fn put_only_piece(
    out: &mut [u8],
    at: usize,
    side: u8,
    n: u16,
    v: u16,
    p: usize,
    k: u16,
    others: u32,
) -> usize
    requires { (at ≤ 500000) × (side < 10) × (p < 4096) × (k < length (own_pieces v)) }
    ensures wrote { Wrote out.old at (only_piece side n v p others k) out.new result }
    ensures bounded { result ≤ at + 468 }
{
    if (others >> piece_number(resource::piece_at(v, k))) % 2 == 1 {
        return at;
    }
    let a = difference_lines::put_side(out, at, side);
    position_lines::put_piece(out, a, n, v, p, k)
}

fn put_only_pieces(
    out: &mut [u8],
    at: usize,
    side: u8,
    n: u16,
    v: u16,
    p: usize,
    others: u32,
) -> usize
    requires { (at ≤ 400000) × (side < 10) × (p < 4096) }
    ensures wrote { Wrote out.old at (upto (only_piece side n v p others) (length (own_pieces v))) out.new result }
    ensures bounded { result ≤ at + 4212 }
{
    let here = resource::pieces_of(v);
    let mut e = at;
    for k in 0..here {
        e = put_only_piece(out, e, side, n, v, p, k, others);
    }
    e
}

// Of the larger resource of this kind, where p is its lowest position, unless the other frame has one of this kind there.
fn put_only_larger(
    out: &mut [u8],
    at: usize,
    side: u8,
    row: &[u16],
    kind: u16,
    p: usize,
    other: u16,
) -> usize
    requires { (at ≤ 400000) × (side < 10) × (length row.now ≤ 16) × (p < length row.now) × (kind < 36) × (kind ≡ 0 → ⊥) }
    ensures wrote { Wrote out.old at (only_larger side row.now kind p other) out.new result }
    ensures bounded { result ≤ at + 4212 }
{
    if kind == other {
        return at;
    }
    if !records::is_lowest(kind, p) {
        return at;
    }
    let a = difference_lines::put_side(out, at, side);
    position_lines::put_larger(out, a, row, kind, p)
}

// Of the resources whose lowest position is p, which is given to this kind; the other frame gives it to `other`, and has the value v there.
fn put_only_at(
    out: &mut [u8],
    at: usize,
    side: u8,
    row: &[u16],
    kind: u16,
    p: usize,
    other: u16,
    v: u16,
) -> usize
    requires { (at ≤ 400000) × (side < 10) × (length row.now ≤ 16) × (p < length row.now) × (kind < 36) }
    ensures wrote { Wrote out.old at (only_at side row.now kind p other v) out.new result }
    ensures bounded { result ≤ at + 4212 }
{
    if kind == 0 {
        let others = shape_in(other, v);
        return put_only_pieces(out, at, side, row.len() as u16, row[p], p, others);
    }
    put_only_larger(out, at, side, row, kind, p, other)
}

// Of all resources of the row's plan that the other row's has not.
pub fn put_only(
    out: &mut [u8],
    at: usize,
    side: u8,
    row: &[u16],
    kinds: &[u16; 16],
    other: &[u16],
    theirs: &[u16; 16],
) -> usize
    requires at_bound { (at ≤ 300000) × (side < 10) × (length row.now ≤ 16) × (length other.now ≡ length row.now) }
    requires kinds_value { (kinds.now ≡ kinds_of row.now) × (theirs.now ≡ kinds_of other.now) }
    ensures wrote { Wrote out.old at (only_lines side row.now other.now) out.new result }
    ensures bounded { result ≤ at + 67392 }
{
    let n = row.len();
    let mut e = at;
    // By its index: three lists zipped and numbered are no plainer.
    for p in 0..n {
        e = put_only_at(out, e, side, row, kinds[p], p, theirs[p], other[p]);
    }
    e
}
