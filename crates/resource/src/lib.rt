// The values of the RU Allocation subfield, the resources they speak of, and what holds a resource's subcarriers (01, "Values of the
// RU Allocation subfield" and "Index and subcarriers").
#![tactic(auto)]

ghost use Rattle.std.specs.Prelude.{◌≡◌, ◌+◌, ◌-◌, ◌*◌, ◌/◌, ◌%◌, ◌≤◌, ◌<◌, length};
ghost use Rattle.resource.specs.Values.{carried, fields_of, divides, piece_fields, own_pieces, smaller_at, family_of};
ghost use Rattle.resource.specs.Names.{size_of, name_of, number_of};
ghost use Rattle.resource.specs.Index.{index_of, resource_at};
ghost use Rattle.resource.specs.Engine.{starts, nth_from, piece_from, piece_at, numbered_of};

// A single resource's number of subcarriers.
#[derive(Clone, Copy)]
pub enum Size {
    S26,
    S52,
    S106,
    S242,
    S484,
    S996,
    S2x996,
}

// What a joined resource is made of.
#[derive(Clone, Copy)]
pub enum Pairing {
    P106And26,
    P484And242,
    P996And484,
    P3x996,
    P2x996And484,
    P3x996And484,
}

// A resource, with its index in its segment; of a wider one, in its own span.
#[derive(Clone, Copy)]
pub enum Resource {
    Single(Size, u16),
    Joined(Pairing, u16),
}

// What a position that is given to itself is divided into, with its place, from 1, among the nine, four or two of its kind.
#[derive(Clone, Copy)]
pub enum Piece {
    Part(Size, u16),
    With26(u16),
}

// The subcarriers from lo to hi, counted from the channel's lower edge.
#[derive(Clone, Copy)]
pub struct Run {
    pub lo: u32,
    pub hi: u32,
}

// The runs of a resource: the first `count` of eight, rising.
#[derive(Clone, Copy)]
pub struct Tones {
    pub count: u16,
    pub runs: [Run; 8],
}

pub fn is_carried(v: u16) -> bool
    ensures { result ≡ carried v }
{
    match v {
        0..=30 | 48 | 50 | 64..=303 => true,
        _ => false,
    }
}

// Of a value past 127: those of the families, up to 303, give 1 to 8.
fn high_fields(v: u16) -> u16
    requires { 128 ≤ v }
    ensures { result ≡ fields_of v }
{
    if v < 304 { v % 8 + 1 } else { 0 }
}

// Below 128 one `match` of constants, so that it is one load from a fixed table: the reader asks it of every value, and no row without a wider
// one takes another way. Neighbours stand in arms of their own: in one arm they would be a test of a range, and no entry of the table.
pub fn fields_of(v: u16) -> u16
    ensures { result ≡ fields_of v }
{
    if 128 <= v {
        return high_fields(v);
    }
    match v {
        0 => 9,
        1 | 4 | 8 | 71 | 79 | 87 | 95 | 103 | 111 | 119 | 127 => 8,
        2 => 8,
        3 | 5 | 9 | 12 | 70 | 78 | 86 | 94 | 102 | 110 | 118 | 126 => 7,
        6 | 10 => 7,
        7 | 11 | 13 | 16 | 20 | 69 | 77 | 85 | 93 | 101 | 109 | 117 | 125 => 6,
        14 => 6,
        15 | 17 | 21 | 68 | 76 | 84 | 92 | 100 | 108 | 116 | 124 => 5,
        18 | 22 => 5,
        19 | 23 | 67 | 75 | 83 | 91 | 99 | 107 | 115 | 123 => 4,
        24 => 4,
        25 => 3,
        66 | 74 | 82 | 90 | 98 | 106 | 114 | 122 => 3,
        48 | 50 | 65 | 73 | 81 | 89 | 97 | 105 | 113 | 121 => 2,
        64 | 72 | 80 | 88 | 96 | 104 | 112 | 120 => 1,
        _ => 0,
    }
}

// The family of a value: "64 to 71", "72 to 79", ..
pub fn family_of(v: u16) -> u16
    ensures { result ≡ family_of v }
{
    v / 8
}

// The value may stand at place j of its segment and does not leave its position whole.
pub fn is_smaller(j: u16, v: u16) -> bool
    ensures { result ≡ smaller_at j v }
{
    match v {
        0..=27 => true,
        48 => j != 3,
        50 => j != 2,
        _ => false,
    }
}

// The value divides its position into smaller pieces.
pub fn is_divided(v: u16) -> bool
    ensures { result ≡ divides v }
{
    match v {
        0..=25 | 48 | 50 => true,
        _ => false,
    }
}

// The fields of each piece of a position that is given to itself.
pub fn piece_fields(v: u16) -> u16
    ensures { result ≡ piece_fields v }
{
    if is_divided(v) { 1 } else { fields_of(v) }
}

// How many pieces a position has that is given to itself.
pub fn pieces_of(v: u16) -> u16
    ensures { result ≡ length (own_pieces v) }
{
    match v {
        28 | 64..=71 => 1,
        0..=63 => fields_of(v),
        _ => 0,
    }
}

// Where they start among the position's nine 26s, the lowest bit the first 26.
fn starts_of(v: u16) -> u16
    ensures { result ≡ starts v }
{
    match v {
        0..=15 => 0b111111111 - v / 8 % 2 * 2 - v / 4 % 2 * 8 - v / 2 % 2 * 64 - v % 2 * 256,
        16..=19 => 0b000111111 - v / 2 % 2 * 2 - v % 2 * 8,
        20..=23 => 0b111110001 - v / 2 % 2 * 64 - v % 2 * 256,
        24 => 0b010100101,
        25 => 0b000110001,
        28 | 64..=71 => 0b000000001,
        48 => 0b000100001,
        50 => 0b000010001,
        _ => 0,
    }
}

// The place of the k-th bit that is set in m, 9 if there is none.
fn nth_start(m: u16, k: u32) -> u16
    ensures { result ≡ nth_from m k 0 9 }
{
    let mut left = k;
    for s in 0..9 {
        if (m >> s) % 2 == 1 {
            if left == 0 {
                return s;
            }
            left -= 1;
        }
    }
    9
}

// The piece that starts at the s-th 26, the next one starting at the e-th.
fn piece_from(s: u16, e: u16) -> Piece
    ensures { result ≡ piece_from s (e - s) }
{
    if e <= s {
        return Piece::Part(Size::S26, 0);
    }
    let w = e - s;
    match w {
        1 => Piece::Part(Size::S26, s + 1),
        2 | 3 => Piece::Part(Size::S52, s / 2 + 1),
        4 => Piece::Part(Size::S106, s / 5 + 1),
        5 => Piece::With26(s / 4 + 1),
        _ => Piece::Part(Size::S242, 1),
    }
}

// The k-th piece, from 0, of a position that is given to itself.
pub fn piece_at(v: u16, k: u16) -> Piece
    ensures { result ≡ piece_at v k }
{
    let m = starts_of(v);
    let k = u32::from(k);
    let s = nth_start(m, k);
    let e = nth_start(m, k + 1);
    piece_from(s, e)
}

// The index of the i-th resource of its size at position p of its segment: 19 does not exist among the 26s.
fn index_of(p: u16, size: Size, i: u16) -> u16
    requires { (p < 4) × (i ≤ 9) }
    ensures { result ≡ index_of p size i }
{
    match size {
        Size::S26 => { if p < 2 { 9 * p + i } else { 9 * p + i + 1 } }
        Size::S52 => 4 * p + i,
        Size::S106 => 2 * p + i,
        Size::S242 => p + 1,
        Size::S484 => p / 2 + 1,
        Size::S996 => 1,
        Size::S2x996 => 1,
    }
}

// The resource that a piece of a value is at position p of the channel.
pub fn resource_at(p: u16, x: Piece) -> Resource
    requires { numbered_of x ≤ 9 }
    ensures { result ≡ resource_at (p % 4) x }
{
    let q = p % 4;
    match x {
        Piece::Part(size, i) => Resource::Single(size, index_of(q, size, i)),
        Piece::With26(i) => Resource::Joined(Pairing::P106And26, 2 * q + i),
    }
}

// ---- what a resource is called

fn size_of(size: Size) -> u32
    ensures { result ≡ size_of size }
{
    match size {
        Size::S26 => 26,
        Size::S52 => 52,
        Size::S106 => 106,
        Size::S242 => 242,
        Size::S484 => 484,
        Size::S996 => 996,
        Size::S2x996 => 1992,
    }
}

// How many subcarriers a resource has.
pub fn subcarriers_of(r: Resource) -> u32
    ensures { result ≡ name_of r }
{
    match r {
        Resource::Single(size, _) => size_of(size),
        Resource::Joined(pairing, _) => match pairing {
            Pairing::P106And26 => 132,
            Pairing::P484And242 => 726,
            Pairing::P996And484 => 1480,
            Pairing::P3x996 => 2988,
            Pairing::P2x996And484 => 2476,
            Pairing::P3x996And484 => 3472,
        },
    }
}

// Its index.
pub fn number_of(r: Resource) -> u16
    ensures { result ≡ number_of r }
{
    match r {
        Resource::Single(_, i) => i,
        Resource::Joined(_, i) => i,
    }
}
