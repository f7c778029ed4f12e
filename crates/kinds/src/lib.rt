// The kinds of resource that a position can be given to, as one table (01, "What a plan is"; 02, T-07), and the User fields of a
// resource. A kind is its line in the table of specs/Kinds.antt: line 0 is the position itself, and 36 is none.
#![tactic(auto)]

ghost use Rattle.std.specs.Prelude.{◌≡◌, cond, eqb, ◌+◌, ◌*◌, ◌/◌, ◌%◌, ◌≤◌, ◌<◌};
ghost use Rattle.answer.specs.Lists.{at};
ghost use Rattle.kinds.specs.Kinds.{family, span, mask, takes, blank_at};
ghost use Rattle.kinds.specs.Engine.{place_share};
ghost use Rattle.kinds.specs.Fields.{fields_in, together};

// The row's value at position p; 0 past its end.
pub fn value_at(row: &[u16], p: usize) -> u16
    ensures { result ≡ at row.now p }
{
    if p < row.len() { row[p] } else { 0 }
}

// ---- the table

// The family of its values.
#[tactic(auto, unfolding(crate::specs::Kinds::family, crate::specs::Kinds::kind_at, crate::specs::Kinds::kinds))]
pub fn family_of(kind: u16) -> u16
    ensures { result ≡ family kind }
{
    match kind {
        0 => 8,
        1 => 9,
        2 => 10,
        3 => 12,
        4 => 13,
        5 => 14,
        6 => 15,
        7 => 11,
        8 => 16,
        9 => 17,
        10 => 18,
        11 => 19,
        12 => 20,
        13 => 21,
        14 => 22,
        15 => 23,
        16 => 24,
        17 => 25,
        18 => 26,
        19 => 27,
        20 => 28,
        21 => 29,
        22 => 30,
        23 => 31,
        24 => 32,
        25 => 33,
        26 => 34,
        27 => 35,
        28 => 36,
        29 => 37,
        30 => 32,
        31 => 33,
        32 => 34,
        33 => 35,
        34 => 36,
        35 => 37,
        _ => 0,
    }
}

// How many positions it lies among.
pub fn span_of(kind: u16) -> usize
    requires { kind < 36 }
    ensures { (0 < result) × (result ≤ 16) × (result ≡ span kind) }
{
    if kind < 2 {
        return usize::from(kind + 1);
    }
    if kind < 7 {
        return 4;
    }
    if kind < 12 { 8 } else { 16 }
}

// Which of them are its places, bit j for place j.
#[tactic(auto, unfolding(crate::specs::Kinds::mask, crate::specs::Kinds::kind_at, crate::specs::Kinds::kinds))]
pub fn mask_of(kind: u16) -> u16
    ensures { result ≡ mask kind }
{
    match kind {
        0 => 0b0001,
        1 => 0b0011,
        2 => 0b1111,
        3 => 0b1110,
        4 => 0b1101,
        5 => 0b1011,
        6 => 0b0111,
        7 => 0b1111_1111,
        8 => 0b1111_1100,
        9 => 0b1111_0011,
        10 => 0b1100_1111,
        11 => 0b0011_1111,
        12 => 0b1111_1111_1111_0000,
        13 => 0b1111_1111_0000_1111,
        14 => 0b1111_0000_1111_1111,
        15 => 0b0000_1111_1111_1111,
        16 => 0b1111_1111_1111_1100,
        17 => 0b1111_1111_1111_0011,
        18 => 0b1111_1111_1100_1111,
        19 => 0b1111_1111_0011_1111,
        20 => 0b1111_1100_1111_1111,
        21 => 0b1111_0011_1111_1111,
        22 => 0b1100_1111_1111_1111,
        23 => 0b0011_1111_1111_1111,
        24 => 0b0000_1111_1111_1100,
        25 => 0b0000_1111_1111_0011,
        26 => 0b0000_1111_1100_1111,
        27 => 0b0000_1111_0011_1111,
        28 => 0b0000_1100_1111_1111,
        29 => 0b0000_0011_1111_1111,
        30 => 0b1111_1111_1100_0000,
        31 => 0b1111_1111_0011_0000,
        32 => 0b1111_1100_1111_0000,
        33 => 0b1111_0011_1111_0000,
        34 => 0b1100_1111_1111_0000,
        35 => 0b0011_1111_1111_0000,
        _ => 0,
    }
}

// Place j is its own.
pub fn takes_place(kind: u16, j: usize) -> bool
    requires { j < 16 }
    ensures { result ≡ takes kind j }
{
    (mask_of(kind) >> j) % 2 == 1
}

// What place j holds with no field: around it the largest aligned block of 4, 2 or 1 places that are all its own.
pub fn blank_of(kind: u16, j: usize) -> u16
    requires { j < 16 }
    ensures { result ≡ blank_at kind j }
{
    let m = mask_of(kind);
    if (m >> (4 * (j / 4))) % 16 == 15 {
        return 30;
    }
    if (m >> (2 * (j / 2))) % 4 == 3 {
        29
    } else {
        28
    }
}

// The place of position p among its span.
pub fn place_in(kind: u16, p: usize) -> usize
    requires { kind < 36 }
    ensures { (result < 16) × (result ≡ p % span kind) }
{
    if kind == 0 {
        return 0;
    }
    if kind == 1 {
        return p % 2;
    }
    if kind < 7 {
        return p % 4;
    }
    if kind < 12 { p % 8 } else { p % 16 }
}

// The first of the positions that it lies among, where it lies at p.
pub fn start_of(kind: u16, p: usize) -> usize
    requires { (kind < 36) × (p < 4096) }
    ensures { (result ≤ p) × (result ≡ span kind * (p / span kind)) }
{
    if kind == 0 {
        return p;
    }
    if kind == 1 {
        return p / 2 * 2;
    }
    if kind < 7 {
        return p / 4 * 4;
    }
    if kind < 12 { p / 8 * 8 } else { p / 16 * 16 }
}

// ---- the User fields

// The fields that the value v at place j gives to a resource with these places and this family.
fn place_share(mask: u16, family: u16, j: usize, v: u16) -> u16
    requires { j < 16 }
    ensures { (result ≤ 9) × (result ≡ place_share mask family j v) }
{
    if ((mask >> j) % 2 == 1) & (resource::family_of(v) == family) {
        resource::fields_of(v)
    } else {
        0
    }
}

// The same, where p, the position of the place, is one of the channel's.
fn channel_share(channel: usize, p: usize, f: u16) -> u16
    requires { f ≤ 9 }
    ensures { (result ≤ 9) × (result ≡ cond (eqb (p % 2 + 1) channel) f 0) }
{
    if p % 2 + 1 == channel { f } else { 0 }
}

// The fields of a channel (1 or 2) that are the resource's of this kind at position p.
pub fn fields_in(channel: usize, kind: u16, row: &[u16], p: usize) -> u16
    requires { (kind < 36) × (p < 4096) }
    ensures { (result ≤ 144) × (result ≡ fields_in channel kind (at row.now) p) }
{
    let n = span_of(kind);
    let b = start_of(kind, p);
    let places = mask_of(kind);
    let own = family_of(kind);
    let mut sum: u16 = 0;
    for i in 0..n {
        let f = place_share(places, own, i, value_at(row, b + i));
        sum += channel_share(channel, b + i, f);
    }
    sum
}

// The fields of both channels: those of all its places. One walk, where two calls of the function above would be two. One function for both, over
// what a place counts, would be no plainer: that closure needs a contract longer than this loop.
pub fn total_of(kind: u16, row: &[u16], p: usize) -> u16
    requires { (kind < 36) × (p < 4096) }
    ensures { (result ≤ 144) × (result ≡ together kind (at row.now) p) }
{
    let n = span_of(kind);
    let b = start_of(kind, p);
    let places = mask_of(kind);
    let own = family_of(kind);
    let mut sum: u16 = 0;
    for place in 0..n {
        sum += place_share(places, own, place, value_at(row, b + place));
    }
    sum
}
