// The line of a resource that is larger than a position (01, "Listing"), by whole stores: its subcarriers by its places, segment by segment,
// and no list of runs is held.
#![tactic(auto)]

ghost use Rattle.std.specs.Prelude.{◌≡◌, map, ◌+◌, ◌/◌, ◌%◌, ◌≤◌, ◌<◌, length};
ghost use Rattle.text.specs.Text.{Wrote};
ghost use Rattle.resource.specs.Engine.{edge, span_of, the242_if, places_runs, spread_runs};
ghost use Rattle.records.specs.Records.{larger};
ghost use Rattle.records.specs.Engine.{larger_runs};
ghost use Rattle.resource_line.specs.ResourceLine.{ru_line};
ghost use Rattle.larger_line.specs.Engine.{class_kind, index_kind, index_in, comma_text};

// The number of its name, by its kind. One `match` of constants, so that it is one load from a fixed table.
#[tactic(auto, unfolding(crate::specs::Engine::class_kind))]
fn class_of(kind: u16) -> u32
    ensures { (result ≡ class_kind kind) × (result < 13) }
{
    match kind {
        1 => 5,
        2 => 6,
        3 => 9,
        4 => 9,
        5 => 9,
        6 => 9,
        7 => 7,
        8 => 10,
        9 => 10,
        10 => 10,
        11 => 10,
        12 => 8,
        13 => 8,
        14 => 8,
        15 => 8,
        16 => 12,
        17 => 12,
        18 => 12,
        19 => 12,
        20 => 12,
        21 => 12,
        22 => 12,
        23 => 12,
        24 => 11,
        25 => 11,
        26 => 11,
        27 => 11,
        28 => 11,
        29 => 11,
        30 => 11,
        31 => 11,
        32 => 11,
        33 => 11,
        34 => 11,
        35 => 11,
        _ => 0,
    }
}

// Its index, but a 484's.
#[tactic(auto, unfolding(crate::specs::Engine::index_kind))]
fn index_of(kind: u16) -> u32
    ensures { (result ≡ index_kind kind) × (result < 100) }
{
    match kind {
        2 => 1,
        3 => 1,
        4 => 2,
        5 => 3,
        6 => 4,
        7 => 1,
        8 => 1,
        9 => 2,
        10 => 3,
        11 => 4,
        12 => 1,
        13 => 2,
        14 => 3,
        15 => 4,
        16 => 1,
        17 => 2,
        18 => 3,
        19 => 4,
        20 => 5,
        21 => 6,
        22 => 7,
        23 => 8,
        24 => 1,
        25 => 2,
        26 => 3,
        27 => 4,
        28 => 5,
        29 => 6,
        30 => 7,
        31 => 8,
        32 => 9,
        33 => 10,
        34 => 11,
        35 => 12,
        _ => 0,
    }
}

// The lowest subcarrier of the 242 at position p.
fn edge_of(p: u32) -> u32
    requires { p < 32 }
    ensures { (result ≡ edge p) × (result < 8192) }
{
    if p % 2 == 0 {
        return 256 * p + 12;
    }
    256 * p + 3
}

// The 242 of position p, where it is a place of the resource's, and a comma.
fn put_place_if(out: &mut [u8], at: usize, n: u32, own: bool, p: u32) -> usize
    requires { (n ≤ 16) × (p < 32) × (at ≤ 800000) × (at + 12 ≤ length out.old) }
    ensures wrote { Wrote out.old at (comma_text n (the242_if own p)) out.new result }
    ensures bounded { result ≤ at + 12 }
{
    if own {
        let lo = edge_of(p);
        return stores::put_span(out, at, lo, lo + 242 - 1, 128 * n, b',' as u64);
    }
    at
}

// The runs of the places among the four positions from b on, a comma after each.
fn put_places(out: &mut [u8], at: usize, n: u32, b: u32, mask: u32) -> usize
    requires { (n ≤ 16) × (b < 28) × (at ≤ 700000) × (at + 48 ≤ length out.old) }
    ensures wrote { Wrote out.old at (comma_text n (places_runs b mask)) out.new result }
    ensures bounded { result ≤ at + 48 }
{
    if mask % 16 == 15 {
        let lo = 256 * b + 12;
        let up = 256 * b + 515;
        let a = stores::put_span(out, at, lo, lo + 498 - 1, 128 * n, b',' as u64);
        return stores::put_span(out, a, up, up + 498 - 1, 128 * n, b',' as u64);
    }
    let a = put_place_if(out, at, n, mask % 2 == 1, b);
    let c = put_place_if(out, a, n, mask / 2 % 2 == 1, b + 1);
    let d = put_place_if(out, c, n, mask / 4 % 2 == 1, b + 2);
    put_place_if(out, d, n, mask / 8 % 2 == 1, b + 3)
}

// Of the places in two segments.
fn put_two_segments(out: &mut [u8], at: usize, n: u32, b: u32, mask: u32) -> usize
    requires { (n ≤ 16) × (b < 24) × (at ≤ 690000) × (at + 96 ≤ length out.old) }
    ensures wrote { Wrote out.old at (comma_text n (spread_runs b mask 2)) out.new result }
    ensures bounded { result ≤ at + 96 }
{
    let a = put_places(out, at, n, b, mask % 16);
    put_places(out, a, n, b + 4, mask / 16 % 16)
}

// All runs of the resource of this kind at position p.
fn put_runs(out: &mut [u8], at: usize, n: u32, kind: u16, p: u32) -> usize
    requires { (n ≤ 16) × (kind < 36) × (p < 16) × (at ≤ 650000) × (at + 192 ≤ length out.old) }
    ensures wrote { Wrote out.old at (comma_text n (larger_runs kind p)) out.new result }
    ensures bounded { result ≤ at + 192 }
{
    let from = kinds::start_of(kind, p as usize) as u32;
    let mask = kinds::mask_of(kind) as u32;
    if kind < 7 {
        return put_places(out, at, n, 4 * (p / 4), mask << (from % 4));
    }
    let a = put_two_segments(out, at, n, from, mask);
    if kind < 12 {
        return a;
    }
    put_two_segments(out, a, n, from + 8, mask / 256)
}

fn index_at(kind: u16, q: u32) -> u32
    requires { q < 4 }
    ensures { (result ≡ index_in kind q) × (result < 100) }
{
    if kind == 1 {
        return q / 2 + 1;
    }
    index_of(kind)
}

// The line of the resource of this kind at position p, in a channel of n positions, where there is room.
pub fn put_line(out: &mut [u8], at: usize, n: u32, kind: u16, p: u32, users: u32) -> usize
    requires { (n ≤ 16) × (kind < 36) × (kind ≡ 0 → ⊥) × (p < 16) × (users < 10) × (at ≤ 600000) × (at + 240 ≤ length out.old) }
    ensures wrote { Wrote out.old at (ru_line (p / 4) (larger kind (p % 4)) users (map (span_of n) (larger_runs kind p))) out.new result }
    ensures bounded { result ≤ at + 240 }
{
    let k = class_of(kind);
    let i = index_at(kind, p % 4);
    let a = resource_line::put_start(out, at, k, i, p / 4, users);
    let b = put_runs(out, a, n, kind, p);
    text::put(out, b - 1, b'\n') // over the last comma
}
