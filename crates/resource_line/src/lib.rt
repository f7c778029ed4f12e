// The line of a resource (01, "Listing"), into a lent buffer.
#![tactic(auto)]

ghost use Rattle.std.specs.Prelude.{◌≡◌, ◌+◌, ◌*◌, ◌/◌, ◌≤◌, ◌<◌, length, ◌++◌};
ghost use Rattle.text.specs.Text.{codes, Wrote};
ghost use Rattle.resource.specs.Engine.{span_of};
ghost use Rattle.resource_line.specs.ResourceLine.{size_text, pairing_text, name_text, comma, span_text, tones_text, ru_name, ru_head, ru_line};
ghost use Rattle.resource_line.specs.Engine.{held_spans, size_class, pairing_class, class_of, key_of, counts_text, start_text};
ghost use Rattle.resource_line.specs.Engine.{first_of, last_of, last_place, middle_of, named_text};

use resource::{Pairing, Resource, Run, Size, Tones};

fn put_size(out: &mut [u8], at: usize, size: Size) -> usize
    requires { at ≤ 1000000 }
    ensures wrote { Wrote out.old at (size_text size) out.new result }
    ensures bounded { result ≤ at + 5 }
{
    match size {
        Size::S26 => text::put_all(out, at, b"26"),
        Size::S52 => text::put_all(out, at, b"52"),
        Size::S106 => text::put_all(out, at, b"106"),
        Size::S242 => text::put_all(out, at, b"242"),
        Size::S484 => text::put_all(out, at, b"484"),
        Size::S996 => text::put_all(out, at, b"996"),
        Size::S2x996 => text::put_all(out, at, b"2x996"),
    }
}

fn put_pairing(out: &mut [u8], at: usize, pairing: Pairing) -> usize
    requires { at ≤ 1000000 }
    ensures wrote { Wrote out.old at (pairing_text pairing) out.new result }
    ensures bounded { result ≤ at + 9 }
{
    match pairing {
        Pairing::P106And26 => text::put_all(out, at, b"106+26"),
        Pairing::P484And242 => text::put_all(out, at, b"484+242"),
        Pairing::P996And484 => text::put_all(out, at, b"996+484"),
        Pairing::P3x996 => text::put_all(out, at, b"3x996"),
        Pairing::P2x996And484 => text::put_all(out, at, b"2x996+484"),
        Pairing::P3x996And484 => text::put_all(out, at, b"3x996+484"),
    }
}

fn put_name(out: &mut [u8], at: usize, r: Resource) -> usize
    requires { at ≤ 1000000 }
    ensures wrote { Wrote out.old at (name_text r) out.new result }
    ensures bounded { result ≤ at + 9 }
{
    match r {
        Resource::Single(size, _) => put_size(out, at, size),
        Resource::Joined(pairing, _) => put_pairing(out, at, pairing),
    }
}

fn put_comma(out: &mut [u8], at: usize, i: usize) -> usize
    requires { at ≤ 1000000 }
    ensures wrote { Wrote out.old at (comma i) out.new result }
    ensures bounded { result ≤ at + 1 }
{
    if i == 0 {
        return at;
    }
    text::put(out, at, b',')
}

// The i-th run, in a channel of n positions.
fn put_run(out: &mut [u8], at: usize, i: usize, run: Run, n: u16) -> usize
    requires { at ≤ 900000 }
    ensures wrote { Wrote out.old at (span_text i (span_of n run)) out.new result }
    ensures bounded { result ≤ at + 44 }
{
    let zero = 128 * (n as u64);
    let a = put_comma(out, at, i);
    let b = stores::put_signed(out, a, run.lo as u64, zero);
    let c = text::put(out, b, b':');
    stores::put_signed(out, c, run.hi as u64, zero)
}

// The runs of a resource.
fn put_tones(out: &mut [u8], at: usize, t: Tones, n: u16) -> usize
    requires { (at ≤ 800000) × (t.count ≤ 8) × (length t.runs ≡ 8) }
    ensures wrote { Wrote out.old at (tones_text (held_spans n t)) out.new result }
    ensures bounded { result ≤ at + 352 }
{
    let mut o = at;
    for (i, run) in t.runs[..t.count as usize].iter().enumerate() {
        o = put_run(out, o, i, *run, n);
    }
    o
}

// The name, the index and the segment g of a resource.
pub fn put_ru_name(out: &mut [u8], at: usize, g: u16, r: Resource) -> usize
    requires { at ≤ 800000 }
    ensures wrote { Wrote out.old at (ru_name g r) out.new result }
    ensures bounded { result ≤ at + 70 }
{
    let a = text::put_all(out, at, b"ru=");
    let b = put_name(out, a, r);
    let c = text::put_key(out, b, b" index=", resource::number_of(r) as u64);
    text::put_key(out, c, b" segment=", g as u64)
}

fn put_ru_head(out: &mut [u8], at: usize, g: u16, r: Resource, users: u64) -> usize
    requires { at ≤ 800000 }
    ensures wrote { Wrote out.old at (ru_head g r users) out.new result }
    ensures bounded { result ≤ at + 100 }
{
    let a = put_ru_name(out, at, g, r);
    text::put_key(out, a, b" users=", users)
}

// ---- a line by whole stores: the resource's name by its number in one list

fn size_class(size: Size) -> u32
    ensures { (result ≡ size_class size) × (result < 13) }
{
    match size {
        Size::S26 => 0,
        Size::S52 => 1,
        Size::S106 => 2,
        Size::S242 => 4,
        Size::S484 => 5,
        Size::S996 => 6,
        Size::S2x996 => 7,
    }
}

fn pairing_class(pairing: Pairing) -> u32
    ensures { (result ≡ pairing_class pairing) × (result < 13) }
{
    match pairing {
        Pairing::P106And26 => 3,
        Pairing::P484And242 => 9,
        Pairing::P996And484 => 10,
        Pairing::P3x996 => 8,
        Pairing::P2x996And484 => 11,
        Pairing::P3x996And484 => 12,
    }
}

// The number of a resource's name.
#[tactic(auto, unfolding(crate::specs::Engine::class_of))]
fn class_of(r: Resource) -> u32
    ensures { (result ≡ class_of r) × (result < 13) }
{
    match r {
        Resource::Single(size, _) => size_class(size),
        Resource::Joined(pairing, _) => pairing_class(pairing),
    }
}

// The first eight bytes of a line, by the number of its name. One `match` of constants each, so that it is one load from a fixed table; a
// constant takes no call of from_le_bytes, so the text stands beside it.
#[tactic(auto, unfolding(crate::specs::Engine::first_of))]
fn first_of(k: u32) -> u64
    ensures { result ≡ first_of k }
{
    match k {
        0 => 0x6E692036323D7572, // ru=26 in
        1 => 0x6E692032353D7572, // ru=52 in
        2 => 0x69203630313D7572, // ru=106 i
        3 => 0x322B3630313D7572, // ru=106+2
        4 => 0x69203234323D7572, // ru=242 i
        5 => 0x69203438343D7572, // ru=484 i
        6 => 0x69203639393D7572, // ru=996 i
        7 => 0x36393978323D7572, // ru=2x996
        8 => 0x36393978333D7572, // ru=3x996
        9 => 0x322B3438343D7572, // ru=484+2
        10 => 0x342B3639393D7572, // ru=996+4
        11 => 0x36393978323D7572, // ru=2x996
        12 => 0x36393978333D7572, // ru=3x996
        _ => 0,
    }
}

// The last eight before the index.
#[tactic(auto, unfolding(crate::specs::Engine::last_of))]
fn last_of(k: u32) -> u64
    ensures { result ≡ last_of k }
{
    match k {
        0 => 0x3D7865646E692036, // 6 index=
        1 => 0x3D7865646E692032, // 2 index=
        2 => 0x3D7865646E692036, // 6 index=
        3 => 0x3D7865646E692036, // 6 index=
        4 => 0x3D7865646E692032, // 2 index=
        5 => 0x3D7865646E692034, // 4 index=
        6 => 0x3D7865646E692036, // 6 index=
        7 => 0x3D7865646E692036, // 6 index=
        8 => 0x3D7865646E692036, // 6 index=
        9 => 0x3D7865646E692032, // 2 index=
        10 => 0x3D7865646E692034, // 4 index=
        11 => 0x3D7865646E692034, // 4 index=
        12 => 0x3D7865646E692034, // 4 index=
        _ => 0,
    }
}

// Where these begin.
#[tactic(auto, unfolding(crate::specs::Engine::last_place))]
fn last_place(k: u32) -> usize
    ensures { (result ≡ last_place k) × (result ≤ 11) }
{
    match k {
        0 => 4,
        1 => 4,
        2 => 5,
        3 => 8,
        4 => 5,
        5 => 5,
        6 => 5,
        7 => 7,
        8 => 7,
        9 => 9,
        10 => 9,
        11 => 11,
        12 => 11,
        _ => 0,
    }
}

// Of the names of four parts, the eight after the first.
#[tactic(auto, unfolding(crate::specs::Engine::middle_of))]
fn middle_of(k: u32) -> u64
    ensures { result ≡ middle_of k }
{
    match k {
        9 => 0x7865646E69203234, // 42 index
        10 => 0x7865646E69203438, // 84 index
        11 => 0x646E69203438342B, // +484 ind
        12 => 0x646E69203438342B, // +484 ind
        _ => 0,
    }
}

// The line up to its index, of a name of at most six bytes.
fn put_short_key(out: &mut [u8], at: usize, k: u32) -> usize
    requires { (k < 9) × (at ≤ 700000) × (at + 19 ≤ length out.old) }
    ensures wrote { Wrote out.old at (key_of k) out.new result }
    ensures bounded { result ≤ at + 19 }
{
    let j = last_place(k);
    stores::put_eight(out, at, first_of(k));
    stores::put_eight(out, at + j, last_of(k))
}

// Of a longer one.
fn put_long_key(out: &mut [u8], at: usize, k: u32) -> usize
    requires { (9 ≤ k) × (k < 13) × (at ≤ 700000) × (at + 19 ≤ length out.old) }
    ensures wrote { Wrote out.old at (key_of k) out.new result }
    ensures bounded { result ≤ at + 19 }
{
    let j = last_place(k);
    let a = stores::put_eight(out, at, first_of(k));
    stores::put_eight(out, a, middle_of(k));
    stores::put_eight(out, at + j, last_of(k))
}

fn put_key(out: &mut [u8], at: usize, k: u32) -> usize
    requires { (k < 13) × (at ≤ 700000) × (at + 19 ≤ length out.old) }
    ensures wrote { Wrote out.old at (key_of k) out.new result }
    ensures bounded { result ≤ at + 19 }
{
    if k < 9 {
        return put_short_key(out, at, k);
    }
    put_long_key(out, at, k)
}

// From the segment up to the subcarriers: three times eight bytes.
fn put_counts(out: &mut [u8], at: usize, g: u32, users: u32) -> usize
    requires { (g < 10) × (users < 10) × (at ≤ 800000) × (at + 24 ≤ length out.old) }
    ensures wrote { Wrote out.old at (counts_text g users) out.new result }
    ensures bounded { result ≡ at + 24 }
{
    let a = stores::put_eight(out, at, 0x3D746E656D676573); // segment=
    let b = stores::put_eight(out, a, 0x3D73726573752030 + g as u64); // 0 users=
    stores::put_eight(out, b, 0x3D73656E6F742030 + users as u64) // 0 tones=
}

// A line up to its subcarriers, by the number of the resource's name and by its index.
pub fn put_start(out: &mut [u8], at: usize, k: u32, i: u32, g: u32, users: u32) -> usize
    requires { (k < 13) × (i < 100) × (g < 10) × (users < 10) × (at ≤ 700000) × (at + 46 ≤ length out.old) }
    ensures wrote { Wrote out.old at (start_text k i g users) out.new result }
    ensures bounded { result ≤ at + 46 }
{
    let a = put_key(out, at, k);
    let b = stores::put_spaced(out, a, i);
    put_counts(out, b, g, users)
}

// A line up to its subcarriers, by a name of at most five bytes and by its index as `stores::spaced_of` has it.
pub fn put_named(
    out: &mut [u8],
    at: usize,
    name: u64,
    len: usize,
    index: u32,
    g: u32,
    users: u32,
) -> usize
    requires { (name < 1099511627776) × (len ≤ 5) × (index / 16777216 ≤ 4) × (g < 10) × (users < 10) × (at ≤ 700000) × (at + 43 ≤ length out.old) }
    ensures wrote { Wrote out.old at (named_text name len index g users) out.new result }
    ensures bounded { result ≡ at + (len + index / 16777216 + 34) }
{
    stores::put_eight(out, at, 0x3D7572 + 16777216 * name); // ru=
    let b = at + (3 + len);
    stores::put_eight(out, b, 0x3D7865646E6920); //  index=
    stores::put_four(out, b + 7, index as u64);
    put_counts(out, b + 7 + (index / 16777216) as usize, g, users)
}

// A line up to its subcarriers, of any numbers: `put_ru` takes any segment and users, of which whole stores have room for one digit each.
fn put_head_exact(out: &mut [u8], at: usize, g: u16, r: Resource, users: u64) -> usize
    requires { at ≤ 700000 }
    ensures wrote { Wrote out.old at (ru_head g r users ++ codes " tones=") out.new result }
    ensures bounded { result ≤ at + 107 }
{
    let a = put_ru_head(out, at, g, r, users);
    text::put_all(out, a, b" tones=")
}

// The same, by whole stores where the numbers are short and there is room.
fn put_head(out: &mut [u8], at: usize, g: u16, r: Resource, users: u64) -> usize
    requires { at ≤ 700000 }
    ensures wrote { Wrote out.old at (ru_head g r users ++ codes " tones=") out.new result }
    ensures bounded { result ≤ at + 107 }
{
    let i = resource::number_of(r);
    if out.len() < at + 46 || 100 <= i || 10 <= g || 10 <= users {
        return put_head_exact(out, at, g, r, users);
    }
    put_start(out, at, class_of(r), i as u32, g as u32, users as u32)
}

// The line of a resource of segment g, with so many User fields and these subcarriers, in a channel of n positions.
pub fn put_ru(
    out: &mut [u8],
    at: usize,
    n: u16,
    g: u16,
    r: Resource,
    users: u64,
    tones: Tones,
) -> usize
    requires { (at ≤ 700000) × (tones.count ≤ 8) × (length tones.runs ≡ 8) }
    ensures wrote { Wrote out.old at (ru_line g r users (held_spans n tones)) out.new result }
    ensures bounded { result ≤ at + 460 }
{
    let b = put_head(out, at, g, r, users);
    let c = put_tones(out, b, tones, n);
    text::put(out, c, b'\n')
}
