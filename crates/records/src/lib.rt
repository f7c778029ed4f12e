// The resources of a row's plan, and whose User field is whose (01, "What a plan is"). A kind of resource is a number, as in
// crate `kinds`: 0 is the position itself.
#![tactic(auto)]

ghost use Rattle.std.specs.Prelude.{◌≡◌, cond, eqb, ◌+◌, ◌%◌, ◌≤◌, ◌<◌, length, replicate};
ghost use Rattle.answer.specs.Lists.{build, filled};
ghost use Rattle.answer.specs.Lists.{at};
ghost use Rattle.kinds.specs.Kinds.{span};
ghost use Rattle.plan.specs.Engine.{only_plan};
ghost use Rattle.plan.specs.Engine.{kinds_of};
ghost use Rattle.resource.specs.Engine.{numbered_of};
ghost use Rattle.resource.specs.Engine.{held};
ghost use Rattle.records.specs.Records.{in_channel, piece_record, lead, larger, larger_record, records_of};
ghost use Rattle.records.specs.Engine.{larger_runs, listed};
ghost use Rattle.records.specs.Owns.{fields_before};
ghost use Rattle.records.specs.Engine.{lowest, owner_at, owner_of};
ghost use Rattle.records.specs.Engine.{numbers_of};

use resource::{Pairing, Piece, Resource, Size, Tones};

// A resource of the plan: its segment, its lowest position, and how many User fields of each channel are its own.
#[derive(Clone, Copy)]
pub struct Record {
    pub resource: Resource,
    pub segment: u16,
    pub position: u16,
    pub fields1: u16,
    pub fields2: u16,
}

// f where position p is one of the channel's (0 or 1).
fn in_channel(channel: usize, p: usize, f: u16) -> u16
    ensures { result ≡ in_channel channel p f }
{
    if p % 2 + 1 == channel { f } else { 0 }
}

// ---- a larger resource

// The resource of this kind at position q of its segment.
fn larger_of(kind: u16, q: u16) -> Resource
    requires { (kind < 36) × (q < 4) }
    ensures { result ≡ larger kind q }
{
    match kind {
        0 => Resource::Single(Size::S242, q + 1),
        1 => Resource::Single(Size::S484, q / 2 + 1),
        2 => Resource::Single(Size::S996, 1),
        3..=6 => Resource::Joined(Pairing::P484And242, kind - 2), // 1 to 4 by the place left out
        7 => Resource::Single(Size::S2x996, 1),
        8..=11 => Resource::Joined(Pairing::P996And484, kind - 7),
        12..=15 => Resource::Joined(Pairing::P3x996, kind - 11),
        16..=23 => Resource::Joined(Pairing::P3x996And484, kind - 15),
        _ => Resource::Joined(Pairing::P2x996And484, kind - 23),
    }
}

// The lowest of its places among its span: the first, or that after what it leaves out there. One `match` of constants, neighbours in arms
// of their own, so that it is one load from a fixed table: a listing asks it of every position.
fn lead_of(kind: u16) -> usize
    requires { kind < 36 }
    ensures { (result ≡ lead kind) × (result ≤ 6) }
{
    match kind {
        3 => 1,
        8 | 16 | 24 => 2,
        12 | 31 | 33 | 35 => 4,
        32 | 34 => 4,
        30 => 6,
        _ => 0,
    }
}

// The lowest place of the resource of this kind that lies at p.
fn lowest_of(kind: u16, p: usize) -> usize
    requires { (kind < 36) × (p < 4096) }
    ensures { (result ≡ lowest kind p) × (result ≤ 4102) }
{
    kinds::start_of(kind, p) + lead_of(kind)
}

// ---- the resources whose lowest position is p

// The piece x of position p, which is given to itself and has the value v.
pub fn piece_record(v: u16, p: usize, x: Piece) -> Record
    requires { (p < 4096) × (numbered_of x ≤ 9) }
    ensures { result ≡ piece_record (λ q. v) p x }
{
    let f = resource::piece_fields(v);
    Record {
        resource: resource::resource_at(p as u16, x),
        segment: (p / 4) as u16,
        position: p as u16,
        fields1: in_channel(1, p, f),
        fields2: in_channel(2, p, f),
    }
}

// The larger resource of this kind that lies at position p.
pub fn larger_record(kind: u16, row: &[u16], p: usize) -> Record
    requires { (kind < 36) × (p < 4096) }
    ensures { result ≡ larger_record kind (at row.now) p }
{
    Record {
        resource: larger_of(kind, (p % 4) as u16),
        segment: (p / 4) as u16,
        position: p as u16,
        fields1: kinds::fields_in(1, kind, row, p),
        fields2: kinds::fields_in(2, kind, row, p),
    }
}

// The subcarriers of the larger resource of this kind that lies at position p: its places among the four of its segment, or in
// the segments of its span.
pub fn larger_tones(kind: u16, p: usize) -> Tones
    requires { (kind < 36) × (p < 4096) }
    ensures { result ≡ held (larger_runs kind p) }
{
    let from = kinds::start_of(kind, p);
    let mask = kinds::mask_of(kind);
    if kind < 7 {
        return subcarriers::places_tones((4 * (p / 4)) as u32, mask << (from % 4));
    }
    subcarriers::spread_tones(
        from as u32,
        u32::from(mask),
        (kinds::span_of(kind) / 4) as u16,
    )
}

// Position p is the lowest place of the resource of this kind that lies there.
pub fn is_lowest(kind: u16, p: usize) -> bool
    requires { kind < 36 }
    ensures { result ≡ eqb (p % span kind) (lead kind) }
{
    kinds::place_in(kind, p) == lead_of(kind)
}

// How many of them there are, the position's value being v: a larger resource is listed at its lowest place alone.
pub fn listed_of(kind: u16, p: usize, v: u16) -> u16
    requires { (kind < 36) × (p < 4096) }
    ensures { (result ≡ listed kind p v) × (result ≤ 9) }
{
    if kind == 0 {
        return resource::pieces_of(v);
    }
    u16::from(is_lowest(kind, p))
}

// ---- the numbers of the resources, for what is asked of every position. The kinds, the numbers before and the row go together; they stay
// parameters of their own, as `numbers_before`, `count_in`, `first_owner` and `owners_of` are public, and a type of the three would ask callers more

// For each position, how many resources have a lower one for their lowest; past the last, how many there are. In room that is lent, so that
// nothing is copied.
pub fn enter_numbers(before: &mut [u16; 17], kinds: &[u16; 16], row: &[u16])
    requires { (before.old ≡ replicate 17 0) × (length row.now ≤ 16) × (kinds.now ≡ kinds_of row.now) }
    ensures { before.new ≡ numbers_of row.now }
{
    let n = row.len();
    let mut sum: u16 = 0;
    for p in 0..n {
        before[p] = sum;
        sum += listed_of(kinds[p], p, kinds::value_at(row, p)); // over the whole plan, not from each segment's first position
    }
    before[n] = sum;
}

// The same as a value.
pub fn numbers_before(kinds: &[u16; 16], row: &[u16]) -> [u16; 17]
    requires { (length row.now ≤ 16) × (kinds.now ≡ kinds_of row.now) }
    ensures { result ≡ numbers_of row.now }
{
    let mut before = [0u16; 17];
    enter_numbers(&mut before, kinds, row);
    before
}

// How many resources the row's plan has.
pub fn count_in(before: &[u16; 17], row: &[u16]) -> u16
    requires { (length row.now ≤ 16) × (before.now ≡ numbers_of row.now) }
    ensures { result ≡ length (records_of (only_plan (at row.now)) row.now) }
{
    before[row.len()]
}

// ---- the owners of all fields at once

// The number of the resource that owns the first field of position p.
pub fn first_owner(kinds: &[u16; 16], before: &[u16; 17], row: &[u16], p: usize) -> u16
    requires { (length row.now ≤ 16) × (p < length row.now) × (kinds.now ≡ kinds_of row.now) × (before.now ≡ numbers_of row.now) }
    ensures { result ≡ owner_at (only_plan (at row.now)) (at row.now) p 0 }
{
    if resource::is_divided(kinds::value_at(row, p)) {
        return before[p];
    }
    before[lowest_of(kinds[p], p)]
}

// Enters the owners of the fields that position p gives a channel, from field j on; returns the field after them.
fn enter_owners(
    owners: &mut [u16; 72],
    kinds: &[u16; 16],
    before: &[u16; 17],
    row: &[u16],
    channel: usize,
    p: usize,
    j: usize,
) -> usize
    requires row_len_bound { (length row.now ≤ 16) × (p < length row.now) × (kinds.now ≡ kinds_of row.now) × (before.now ≡ numbers_of row.now) }
    requires j_value { (j ≡ fields_before channel (at row.now) p)
        × (owners.old ≡ filled (owner_of (only_plan (at row.now)) (at row.now) channel (length row.now)) j (replicate 72 144)) }
    ensures value { result ≡ fields_before channel (at row.now) (p + 1) }
    ensures owners_after { owners.new
        ≡ filled (owner_of (only_plan (at row.now)) (at row.now) channel (length row.now)) result (replicate 72 144) }
{
    let v = kinds::value_at(row, p);
    let f = usize::from(in_channel(channel, p, resource::fields_of(v)));
    if f == 0 {
        return j;
    }
    let step = u16::from(resource::is_divided(v)); // each field of a divided position is another piece's
    let mut number = first_owner(kinds, before, row, p);
    for k in 0..f {
        owners[j + k] = number;
        number += step;
    }
    j + f
}

// The number of the resource that owns each field of a channel (0 or 1), by the row's tables; 144 where there is no such
// field.
pub fn owners_of(kinds: &[u16; 16], before: &[u16; 17], row: &[u16], channel: usize) -> [u16; 72]
    requires { (length row.now ≤ 16) × (kinds.now ≡ kinds_of row.now) × (before.now ≡ numbers_of row.now) }
    ensures { result ≡ build (owner_of (only_plan (at row.now)) (at row.now) channel (length row.now)) 72 }
{
    let mut owners = [144u16; 72];
    let mut j: usize = 0;
    for p in 0..row.len() {
        j = enter_owners(&mut owners, kinds, before, row, channel, p, j);
    }
    owners
}
