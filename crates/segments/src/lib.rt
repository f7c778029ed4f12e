// To what the values of a segment give its positions, where nothing wider has them, and whether that signals the row (01, "What a plan is").
// A kind of resource is its line in the table of crate `kinds`: those that a segment can hold are lines 0 to 6.
#![tactic(auto)]

ghost use Rattle.std.specs.Prelude.{◌≡◌, ◌&&◌, ◌||◌, eqb, ◌+◌, ◌*◌, ◌/◌, ◌%◌, ◌≤◌, ◌<◌, length};
ghost use Rattle.answer.specs.Lists.{at};
ghost use Rattle.kinds.specs.Kinds.{family, span, takes, blank_at};
ghost use Rattle.kinds.specs.Engine.{name_of};
ghost use Rattle.segments.specs.Engine.{or_else, first_named, tells, choose, segment_plan, segment_kinds, Entered, fitting, within, first_wrong};
ghost use Rattle.segments.specs.Engine.{four_right, first_four_wrong};

// ---- the segment's guess

// The kind that a value names, of those that a segment can hold.
fn name_of(v: u16) -> u16
    ensures { (result ≤ 36) × (result ≡ name_of 4 v) }
{
    match resource::family_of(v) {
        12 => 3,
        13 => 4,
        14 => 5,
        15 => 6,
        _ => 36,
    }
}

// What the values before name, or else what v does. Crate `spans` has the same of 8 and 16 values: one function of both would be no plainer,
// as it would take the naming as a closure, and ask in a clause what that answers, for a body of a line.
fn named_or(k: u16, v: u16) -> u16
    requires { k ≤ 36 }
    ensures { (result ≤ 36) × (result ≡ or_else k (name_of 4 v)) }
{
    if k < 36 { k } else { name_of(v) }
}

// The first that the four values from b on name.
fn first_named(row: &[u16], b: usize) -> u16
    requires { b < 4096 }
    ensures { (result ≤ 36) × (result ≡ first_named 4 (at row.now) b 4) }
{
    let mut k: u16 = 36;
    for i in 0..4 {
        k = named_or(k, kinds::value_at(row, b + i));
    }
    k
}

// The first place of a resource of this kind may hold v.
#[tactic(auto, unfolding(crate::specs::Engine::tells))]
fn tells_kind(kind: u16, v: u16) -> bool
    ensures { result ≡ tells kind v }
{
    resource::family_of(v) == kinds::family_of(kind) || v == kinds::blank_of(kind, 0)
}

// From the kind that is named, the segment's first value, the pair's first value, and the place.
fn choice(k: u16, u: u16, v: u16, j: usize) -> u16
    requires { j < 4 }
    ensures { (result < 36) × (result ≡ choose k u v j) }
{
    if k < 36 {
        if kinds::takes_place(k, j) { k } else { 0 }
    } else if tells_kind(2, u) {
        2
    } else if tells_kind(1, v) {
        1
    } else {
        0
    }
}

// Enters to what the positions of the segment that begins at b are given; returns the position after it.
pub fn enter_segment(kinds: &mut [u16; 16], row: &[u16], b: usize) -> usize
    requires { (length row.now ≤ 16) × (b < length row.now) × (b % 4 ≡ 0) × (length kinds.old ≡ 16) }
    ensures ends { (b < result) × (result ≤ b + 4) × (result ≤ length row.now) × (result < length row.now → result ≡ b + 4) }
    ensures entered { Entered (segment_plan (at row.now)) b result kinds.old kinds.new }
{
    let k = first_named(row, b);
    let u = row[b];
    let e = (b + 4).min(row.len());
    for p in b..e {
        kinds[p] = choice(k, u, kinds::value_at(row, 2 * (p / 2)), p % 4);
    }
    e
}

// To what each position is given by its segment.
pub fn kinds_of(row: &[u16]) -> [u16; 16]
    requires { length row.now ≤ 16 }
    ensures { result ≡ segment_kinds row.now }
{
    let mut kinds = [0u16; 16];
    for s in 0..(row.len() + 3) / 4 {
        enter_segment(&mut kinds, row, 4 * s);
    }
    kinds
}

// ---- whether it signals the row

// The value v may stand at place j of this kind, which holds `blank` with no field.
fn fits_place(kind: u16, j: usize, v: u16, blank: u16) -> bool
    requires { (j < 16) × (blank ≡ blank_at kind j) }
    ensures { result ≡ (takes kind j && (eqb (v / 8) (family kind) || eqb v (blank_at kind j))) }
{
    kinds::takes_place(kind, j)
        & ((resource::family_of(v) == kinds::family_of(kind)) | (v == blank))
}

// What place j holds with no field, of one that a segment can hold: such a one has all four places, or not. Every row without wider resources
// asks it.
fn blank_in(kind: u16, j: usize) -> u16
    requires { (kind < 7) × (j < 4) }
    ensures { result ≡ blank_at kind j }
{
    let m = kinds::mask_of(kind);
    if m % 16 == 15 {
        return 30;
    }
    if (m >> (2 * (j / 2))) % 4 == 3 {
        29
    } else {
        28
    }
}

// The place of position p among the span of one that a segment can hold.
fn place_of(kind: u16, p: usize) -> usize
    requires { kind < 7 }
    ensures { (result < 4) × (result ≡ p % span kind) }
{
    match kind {
        0 => 0,
        1 => p % 2,
        _ => p % 4,
    }
}

// The value v may stand at position p, which is given to itself.
fn fits_alone(p: usize, v: u16) -> bool
    ensures { result ≡ fitting 0 p v }
{
    (resource::family_of(v) == 8) | (v == 28) | resource::is_smaller((p % 4) as u16, v)
}

// The value v may stand at position p, which is given to this kind.
pub fn fits(kind: u16, p: usize, v: u16) -> bool
    requires { kind < 36 }
    ensures { result ≡ fitting kind p v }
{
    if kind == 0 {
        return fits_alone(p, v);
    }
    let j = kinds::place_in(kind, p);
    fits_place(kind, j, v, kinds::blank_of(kind, j))
}

// The same, of those kinds that a segment can hold.
fn fits_at(kind: u16, p: usize, v: u16) -> bool
    requires { kind < 7 }
    ensures { result ≡ fitting kind p v }
{
    if kind == 0 {
        return fits_alone(p, v);
    }
    let j = place_of(kind, p);
    fits_place(kind, j, v, blank_in(kind, j))
}

// Every place of the resource of this kind at position p lies below n.
fn lies_within(kind: u16, p: usize, n: usize) -> bool
    requires { (kind < 36) × (p < n) × (n ≤ 16) }
    ensures { result ≡ within kind p n }
{
    usize::from(kinds::mask_of(kind)) < 1 << (n - kinds::start_of(kind, p))
}

// Position p of n, which is given to this kind and has the value v, is as the plan says.
fn is_right(kind: u16, p: usize, v: u16, n: usize) -> bool
    requires { (kind < 7) × (p < n) × (n ≤ 16) }
    ensures { result ≡ (fitting kind p v && within kind p n) }
{
    fits_at(kind, p, v) && lies_within(kind, p, n)
}

// The lowest position at which what the segments say does not signal the row.
pub fn first_wrong(kinds: &[u16; 16], row: &[u16]) -> usize
    requires { (length row.now ≤ 16) × (kinds.now ≡ segment_kinds row.now) }
    ensures { result ≡ first_wrong row.now }
{
    let n = row.len();
    for p in 0..n {
        if !is_right(kinds[p], p, row[p], n) {
            return p;
        }
    }
    n
}

// ---- the same of whole segments, without a place: most rows that are asked have a wrong one, and what is seen of four values at once waits for no branch

// To what position p of the segment that begins at b is given, from the kind that is named, the segment's first value and the pair's.
fn kind_by(row: &[u16], b: usize, p: usize, k: u16, u: u16, v: u16) -> u16
    requires { (b % 4 ≡ 0) × (b ≤ p) × (p < b + 4) × (k ≡ first_named 4 (at row.now) b 4) × (u ≡ at row.now b) × (v ≡ at row.now (2 * (p / 2))) }
    ensures { (result < 7) × (result ≡ segment_plan (at row.now) p) }
{
    choice(k, u, v, p % 4)
}

// Each position of the segment that begins at b, which is whole, fits what it is given to.
fn is_four_right(row: &[u16], b: usize) -> bool
    requires { (b % 4 ≡ 0) × (b < 4096) × (b + 3 < length row.now) }
    ensures { result ≡ four_right (at row.now) b }
{
    let k = first_named(row, b);
    let u = row[b];
    let v = row[b + 2];
    let first = fits_at(kind_by(row, b, b, k, u, u), b, u);
    let second = fits_at(kind_by(row, b, b + 1, k, u, u), b + 1, row[b + 1]);
    let third = fits_at(kind_by(row, b, b + 2, k, u, v), b + 2, v);
    let fourth = fits_at(kind_by(row, b, b + 3, k, u, v), b + 3, row[b + 3]);
    first & second & third & fourth
}

// The lowest whole segment of which that is not so; their number where there is none.
pub fn first_four_wrong(row: &[u16]) -> usize
    requires { length row.now ≤ 16 }
    ensures { result ≡ first_four_wrong row.now }
{
    let n = row.len() / 4;
    for s in 0..n {
        if !is_four_right(row, 4 * s) {
            return s;
        }
    }
    n
}
