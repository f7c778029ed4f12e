// To what the positions of a part of a row are given, sought "in the whole width, then in each half, down to one segment" (02, T-07). A kind
// of resource is its line in the table of crate `kinds`: those wider than a segment are lines 7 to 35, and 36 is none.
#![tactic(auto)]

ghost use Rattle.std.specs.Prelude.{◌≡◌, ◌⊎◌, cond, ◌+◌, ◌*◌, ◌/◌, ◌%◌, ◌≤◌, ◌<◌, min, length};
ghost use Rattle.answer.specs.Lists.{at};
ghost use Rattle.kinds.specs.Kinds.{takes};
ghost use Rattle.kinds.specs.Engine.{name_of, tell_tale, whole_or, sided};
ghost use Rattle.segments.specs.Engine.{or_else, first_named, Entered};
ghost use Rattle.spans.specs.Engine.{named, overlaid, part_plan};

// ---- the kind that a span names

// The kind, of those sought among n positions, that a value names.
fn name_in(n: usize, v: u16) -> u16
    requires { (n ≡ 8) ⊎ (n ≡ 16) }
    ensures { (result ≤ 36) × (result ≡ name_of n v) }
{
    let f = resource::family_of(v);
    if f == 11 {
        return if n == 8 { 7 } else { 36 };
    }
    if f < 16 {
        return 36;
    }
    if f < 38 {
        return if (f < 20) == (n == 8) { f - 8 } else { 36 };
    }
    36
}

// What the values before name, or else what v does; of four, `segments::named_or`, and why there are two.
fn named_or(n: usize, k: u16, v: u16) -> u16
    requires { ((n ≡ 8) ⊎ (n ≡ 16)) × (k ≤ 36) }
    ensures { (result ≤ 36) × (result ≡ or_else k (name_of n v)) }
{
    if k < 36 { k } else { name_in(n, v) }
}

// The first that the n values from b on name.
fn first_in(n: usize, row: &[u16], b: usize) -> u16
    requires { ((n ≡ 8) ⊎ (n ≡ 16)) × (b < 4096) }
    ensures { (result ≤ 36) × (result ≡ first_named n (at row.now) b n) }
{
    let mut k: u16 = 36;
    for i in 0..n {
        k = named_or(n, k, kinds::value_at(row, b + i));
    }
    k
}

// The value v may stand at a place of this kind, in a segment wholly its own.
fn whole_or(kind: u16, v: u16) -> bool
    ensures { result ≡ whole_or kind v }
{
    (v == 30) | (resource::family_of(v) == kinds::family_of(kind))
}

// The place that tells a 2x996+484 from the other of its family.
fn tell_tale(kind: u16) -> usize
    requires { (24 ≤ kind) × (kind < 30) }
    ensures { (result < 16) × (result ≡ tell_tale kind) }
{
    let j = usize::from(2 * (kind - 24));
    if kind < 26 { j + 4 } else { j }
}

// Which of the two it is, from the value at that place.
fn sided_by(kind: u16, v: u16) -> u16
    requires { (24 ≤ kind) × (kind < 30) }
    ensures { (result < 36) × (result ≡ sided kind v) }
{
    let has = kinds::takes_place(kind, tell_tale(kind));
    if whole_or(kind, v) == has {
        kind
    } else {
        kind + 6
    }
}

// The kind that the n positions from b on name, of those sought among n.
fn named_in(n: usize, row: &[u16], b: usize) -> u16
    requires { ((n ≡ 8) ⊎ (n ≡ 16)) × (b < 4096) }
    ensures { (result ≤ 36) × (result ≡ named n (at row.now) b) }
{
    let k = first_in(n, row, b);
    if k < 24 {
        return k;
    }
    if k < 30 {
        sided_by(k, kinds::value_at(row, b + tell_tale(k)))
    } else {
        k
    }
}

// ---- the search

// To what place j is given: to this kind where it has the place, or else to what it was.
fn over(kind: u16, j: usize, was: u16) -> u16
    requires { j < 16 }
    ensures { result ≡ cond (takes kind j) kind was }
{
    if kinds::takes_place(kind, j) {
        kind
    } else {
        was
    }
}

// Gives the places of the resource of this kind, among the positions from b up to e, to it.
fn overlay(kinds: &mut [u16; 16], kind: u16, b: usize, e: usize)
    requires { (length kinds.old ≡ 16) × (b ≤ e) × (e ≤ 16) }
    ensures { Entered (overlaid kind b (at kinds.old)) b e kinds.old kinds.new }
{
    for p in b..e {
        kinds[p] = over(kind, p - b, kinds[p]);
    }
}

// Enters to what the n positions from b on are given, as far as the row goes: what is sought among n, over what each half says; of a segment
// what the segment says.
pub fn enter_span(kinds: &mut [u16; 16], row: &[u16], b: usize, n: usize)
    requires { (length row.now ≤ 16) × (length kinds.old ≡ 16) × ((n ≡ 4) ⊎ ((n ≡ 8) ⊎ (n ≡ 16))) × (b % n ≡ 0) }
    ensures { Entered (part_plan n (at row.now)) b (min (b + n) (length row.now)) kinds.old kinds.new }
{
    if row.len() <= b {
        return;
    }
    if n == 4 {
        segments::enter_segment(kinds, row, b);
        return;
    }
    let half = n / 2;
    enter_span(kinds, row, b, half);
    enter_span(kinds, row, b + half, half);
    overlay(kinds, named_in(n, row, b), b, (b + n).min(row.len()));
}
