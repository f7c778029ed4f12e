// The subcarriers of a resource, as runs (01, "Index and subcarriers").
#![tactic(auto)]

ghost use Rattle.std.specs.Prelude.{◌≡◌, ◌+◌, ◌-◌, ◌*◌, ◌/◌, ◌%◌, ◌≤◌, ◌<◌, length, get_or, cond, List, [], ◌∷◌, ◌++◌, T, eqb};
ghost use Rattle.resource.specs.Index.{is_piece, from_positions, resource_at};
ghost use Rattle.resource.specs.Engine.{run_of, edge, the242, wide};
ghost use Rattle.resource.specs.Engine.{wide_with26, the242_if, places_runs, spread_runs};
ghost use Rattle.resource.specs.Engine.{narrow, narrow_with26, runs_of, no_run, held};

use resource::{Piece, Run, Size, Tones};

// n subcarriers from lo on.
fn run_of(lo: u32, n: u32) -> Run
    requires { (lo < 536870912) × (0 < n) × (n < 1024) }
    ensures { result ≡ run_of lo n }
{
    Run { lo, hi: lo + n - 1 }
}

fn no_run() -> Run
    ensures { result ≡ no_run }
{
    Run { lo: 0, hi: 0 }
}

// None, one or two runs. One function over a slice would be no plainer: it copies by a length, where these are each one literal.
#[tactic(auto, unfolding(resource::specs::Engine::held))]
fn no_tones() -> Tones
    ensures { result ≡ held [] }
{
    Tones {
        count: 0,
        runs: [no_run(); 8],
    }
}

#[tactic(auto, unfolding(resource::specs::Engine::held))]
fn one_run(a: Run) -> Tones
    ensures { result ≡ held (a ∷ []) }
{
    let none = no_run();
    Tones {
        count: 1,
        runs: [a, none, none, none, none, none, none, none],
    }
}

#[tactic(auto, unfolding(resource::specs::Engine::held))]
fn two_runs(a: Run, b: Run) -> Tones
    ensures { result ≡ held (a ∷ b ∷ []) }
{
    let none = no_run();
    Tones {
        count: 2,
        runs: [a, b, none, none, none, none, none, none],
    }
}

// The lowest subcarrier of the 242 at position p.
fn edge_of(p: u32) -> u32
    requires { p < 1048576 }
    ensures { (result ≡ edge p) × (result < 268435456) }
{
    if p % 2 == 0 {
        256 * p + 12
    } else {
        256 * p + 3
    }
}

fn run_242(p: u32) -> Run
    requires { p < 1048576 }
    ensures { result ≡ the242 p }
{
    run_of(edge_of(p), 242)
}

// Where the j-th of a size starts, by that size's table; 0 past its end.
fn start_in(table: &[u8], j: u16) -> u32
    ensures { (result ≡ get_or table.now j 0) × (result < 256) }
{
    match table.get(usize::from(j)) {
        Some(start) => u32::from(*start),
        None => 0,
    }
}

// How far above its 242's lowest subcarrier the j-th of each size starts, from 40 MHz.
const WIDE_26: [u8; 9] = [1, 27, 55, 81, 108, 135, 161, 189, 215];

const WIDE_52: [u8; 4] = [1, 55, 135, 189];

const WIDE_106: [u8; 2] = [1, 135];

// The runs of the j-th single resource of its size at position p of the channel, from 40 MHz.
#[tactic(auto, using(resource::proofs::Places::own_place), unfolding(resource::specs::Engine::wide))]
fn wide_tones(p: u32, size: Size, j: u16) -> Tones
    requires { p < 1000000 }
    ensures { result ≡ held (wide p size j) }
{
    match size {
        Size::S26 => one_run(run_of(edge_of(p) + start_in(&WIDE_26, j), 26)),
        Size::S52 => one_run(run_of(edge_of(p) + start_in(&WIDE_52, j), 52)),
        Size::S106 => one_run(run_of(edge_of(p) + start_in(&WIDE_106, j), 106)),
        Size::S242 => one_run(run_242(p)),
        Size::S484 => no_tones(),
        Size::S996 => no_tones(),
        Size::S2x996 => no_tones(),
    }
}

#[tactic(auto, unfolding(resource::specs::Engine::wide_with26))]
fn wide_joined(p: u32, j: u16) -> Tones
    requires { p < 1000000 }
    ensures { result ≡ held (wide_with26 p j) }
{
    let e = edge_of(p);
    if j == 0 {
        two_runs(run_of(e + 1, 106), run_of(e + 108, 26))
    } else {
        two_runs(run_of(e + 108, 26), run_of(e + 135, 106))
    }
}

// Where the j-th of each size starts, at 20 MHz; the middle 26 is in two parts, and stands here as 0.
const NARROW_26: [u8; 9] = [7, 33, 60, 86, 0, 145, 171, 198, 224];

const NARROW_52: [u8; 4] = [7, 60, 145, 198];

const NARROW_106: [u8; 2] = [6, 145];

// The runs of the j-th single resource of its size, at 20 MHz.
#[tactic(auto, unfolding(resource::specs::Engine::narrow))]
fn narrow_tones(size: Size, j: u16) -> Tones
    ensures { result ≡ held (narrow size j) }
{
    match size {
        Size::S26 => {
            if j == 4 {
                two_runs(run_of(112, 13), run_of(132, 13))
            } else {
                one_run(run_of(start_in(&NARROW_26, j), 26))
            }
        }
        Size::S52 => one_run(run_of(start_in(&NARROW_52, j), 52)),
        Size::S106 => one_run(run_of(start_in(&NARROW_106, j), 106)),
        Size::S242 => two_runs(run_of(6, 121), run_of(130, 121)),
        Size::S484 => no_tones(),
        Size::S996 => no_tones(),
        Size::S2x996 => no_tones(),
    }
}

// The middle 26 goes on in the 106 or the 106 in it.
#[tactic(auto, unfolding(resource::specs::Engine::narrow_with26))]
fn narrow_joined(j: u16) -> Tones
    ensures { result ≡ held (narrow_with26 j) }
{
    if j == 0 {
        two_runs(run_of(6, 119), run_of(132, 13))
    } else {
        two_runs(run_of(112, 13), run_of(132, 119))
    }
}

// The runs of the j-th single resource of its size at position p of a channel of n.
fn part_tones(n: u16, p: u16, size: Size, j: u16) -> Tones
    ensures { result ≡ held (cond (eqb n 1) (narrow size j) (wide p size j)) }
{
    if n == 1 {
        return narrow_tones(size, j);
    }
    wide_tones(u32::from(p), size, j)
}

fn with_26_tones(n: u16, p: u16, j: u16) -> Tones
    ensures { result ≡ held (cond (eqb n 1) (narrow_with26 j) (wide_with26 p j)) }
{
    if n == 1 {
        return narrow_joined(j);
    }
    wide_joined(u32::from(p), j)
}

// The subcarriers of a piece of position p of a channel of n.
pub fn piece_tones(n: u16, p: u16, x: Piece) -> Tones
    requires { T (is_piece x) × (from_positions x ≡ 1) }
    ensures { result ≡ held (runs_of n (p / 4) (resource_at (p % 4) x)) }
{
    match x {
        Piece::Part(size, i) => part_tones(n, p, size, i - 1),
        Piece::With26(i) => with_26_tones(n, p, i - 1),
    }
}

// The 242 of position p, where it is a place of the resource's, before the runs of t.
#[tactic(auto, using(resource::proofs::Held::held_before))]
fn with_242(own: bool, p: u32, t: Tones) -> Tones
    requires { (p < 1048576) × (t.count < 8) × (length t.runs ≡ 8) }
    ensures value { (rs : List Run) → t ≡ held rs → result ≡ held (the242_if own p ++ rs) }
    ensures bounded { (result.count ≤ t.count + 1) × (length result.runs ≡ 8) }
{
    if own {
        let x = t.runs;
        return Tones {
            count: t.count + 1,
            runs: [run_242(p), x[0], x[1], x[2], x[3], x[4], x[5], x[6]],
        };
    }
    t
}

// The subcarriers of a resource of whole positions, by its places among the four from b on, where its segment begins.
pub fn places_tones(b: u32, mask: u16) -> Tones
    requires { b < 1000000 }
    ensures { result ≡ held (places_runs b mask) }
{
    if mask % 16 == 15 {
        return two_runs(run_of(256 * b + 12, 498), run_of(256 * b + 515, 498));
    }
    let last = with_242(mask / 8 % 2 == 1, b + 3, no_tones());
    let upper = with_242(mask / 4 % 2 == 1, b + 2, last);
    let but_first = with_242(mask / 2 % 2 == 1, b + 1, upper);
    with_242(mask % 2 == 1, b, but_first)
}

// One run more, after those of t.
#[tactic(auto, using(resource::proofs::Held::held_after))]
fn with_run(t: Tones, a: Run) -> Tones
    requires { (t.count < 8) × (length t.runs ≡ 8) }
    ensures value { (rs : List Run) → t ≡ held rs → result ≡ held (rs ++ (a ∷ [])) }
    ensures bounded { (result.count ≡ t.count + 1) × (length result.runs ≡ 8) }
{
    let mut next = t;
    next.runs[usize::from(t.count)] = a;
    next.count = t.count + 1;
    next
}

// The runs of u, after those of t.
fn with_runs(t: Tones, u: Tones) -> Tones
    requires { (t.count + u.count ≤ 8) × (length t.runs ≡ 8) × (length u.runs ≡ 8) }
    ensures { (rs ws : List Run) → t ≡ held rs → u ≡ held ws → result ≡ held (rs ++ ws) }
{
    let mut next = t;
    for k in 0..usize::from(u.count) {
        next = with_run(next, u.runs[k]);
    }
    next
}

// Of one that lies in several segments.
pub fn spread_tones(b: u32, mask: u32, segments: u16) -> Tones
    requires { (b < 900000) × (segments ≤ 4) × (length (spread_runs b mask segments) ≤ 8) }
    ensures { result ≡ held (spread_runs b mask segments) }
{
    let mut t = no_tones();
    let mut left = mask;
    for s in 0..u32::from(segments) {
        t = with_runs(t, places_tones(b + 4 * s, (left % 16) as u16));
        left /= 16;
    }
    t
}
