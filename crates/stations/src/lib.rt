// The repeat check: no STA-ID from 1 to 2006 stands twice in a frame (01, "What comes back", 11).
#![tactic(auto)]

ghost use Rattle.std.specs.Prelude.{◌≡◌, ◌+◌, ◌/◌, ◌%◌, ◌^◌, ◌≤◌, ◌<◌, ◌&&◌, eqb, ltb, leb, length, replicate};
ghost use Rattle.std.specs.Int.Bits.{bit_or};
ghost use Rattle.answer.specs.Lists.{filled};
ghost use Rattle.stations.specs.Stations.{repeated, station_place, first_repeated, twice};
ghost use Rattle.stations.specs.Engine.{station_in, station_from, any_repeated};

use answer::Refusal;

// "room for 144 STA-IDs is set aside at once, empty": those of the first t User fields.
fn stations_of(fields: &[u32], t: usize) -> [u16; 144]
    requires { (t ≤ 144) × (t ≤ length fields.now) }
    ensures { result ≡ filled (station_in fields.now) t (replicate 144 0) }
{
    let mut ids = [0u16; 144];
    for j in 0..t {
        ids[j] = (fields[j] % 2048) as u16;
    }
    ids
}

// ---- whether any stands again: a bit for each STA-ID, in words of 64, and one answer gathered over all

// Whether a STA-ID that may not stand again has its bit in its word of the marks.
fn is_marked(w: u64, id: u16) -> bool
    ensures { result ≡ (ltb 0 id && leb id 2006) && eqb (w / 2 ^ (id % 64) % 2) 1 }
{
    (0 < id) & (id <= 2006) & ((w >> (id % 64)) % 2 == 1)
}

fn with_mark(w: u64, id: u16) -> u64
    ensures { result ≡ bit_or w (2 ^ (id % 64)) }
{
    w | (1 << (id % 64))
}

// Whether any that may not stand again does.
fn any_again(ids: &[u16]) -> bool
    ensures { result ≡ any_repeated (station_in ids.now) (length ids.now) }
{
    let mut marks = [0u64; 32];
    let mut again = false;
    for j in 0..ids.len() {
        let id = ids[j] % 2048;
        let k = id as usize / 64;
        let w = marks[k];
        again |= is_marked(w, id);
        marks[k] = with_mark(w, id);
    }
    again
}

// ---- the same of few, each by those before it: no room is cleared for them. A STA-ID stands from bit AT of its number on

// Whether the j-th may not stand again and does.
fn stands_again<const AT: u32>(numbers: &[u32], j: usize) -> bool
    requires { (AT < 32) × (j < length numbers.now) }
    ensures { result ≡ repeated (station_from AT numbers.now) j }
{
    let id = (numbers[j] >> AT) % 2048;
    let mut met = false;
    for i in 0..j {
        met |= (numbers[i] >> AT) % 2048 == id;
    }
    (0 < id) & (id <= 2006) & met
}

// Whether any does.
pub fn any_of_few<const AT: u32>(numbers: &[u32]) -> bool
    requires { AT < 32 }
    ensures { result ≡ any_repeated (station_from AT numbers.now) (length numbers.now) }
{
    let mut again = false;
    for j in 0..numbers.len() {
        again |= stands_again::<AT>(numbers, j);
    }
    again
}

// ---- which: asked only where one does

// The first that may not stand again and does. Only where there is one: this loop, with its way out, took up to 1.15 of the time of
// `any_again`, which gathers over all, where both were timed in C.
fn first_again(ids: &[u16]) -> usize
    ensures { (result ≤ length ids.now) × (result ≡ first_repeated (station_in ids.now) (length ids.now)) }
{
    let mut marks = [0u64; 32];
    for j in 0..ids.len() {
        let id = ids[j] % 2048;
        let k = id as usize / 64;
        let w = marks[k];
        if is_marked(w, id) {
            return j;
        }
        marks[k] = with_mark(w, id);
    }
    ids.len()
}

// The first of t fields whose STA-ID was seen before.
fn first_repeated(fields: &[u32], t: usize) -> usize
    requires { (t ≤ 144) × (t ≤ length fields.now) }
    ensures { (result ≤ t) × (result ≡ first_repeated (station_in fields.now) t) }
{
    if t < 2 {
        return t; // one station repeats none
    }
    if t <= 8 && !any_of_few::<0>(&fields[..t]) {
        return t;
    }
    let ids = stations_of(fields, t);
    if !any_again(&ids[..t]) {
        return t;
    }
    first_again(&ids[..t])
}

fn station_place(bw: u32, n: usize, j: usize) -> Refusal
    requires { (n ≤ 72) × (j ≤ n + 72) }
    ensures { result ≡ station_place bw n j }
{
    if j < n {
        Refusal::StationTwice {
            channel: 1,
            place: channel::user_bit(bw, j),
        }
    } else {
        Refusal::StationTwice {
            channel: 2,
            place: channel::user_bit(bw, j - n),
        }
    }
}

// Answer 11, of fields that are held as numbers: channel 1's n, then channel 2's m.
pub fn station_twice(fields: &[u32], bw: u32, n: usize, m: usize) -> Result<(), Refusal>
    requires { (n ≤ 72) × (m ≤ 72) × (n + m ≤ length fields.now) }
    ensures { result ≡ twice bw (station_in fields.now) n m }
{
    let j = first_repeated(fields, n + m);
    if j < n + m {
        return Err(station_place(bw, n, j));
    }
    Ok(())
}
