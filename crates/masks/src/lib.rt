// A resource as the 26s that it takes of its segment, 36 bits, and the pairs of such masks that meet. No subcarrier is walked: two resources
// that share a subcarrier share one of these.
#![tactic(auto)]

ghost use Rattle.std.specs.Prelude.{◌≡◌, ◌+◌, ◌*◌, ◌≤◌, ◌<◌, length, take};
ghost use Rattle.answer.specs.Lists.{at};
ghost use Rattle.answer.specs.Tally.{tally};
ghost use Rattle.masks.specs.Engine.{mask_of, meet, apart_to, hit, pairs_to};

// The 26s that the resource of a value takes.
pub fn mask_of(v: u16) -> u64
    ensures { result ≡ mask_of v }
{
    match v {
        0..=17 => 1 << v,
        18..=36 => 1 << (v - 1),
        37..=52 => 3 << (9 * ((v - 37) / 4) + 2 * ((v - 37) % 4) + (v - 37) % 4 / 2),
        53..=60 => 15 << (9 * ((v - 53) / 2) + 5 * ((v - 53) % 2)),
        61..=64 => 511 << (9 * (v - 61)),
        65..=66 => 262143 << (18 * (v - 65)),
        67..=81 => 68719476735,
        82..=89 => 31 << (9 * ((v - 82) / 2) + 4 * ((v - 82) % 2)),
        90..=93 => 68719476735 - (511 << (9 * (v - 90))),
        _ => 0,
    }
}

// Two that are not the same and have a 26 in common.
fn is_meeting(a: u64, b: u64) -> bool
    ensures { result ≡ meet a b }
{
    (a != b) & (a & b != 0)
}

// Whether each of the first n takes only 26s that none before it takes. Most lists are so, and then no two "share a subcarrier" (02, T-02),
// which one walk of at most 32 masks shows instead of 496 pairs. A group is not so: its list has its pairs looked at.
pub fn all_apart(masks: &[u64; 32], n: usize) -> bool
    requires { n ≤ 32 }
    ensures { result ≡ apart_to (at masks.now) n }
{
    let mut apart = true;
    let mut seen = 0;
    for i in 0..n {
        let m = masks[i];
        apart = apart & (seen & m == 0);
        seen = seen | m;
    }
    apart
}

// ---- the pairs whose masks meet, among the first n: pair 32 i + j is entries i and j

// Those of which entry i is the earlier, found past the ones before, which end at byte `to`; where they end. "earlier entry first, pairs in
// rising order" (02, T-02). Each pair is stored, and the next one over it where it does not meet: no branch is there to be guessed wrong.
fn find_row(found: &mut [u8; 1024], to: usize, masks: &[u64; 32], n: usize, i: usize) -> usize
    requires { (i < n) × (n ≤ 32) × (to ≡ 2 * tally (hit (at masks.now) n) (32 * i))
        × (length found.old ≡ 1024) × (take to found.old ≡ pairs_to (at masks.now) n (32 * i)) }
    ensures value { result ≡ 2 * tally (hit (at masks.now) n) (32 * (i + 1)) }
    ensures found_after { take result found.new ≡ pairs_to (at masks.now) n (32 * (i + 1)) }
    ensures found_len { length found.new ≡ 1024 }
{
    let a = masks[i];
    let mut end = to;
    for j in i + 1..n {
        found[end] = (i + 1) as u8;
        found[end + 1] = (j + 1) as u8;
        end += 2 * usize::from(is_meeting(a, masks[j]));
    }
    end
}

// All of them; where they end.
pub fn find_pairs(found: &mut [u8; 1024], masks: &[u64; 32], n: usize) -> usize
    requires { (n ≤ 32) × (length found.old ≡ 1024) }
    ensures value { result ≡ 2 * tally (hit (at masks.now) n) (32 * n) }
    ensures found_after { take result found.new ≡ pairs_to (at masks.now) n (32 * n) }
    ensures found_len { length found.new ≡ 1024 }
{
    let mut end = 0;
    for i in 0..n {
        end = find_row(found, end, masks, n, i);
    }
    end
}
