// What a segment's four values say together, at one glance: where each value may stand is one number, its role, and the roles of four places
// that agree tell to what the places are given (01, "What a plan is"). What they do not tell, because it is wrong or wider than a
// segment, the crates `segments` and `spans` find out.
#![tactic(auto)]

ghost use Rattle.std.specs.Prelude.{◌≡◌, cond, leb, ◌+◌, ◌*◌, ◌/◌, ◌%◌, ◌^◌, ◌≤◌, ◌<◌};
ghost use Rattle.resource.specs.Values.{fields_of};
ghost use Rattle.roles.specs.Engine.{Role, no_role, bit, own_bits, pair_kinds, one_kinds, unsettled, over, by_pairs, named, by_one, settle_of};

// To what the four places of a segment are given, four bits each, the first place lowest; and the places whose User fields share their
// resource, bit j for place j. Marks of 65536 say that the roles do not tell, and of 131072 that a resource is over eight fields.
#[derive(Clone, Copy)]
pub struct Settled {
    pub kinds: u16,
    pub marks: u32,
}

// The role of a value, in hexadecimal digits from the right: two for its User fields; one that is f where it gives its position two or more; one
// with the bit of the 484+242 that it names; then two for each place of a segment, the first place lowest: bit c where the value may stand at
// the place in a segment of which kind c has every place, or all but this one. The first two digits are the fields that it gives to a resource
// larger than its position. One `match` of constants is one load from a fixed table.
pub fn role_of(v: u16) -> u64
    ensures { Role v (fields_of v) result }
{
    match v {
        0 => 0x0000_4121_1109_0009,
        1 => 0x0000_4121_1109_0008,
        2 => 0x0000_4121_1109_0008,
        3 => 0x0000_4121_1109_0007,
        4 => 0x0000_4121_1109_0008,
        5 => 0x0000_4121_1109_0007,
        6 => 0x0000_4121_1109_0007,
        7 => 0x0000_4121_1109_0006,
        8 => 0x0000_4121_1109_0008,
        9 => 0x0000_4121_1109_0007,
        10 => 0x0000_4121_1109_0007,
        11 => 0x0000_4121_1109_0006,
        12 => 0x0000_4121_1109_0007,
        13 => 0x0000_4121_1109_0006,
        14 => 0x0000_4121_1109_0006,
        15 => 0x0000_4121_1109_0005,
        16 => 0x0000_4121_1109_0006,
        17 => 0x0000_4121_1109_0005,
        18 => 0x0000_4121_1109_0005,
        19 => 0x0000_4121_1109_0004,
        20 => 0x0000_4121_1109_0006,
        21 => 0x0000_4121_1109_0005,
        22 => 0x0000_4121_1109_0005,
        23 => 0x0000_4121_1109_0004,
        24 => 0x0000_4121_1109_0004,
        25 => 0x0000_4121_1109_0003,
        26 => 0x0000_4121_1109_0000,
        27 => 0x0000_4121_1109_0000,
        28 => 0x0000_6161_1919_0000,
        29 => 0x0000_1a1a_6262_0000,
        30 => 0x0000_0404_0404_0000,
        48 => 0x0000_0021_1109_0002,
        50 => 0x0000_4100_1109_0002,
        64 => 0x0000_4121_1109_0001,
        65 => 0x0000_4121_1109_0f02,
        66 => 0x0000_4121_1109_0f03,
        67 => 0x0000_4121_1109_0f04,
        68 => 0x0000_4121_1109_0f05,
        69 => 0x0000_4121_1109_0f06,
        70 => 0x0000_4121_1109_0f07,
        71 => 0x0000_4121_1109_0f08,
        72 => 0x0100_0202_0202_0001,
        73 => 0x0200_0202_0202_0002,
        74 => 0x0300_0202_0202_0003,
        75 => 0x0400_0202_0202_0004,
        76 => 0x0500_0202_0202_0005,
        77 => 0x0600_0202_0202_0006,
        78 => 0x0700_0202_0202_0007,
        79 => 0x0800_0202_0202_0008,
        80 => 0x0100_0404_0404_0001,
        81 => 0x0200_0404_0404_0002,
        82 => 0x0300_0404_0404_0003,
        83 => 0x0400_0404_0404_0004,
        84 => 0x0500_0404_0404_0005,
        85 => 0x0600_0404_0404_0006,
        86 => 0x0700_0404_0404_0007,
        87 => 0x0800_0404_0404_0008,
        96 => 0x0100_0808_0800_1001,
        97 => 0x0200_0808_0800_1002,
        98 => 0x0300_0808_0800_1003,
        99 => 0x0400_0808_0800_1004,
        100 => 0x0500_0808_0800_1005,
        101 => 0x0600_0808_0800_1006,
        102 => 0x0700_0808_0800_1007,
        103 => 0x0800_0808_0800_1008,
        104 => 0x0100_1010_0010_2001,
        105 => 0x0200_1010_0010_2002,
        106 => 0x0300_1010_0010_2003,
        107 => 0x0400_1010_0010_2004,
        108 => 0x0500_1010_0010_2005,
        109 => 0x0600_1010_0010_2006,
        110 => 0x0700_1010_0010_2007,
        111 => 0x0800_1010_0010_2008,
        112 => 0x0100_2000_2020_4001,
        113 => 0x0200_2000_2020_4002,
        114 => 0x0300_2000_2020_4003,
        115 => 0x0400_2000_2020_4004,
        116 => 0x0500_2000_2020_4005,
        117 => 0x0600_2000_2020_4006,
        118 => 0x0700_2000_2020_4007,
        119 => 0x0800_2000_2020_4008,
        120 => 0x0100_0040_4040_8001,
        121 => 0x0200_0040_4040_8002,
        122 => 0x0300_0040_4040_8003,
        123 => 0x0400_0040_4040_8004,
        124 => 0x0500_0040_4040_8005,
        125 => 0x0600_0040_4040_8006,
        126 => 0x0700_0040_4040_8007,
        127 => 0x0800_0040_4040_8008,
        _ => 0,
    }
}

// The role of a place past the row: it is given to itself, and has no field.
pub fn no_role() -> u64
    ensures { result ≡ no_role }
{
    0x0000_4121_1109_0000
}

// The places that are given to themselves and whose fields share them.
fn own_bits(r0: u64, r1: u64, r2: u64, r3: u64) -> u32
    ensures { (result < 16) × (result ≡ own_bits r0 r1 r2 r3) }
{
    (((r0 & 256) + (r1 & 512) + (r2 & 1024) + (r3 & 2048)) >> 8) as u32
}

// The kinds of two pairs of which one at least is a 484: i has the lowest two bits of what agrees in the lower pair, and in the upper pair.
fn pairs_of(i: u64) -> u16
    ensures { result ≡ pair_kinds i }
{
    match i {
        6 => 0x0011,
        9 => 0x1100,
        10 => 0x1111,
        _ => 0,
    }
}

// The kinds of a segment that is one resource's, but for the place that a 484+242 leaves out, and above them which places are the resource's:
// i has what agrees in all four, from kind 2 on.
fn one_of(i: u64) -> u32
    ensures { result ≡ one_kinds i }
{
    match i {
        1 => 0x000f_2222,
        2 => 0x000e_3330,
        4 => 0x000d_4404,
        8 => 0x000b_5055,
        16 => 0x0007_0666,
        _ => 0,
    }
}

fn bits_if(t: u64, bits: u32) -> u32
    ensures { result ≡ cond (leb 2 t) bits 0 }
{
    if 2 <= t { bits } else { 0 }
}

fn not_told() -> Settled
    ensures { result ≡ unsettled }
{
    Settled {
        kinds: 0,
        marks: 65536,
    }
}

// These kinds are a plan, and one of its resources is over eight fields.
fn over_eight(kinds: u16) -> Settled
    ensures { result ≡ over kinds }
{
    Settled {
        kinds,
        marks: 131072,
    }
}

// Two pairs of these kinds, whose 484s have t and u fields.
fn by_pairs(kinds: u16, own: u32, t: u64, u: u64) -> Settled
    requires { own < 16 }
    ensures { result ≡ by_pairs kinds own t u }
{
    if (8 < t) | (8 < u) {
        return over_eight(kinds);
    }
    let marks = own + bits_if(t, 3) + bits_if(u, 12);
    Settled { kinds, marks }
}

// The resource is no 484+242, or the one that is named.
fn is_named(all: u64, names: u64) -> bool
    ensures { result ≡ named all names }
{
    (all / 4 % 2 == 1) | (names / 4096 % 16 == all / 8 % 16)
}

// One resource with t fields, from what agrees in all four places; a 484+242 must be named.
fn by_one(all: u64, names: u64, own: u32, t: u64) -> Settled
    requires { own < 16 }
    ensures { result ≡ by_one all names own t }
{
    let e = one_of(all / 4 % 32);
    if e == 0 {
        return not_told();
    }
    if !is_named(all, names) {
        return not_told();
    }
    if 8 < t {
        return over_eight((e % 65536) as u16);
    }
    let marks = own + bits_if(t, e / 65536);
    Settled {
        kinds: (e % 65536) as u16,
        marks,
    }
}

// What the roles of a segment's four values tell.
pub fn settle(r0: u64, r1: u64, r2: u64, r3: u64) -> Settled
    requires { (r0 < 2 ^ 60) × (r1 < 2 ^ 60) × (r2 < 2 ^ 60) × (r3 < 2 ^ 60) }
    ensures { result ≡ settle_of r0 r1 r2 r3 }
{
    let lower = (r0 >> 16) & (r1 >> 24);
    let upper = (r2 >> 32) & (r3 >> 40);
    let all = lower & upper;
    let own = own_bits(r0, r1, r2, r3);
    if all % 2 == 1 {
        return Settled {
            kinds: 0,
            marks: own,
        };
    }
    let t = (r0 + r1) >> 56;
    let u = (r2 + r3) >> 56;
    let pairs = pairs_of(lower % 4 + 4 * (upper % 4));
    if pairs != 0 {
        return by_pairs(pairs, own, t, u);
    }
    by_one(all, r0 | r1 | r2 | r3, own, t + u)
}
