// The pieces of a value as numbers, so that what a line says of a piece is a load from a fixed table: a piece's code is its place among those
// of its kind, and 16 for each kind before.
#![tactic(auto)]

ghost use Rattle.std.specs.Prelude.{◌≡◌, cond, eqb, ◌≤◌, ◌<◌};
ghost use Rattle.resource.specs.Engine.{edge};
ghost use Rattle.piece_codes.specs.Engine.{codes_of, wide_at, narrow_at, word_at, each_of, index_at};
ghost use Rattle.piece_codes.specs.Engine.{is_single, place_of, entry_of, entry_at};

// The codes of all pieces of a value that leaves its position to itself, seven bits each, the first lowest.
pub fn codes_of(v: u16) -> u64
    ensures { result ≡ codes_of v }
{
    match v {
        64..=71 => 65,
        0 => 653052939803345153,
        1 => 11289992903049473,
        2 => 5102388138524929,
        3 => 88615115866369,
        4 => 5101976092442881,
        5 => 88203069784321,
        6 => 39862407561473,
        7 => 692305821953,
        8 => 5101976092213649,
        9 => 88203069555089,
        10 => 39862407332241,
        11 => 692305592721,
        12 => 39859188222225,
        13 => 689086482705,
        14 => 311425059089,
        15 => 5408639249,
        16 => 1169581719809,
        17 => 9137586433,
        18 => 9137357201,
        19 => 71387409,
        20 => 311399908001,
        21 => 5383488161,
        22 => 2433008289,
        23 => 42255009,
        24 => 42256657,
        25 => 557729,
        28 => 65,
        48 => 4401,
        50 => 6433,
        _ => 0,
    }
}

// The subcarriers of a piece above its 242's lowest one, from 40 MHz: of each run the first, and how many, eight bits each.
fn wide_at(c: u32) -> u32
    requires { c < 128 }
    ensures { result ≡ wide_at c }
{
    match c {
        1 => 6657,
        2 => 6683,
        3 => 6711,
        4 => 6737,
        5 => 6764,
        6 => 6791,
        7 => 6817,
        8 => 6845,
        9 => 6871,
        17 => 13313,
        18 => 13367,
        19 => 13447,
        20 => 13501,
        33 => 27137,
        34 => 27271,
        49 => 443312641,
        50 => 1787239020,
        65 => 61952,
        _ => 0,
    }
}

// At 20 MHz, above the channel's lower edge.
fn narrow_at(c: u32) -> u32
    requires { c < 128 }
    ensures { result ≡ narrow_at c }
{
    match c {
        1 => 6663,
        2 => 6689,
        3 => 6716,
        4 => 6742,
        5 => 226758000,
        6 => 6801,
        7 => 6827,
        8 => 6854,
        9 => 6880,
        17 => 13319,
        18 => 13372,
        19 => 13457,
        20 => 13510,
        33 => 27142,
        34 => 27281,
        49 => 226785030,
        50 => 2005142896,
        65 => 2038593798,
        _ => 0,
    }
}

// In a channel of n positions.
pub fn word_at(n: u32, c: u32) -> u32
    requires { c < 128 }
    ensures { result ≡ word_at n c }
{
    if n == 1 {
        return narrow_at(c);
    }
    wide_at(c)
}

// What these are counted from at position p.
pub fn base_of(n: u32, p: u32) -> u32
    requires { p < 16 }
    ensures { (result ≡ cond (eqb n 1) 0 (edge p)) × (result < 4096) }
{
    if n == 1 {
        return 0;
    }
    if p % 2 == 0 {
        return 256 * p + 12;
    }
    256 * p + 3
}

// How many of a kind a position has.
#[tactic(auto, unfolding(crate::specs::Engine::each_of))]
fn each_of(k: u32) -> u32
    ensures { (result ≡ each_of k) × (result ≤ 9) }
{
    match k {
        0 => 9,
        1 => 4,
        2 => 2,
        3 => 2,
        4 => 1,
        _ => 0,
    }
}

// The index of a piece at place q of its segment: 19 does not exist among the 26s.
#[tactic(auto, unfolding(crate::specs::Engine::index_at))]
pub fn index_at(q: u32, c: u32) -> u32
    requires { (q < 4) × (c < 128) }
    ensures { (result ≡ index_at q c) × (result < 100) }
{
    let k = c / 16;
    let all = each_of(k) * q + c % 16;
    if k == 0 {
        return all + q / 2;
    }
    all
}

// ---- the pieces of one run: all that their lines say, by one load

// Whether the piece of this code is one run of subcarriers, in a channel of n positions.
#[tactic(auto, unfolding(crate::specs::Engine::is_single))]
pub fn is_single(n: u32, c: u32) -> bool
    ensures { result ≡ is_single n c }
{
    if n == 1 {
        return (c != 5) & (c < 48);
    }
    c / 16 != 3
}

// Where those at 20 MHz begin.
fn shift_of(n: u32) -> u32
    ensures { (result ≡ cond (eqb n 1) 40 0) × (result ≤ 40) }
{
    if n == 1 {
        return 40;
    }
    0
}

// Its place among them: the codes side by side.
#[tactic(auto, unfolding(crate::specs::Engine::place_of))]
fn place_of(n: u32, c: u32) -> u32
    requires { c < 128 }
    ensures { (result ≡ place_of n c) × (result < 128) }
{
    c - 7 * (c / 16) + shift_of(n)
}

// From the lowest byte: its first subcarrier, three bytes of its name, its last subcarrier, twice its index's step from position to position,
// its index in the first one, its name's length.
#[tactic(auto, unfolding(crate::specs::Engine::entry_of))]
fn entry_of(d: u32) -> u64
    requires { d < 128 }
    ensures { result ≡ entry_of d }
{
    match d {
        1 => 0x201131a00363201,
        2 => 0x20213340036321b,
        3 => 0x203135000363237,
        4 => 0x204136a00363251,
        5 => 0x20513850036326c,
        6 => 0x20613a000363287,
        7 => 0x20713ba003632a1,
        8 => 0x20813d6003632bd,
        9 => 0x20913f0003632d7,
        10 => 0x201083400323501,
        11 => 0x202086a00323537,
        12 => 0x20308ba00323587,
        13 => 0x20408f0003235bd,
        19 => 0x301046a36303101,
        20 => 0x30204f036303187,
        37 => 0x30102f132343200,
        41 => 0x201132000363207,
        42 => 0x202133a00363221,
        43 => 0x20313550036323c,
        44 => 0x204136f00363256,
        46 => 0x20613aa00363291,
        47 => 0x20713c4003632ab,
        48 => 0x20813df003632c6,
        49 => 0x20913f9003632e0,
        50 => 0x201083a00323507,
        51 => 0x202086f0032353c,
        52 => 0x20308c400323591,
        53 => 0x20408f9003235c6,
        59 => 0x301046f36303106,
        60 => 0x30204fa36303191,
        _ => 0,
    }
}

pub fn entry_at(n: u32, c: u32) -> u64
    requires { c < 128 }
    ensures { result ≡ entry_at n c }
{
    entry_of(place_of(n, c))
}
