// Where everything lies in a channel, by bandwidth code: its fields, its row of values, its User fields and blocks.
#![tactic(auto)]

ghost use Rattle.std.specs.Prelude.{◌≡◌, true, ◌+◌, ◌*◌, ◌≤◌, length};
ghost use Rattle.answer.specs.Lists.{filled};
ghost use Rattle.bits.specs.Bits.{field};
ghost use Rattle.channel.specs.Engine.{first_part, second_part, parts_of, part_at, Turns};
ghost use Rattle.channel.specs.Layout.{positions, present, firsts, seconds, first_bits, second_at, second_bits, has_second, common};
ghost use Rattle.channel.specs.Layout.{subfields_in, value_at, value, user_at, block_at, covered, end_of};

// The common fields of a frame: each part of each channel, with its check and tail, in the lowest bits of a number.
#[derive(Clone, Copy)]
pub struct Parts {
    pub first1: u64,
    pub first2: u64,
    pub second1: u64,
    pub second2: u64,
}

// Whether the bandwidth has the channel.
#[tactic(auto, unfolding(crate::specs::Layout::present))]
pub fn is_present(bw: u32, channel: u32) -> bool
    ensures { result ≡ present bw channel }
{
    (channel == 1) | (0 < bw)
}

pub fn positions_of(bw: u32) -> usize
    requires { bw ≤ 4 }
    ensures value { result ≡ positions bw }
    ensures upper_bound { result ≤ 16 }
{
    1 << bw
}

// How many RU Allocation subfields a channel has in the first part of its common field, and in the second.
#[tactic(auto, unfolding(crate::specs::Layout::firsts))]
pub fn firsts_of(bw: u32) -> usize
    ensures value { result ≡ firsts bw }
    ensures upper_bound { result ≤ 2 }
{
    if bw < 2 { 1 } else { 2 }
}

#[tactic(auto, unfolding(crate::specs::Layout::seconds))]
pub fn seconds_of(bw: u32) -> usize
    ensures value { result ≡ seconds bw }
    ensures upper_bound { result ≤ 6 }
{
    if bw == 3 {
        return 2;
    }
    if bw == 4 { 6 } else { 0 }
}

// The bits that the first common check covers, from bit 0; so its place too.
#[tactic(auto, unfolding(crate::specs::Layout::first_bits))]
pub fn first_bits(bw: u32) -> usize
    ensures value { result ≡ first_bits bw }
    ensures upper_bound { result ≤ 35 }
{
    17 + 9 * firsts_of(bw)
}

// The bits that the second covers, from the end of the first tail.
#[tactic(auto, unfolding(crate::specs::Layout::second_bits))]
pub fn second_bits(bw: u32) -> usize
    ensures value { result ≡ second_bits bw }
    ensures upper_bound { result ≤ 54 }
{
    9 * seconds_of(bw)
}

// Where they start.
#[tactic(auto, unfolding(crate::specs::Layout::second_at))]
pub fn second_at(bw: u32) -> usize
    ensures value { result ≡ second_at bw }
    ensures upper_bound { result ≤ 45 }
{
    first_bits(bw) + 10
}

// The first bit of the second common check.
pub fn second_check(bw: u32) -> usize
    ensures value { result ≡ second_at bw + second_bits bw }
    ensures upper_bound { result ≤ 99 }
{
    second_at(bw) + second_bits(bw)
}

#[tactic(auto, unfolding(crate::specs::Layout::has_second))]
pub fn has_second(bw: u32) -> bool
    ensures { result ≡ has_second bw }
{
    0 < seconds_of(bw)
}

#[tactic(auto, unfolding(crate::specs::Layout::common))]
pub fn common_bits(bw: u32) -> usize
    ensures value { result ≡ common bw }
    ensures upper_bound { result ≤ 109 }
{
    if has_second(bw) {
        second_check(bw) + 10
    } else {
        second_at(bw)
    }
}

// How many RU Allocation subfields the channel has.
#[tactic(auto, unfolding(crate::specs::Layout::subfields_in, crate::specs::Layout::subfields))]
pub fn subfields_of(bw: u32, channel: u32) -> usize
    ensures value { result ≡ subfields_in bw channel }
    ensures upper_bound { result ≤ 8 }
{
    if is_present(bw, channel) {
        firsts_of(bw) + seconds_of(bw)
    } else {
        0
    }
}

// The first bit of the k-th of them.
#[tactic(auto, unfolding(crate::specs::Layout::value_at))]
pub fn value_bit(bw: u32, k: usize) -> usize
    requires { k ≤ 8 }
    ensures { result ≡ value_at bw k }
{
    let n = firsts_of(bw);
    if k < n {
        return 17 + 9 * k;
    }
    second_at(bw) + 9 * (k - n)
}

pub fn value_of(bw: u32, s: &[u8], k: usize) -> u16
    requires { k ≤ 8 }
    ensures { result ≡ value bw s.now k }
{
    bits::field_at(s, value_bit(bw, k), 9) as u16
}

// The first part of the common field, which is there, with its check and tail.
fn first_part(bw: u32, s: &[u8]) -> u64
    requires { (bw ≤ 4) × (common bw ≤ 8 * length s.now) }
    ensures { result ≡ first_part bw s.now }
{
    if bw < 2 {
        bits::front(s, 5)
    } else {
        bits::front(s, 6)
    }
}

// The 64 bits from bit 45, which are there.
fn from_45(s: &[u8]) -> u64
    requires { 14 ≤ length s.now }
    ensures { result ≡ field s.now 45 64 }
{
    u64::from(bits::four(s, 2) >> 29) + (bits::eight(s, 6) << 3)
}

// The second part, 0 where there is none.
fn second_part(bw: u32, s: &[u8]) -> u64
    requires { (bw ≤ 4) × (common bw ≤ 8 * length s.now) }
    ensures { result ≡ second_part bw s.now }
{
    if bw == 3 {
        return bits::eight(s, 2) >> 29;
    }
    if bw == 4 { from_45(s) } else { 0 }
}

// The common fields of a frame, which are there: each part is read once. At 20 MHz nothing is worked out for channel 2.
pub fn parts_of(bw: u32, a: &[u8], b: &[u8]) -> Parts
    requires { (bw ≤ 4) × (common bw ≤ 8 * length a.now) × (present bw 2 ≡ true → common bw ≤ 8 * length b.now) }
    ensures { result ≡ parts_of bw a.now b.now }
{
    let first1 = first_part(bw, a);
    if bw == 0 {
        return Parts {
            first1,
            first2: 0,
            second1: 0,
            second2: 0,
        };
    }
    let first2 = first_part(bw, b);
    let second1 = second_part(bw, a);
    let second2 = second_part(bw, b);
    Parts {
        first1,
        first2,
        second1,
        second2,
    }
}

// The n lowest values of x and those of y, taking turns from position p on.
fn put_turns(row: &mut [u16; 16], p: usize, n: usize, x: u64, y: u64)
    requires { (n ≤ 6) × (p ≤ 4) × (length row.old ≡ 16) }
    ensures { Turns row.old p n x y row.new }
{
    for k in 0..n {
        row[p + 2 * k] = ((x >> (9 * k)) % 512) as u16;
        row[p + 2 * k + 1] = ((y >> (9 * k)) % 512) as u16;
    }
}

// The row by rising position, at the front of sixteen.
pub fn put_row(row: &mut [u16; 16], bw: u32, parts: Parts)
    requires { (length row.old ≡ 16) × (bw ≤ 4) }
    ensures { row.new ≡ filled (part_at bw parts) (positions bw) row.old }
{
    if bw == 0 {
        row[0] = ((parts.first1 >> 17) % 512) as u16;
        return;
    }
    let n = firsts_of(bw);
    let m = seconds_of(bw);
    put_turns(row, 0, n, parts.first1 >> 17, parts.first2 >> 17);
    put_turns(row, 2 * n, m, parts.second1, parts.second2);
}

// The first bit of User field i.
#[tactic(auto, unfolding(crate::specs::Layout::user_at))]
pub fn user_bit(bw: u32, i: usize) -> usize
    requires { i ≤ 72 }
    ensures { result ≡ user_at bw i }
{
    common_bits(bw) + 54 * (i / 2) + 22 * (i % 2)
}

// The first bit of User block b.
#[tactic(auto, unfolding(crate::specs::Layout::block_at))]
pub fn block_bit(bw: u32, b: usize) -> usize
    requires { b ≤ 36 }
    ensures value { result ≡ block_at bw b }
    ensures upper_bound { result ≤ 2053 }
{
    common_bits(bw) + 54 * b
}

// The bits of User block b that its check covers, of n fields.
#[tactic(auto, unfolding(crate::specs::Layout::covered))]
pub fn covered_bits(n: usize, b: usize) -> usize
    requires { b ≤ 36 }
    ensures value { result ≡ covered n b }
    ensures upper_bound { result ≤ 44 }
{
    if 2 * b + 1 < n { 44 } else { 22 }
}

// The end of the last block of n fields.
#[tactic(auto, unfolding(crate::specs::Layout::end_of))]
pub fn end_bit(bw: u32, n: usize) -> usize
    requires { n ≤ 72 }
    ensures value { result ≡ end_of bw n }
    ensures upper_bound { result ≤ 2053 }
{
    common_bits(bw) + 54 * (n / 2) + 32 * (n % 2)
}
