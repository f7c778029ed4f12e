// The only channels that given words can come from.
#![tactic(auto)]

ghost use Rattle.std.specs.Prelude.{◌≡◌, true, List, ℕ, ◌+◌, ◌*◌, ◌/◌, ◌%◌, ◌^◌, ◌<◌, ◌≤◌, length};
ghost use Rattle.answer.specs.Lists.{at};
ghost use Rattle.bits.specs.Bits.{field};
ghost use Rattle.channel.specs.Layout.{firsts, first_bits, second_at, second_bits, has_second, common, subfields, block_at, end_of};
ghost use Rattle.frame_words.specs.Words.{position_in};
ghost use Rattle.candidate.specs.Engine.{gathered, first_of, sealed_of, second_part, Narrow, Built, Ends, Blocks, Made, ClearedFrom};
ghost use Rattle.candidate.specs.Length.{bytes_for};

// ---- a common field as numbers

// n values of the row, every other one from position p on, as one number of nine bits each.
fn gather(row: &[u16], p: usize, n: usize) -> u64
    requires { (n ≤ 6) × (p ≤ 5) × (p + 2 * n ≤ length row.now + 1) }
    ensures { (result < 2 ^ (9 * n)) × (result ≡ gathered (λ k. at row.now (2 * k + p)) n) }
{
    let mut x: u64 = 0;
    for k in 0..n {
        x += u64::from(row[2 * k + p] % 512) << (9 * k);
    }
    x
}

// The bits of channel c that its first common check covers, of its overflow and n values of the row.
fn first_of(v: u32, row: &[u16], c: usize, n: usize) -> u64
    requires { (1 ≤ c) × (c ≤ 2) × (n ≤ 2) × (2 * n + c ≤ length row.now + 2) }
    ensures { (result < 2 ^ (17 + 9 * n)) × (result ≡ v % 2 ^ 17 + gathered (λ k. at row.now (position_in c k)) n * 2 ^ 17) }
{
    u64::from(v % 131072) + (gather(row, c - 1, n) << 17)
}

// A block of n bits with its check; its tail is zero.
fn sealed(x: u64, n: usize) -> u64
    requires { (n ≤ 54) × (x < 2 ^ n) }
    ensures { (result < 2 ^ (n + 4)) × (result ≡ sealed_of x n) }
{
    x + (u64::from(register::check_of(255, x, n)) << n)
}

// The first part of channel c's common field, with its check and tail.
pub fn first_part(bw: u32, v: u32, row: &[u16], c: usize) -> u64
    requires { (1 ≤ c) × (c ≤ 2) × (2 * firsts bw + c ≤ length row.now + 2) }
    ensures upper_bound { result < 2 ^ second_at bw }
    ensures value { result ≡ sealed_of (first_of bw v (λ k. at row.now (position_in c k))) (first_bits bw) }
{
    // each width is a constant, so that no more is worked out than reaches the check
    if bw < 2 {
        return sealed(first_of(v, row, c, 1), 26);
    }
    sealed(first_of(v, row, c, 2), 35)
}

// The second part, which 160 and 320 MHz have.
pub fn second_part(bw: u32, row: &[u16], c: usize) -> u64
    requires { (1 ≤ c) × (c ≤ 2) × (2 * subfields bw + c ≤ length row.now + 2) }
    ensures upper_bound { result < 2 ^ (second_bits bw + 10) }
    ensures value { result ≡ second_part bw (λ k. at row.now (position_in c k)) }
{
    if bw == 3 {
        return sealed(gather(row, 3 + c, 2), 18);
    }
    if bw == 4 {
        return sealed(gather(row, 3 + c, 6), 54);
    }
    0
}

// ---- a channel built from its start, bits after bits. Every part ends with a check of four bits and a tail of zeros; of what is built the last
// ten bits are held, so that those of the next that share a byte with them are stored together with them

// The first part, x.
fn put_first(d: &mut [u8], bw: u32, x: u64) -> u64
    requires { (second_at bw ≤ 8 * length d.old) × (length d.old ≤ 512) × (x < 2 ^ second_at bw) }
    ensures upper_bound { result < 2 ^ 10 }
    ensures ends { (s : List ℕ) → length s ≡ length d.old → field s 0 (second_at bw) ≡ x → Ends s (second_at bw) result d.new }
{
    put_bits::put_eight(d, 0, x);
    x >> channel::first_bits(bw)
}

// w bits more, those of x, after the first i.
fn push(d: &mut [u8], i: usize, ten: u64, x: u64, w: usize) -> u64
    requires { (25 ≤ w) × (w ≤ 54) × (10 ≤ i) × (i + w ≤ 8 * length d.old) × (length d.old ≤ 512) × (ten < 2 ^ 10) × (x < 2 ^ w) }
    ensures upper_bound { result < 2 ^ 10 }
    ensures ends { (s : List ℕ) → Ends s i ten d.old → field s i w ≡ x → Ends s (i + w) result d.new }
{
    put_bits::put_eight(d, i / 8, (ten >> (10 - i % 8)) + (x << (i % 8)));
    x >> (w - 10)
}

// A block of two User fields more: the eight bytes that end where it ends, in one store.
fn push_pair(d: &mut [u8], i: usize, ten: u64, x: u64) -> u64
    requires { (10 ≤ i) × (i + 54 ≤ 8 * length d.old) × (length d.old ≤ 512) × (ten < 2 ^ 10) × (x < 2 ^ 54) }
    ensures upper_bound { result < 2 ^ 10 }
    ensures ends { (s : List ℕ) → Ends s i ten d.old → field s i 54 ≡ x → Ends s (i + 54) result d.new }
{
    let e = i + 61;
    put_bits::put_whole(d, e / 8 - 8, (ten + (x << 10)) >> (7 - e % 8));
    x >> 44
}

// The second part, x, where there is one; at 320 MHz in two halves.
fn put_second(d: &mut [u8], bw: u32, ten: u64, x: u64) -> u64
    requires { (common bw ≤ 8 * length d.old) × (length d.old ≤ 512) × (ten < 2 ^ 10) × (x < 2 ^ (second_bits bw + 10)) }
    ensures upper_bound { result < 2 ^ 10 }
    ensures ends { (s : List ℕ) → Ends s (second_at bw) ten d.old
        → (has_second bw ≡ true → field s (second_at bw) (second_bits bw + 10) ≡ x) → Ends s (common bw) result d.new }
{
    if bw == 3 {
        return push(d, 45, ten, x, 28);
    }
    if bw == 4 {
        let half = push(d, 45, ten, x % 4294967296, 32);
        return push(d, 77, half, x / 4294967296, 32);
    }
    ten
}

// Two User fields as one number.
fn pair_of(fields: &[u32], b: usize) -> u64
    requires { (b ≤ 36) × (2 * b + 1 < length fields.now) × Narrow fields.now }
    ensures { (result < 2 ^ 44) × (result ≡ at fields.now (2 * b) + at fields.now (2 * b + 1) * 2 ^ 22) }
{
    u64::from(fields[2 * b]) + (u64::from(fields[2 * b + 1]) << 22)
}

// The User blocks of two fields.
fn put_pairs(d: &mut [u8], bw: u32, ten: u64, fields: &[u32]) -> u64
    requires { (end_of bw (length fields.now) ≤ 8 * length d.old) × (length d.old ≤ 512) × (ten < 2 ^ 10)
        × (length fields.now ≤ 72) × Narrow fields.now }
    ensures upper_bound { result < 2 ^ 10 }
    ensures ends { (s : List ℕ) → Ends s (common bw) ten d.old → Blocks bw fields.now s
        → Ends s (block_at bw (length fields.now / 2)) result d.new }
{
    let m = fields.len() / 2;
    let mut h = ten;
    for b in 0..m {
        let x = sealed(pair_of(fields, b), 44);
        h = push_pair(d, channel::block_bit(bw, b), h, x);
    }
    h
}

// All User blocks: the last may have one field.
fn put_blocks(d: &mut [u8], bw: u32, ten: u64, fields: &[u32])
    requires { (end_of bw (length fields.now) ≤ 8 * length d.old) × (length d.old ≤ 512) × (ten < 2 ^ 10)
        × (length fields.now ≤ 72) × Narrow fields.now }
    ensures { (s : List ℕ) → Ends s (common bw) ten d.old → Blocks bw fields.now s
        → Built s (end_of bw (length fields.now)) d.new }
{
    let h = put_pairs(d, bw, ten, fields);
    let n = fields.len();
    if n % 2 == 0 {
        return;
    }
    let x = sealed(u64::from(fields[n - 1]), 22);
    push(d, channel::block_bit(bw, n / 2), h, x, 32);
}

fn clear_from(d: &mut [u8], from: usize)
    requires { from ≤ length d.old }
    ensures { ClearedFrom d.old from d.new }
{
    d[from..].fill(0);
}

// A channel of these parts and User fields in exactly its bytes, with padding of zeros.
pub fn build(d: &mut [u8], bw: u32, first: u64, second: u64, fields: &[u32])
    requires { (end_of bw (length fields.now) ≤ 8 * length d.old) × (length d.old ≤ 512) × (first < 2 ^ second_at bw)
        × (second < 2 ^ (second_bits bw + 10)) × (length fields.now ≤ 72) × Narrow fields.now }
    ensures { (s : List ℕ) → length s ≡ length d.old → Made bw first second fields.now s → d.new ≡ s }
{
    let one = put_first(d, bw, first);
    let two = put_second(d, bw, one, second);
    put_blocks(d, bw, two, fields);
    clear_from(d, (channel::end_bit(bw, fields.len()) + 7) / 8);
}

// Bytes for the longer channel, of n and m User fields.
pub fn bytes_for(bw: u32, n: usize, m: usize) -> usize
    requires { (n ≤ 72) × (m ≤ 72) }
    ensures value { result ≡ bytes_for bw n m }
    ensures upper_bound { result ≤ 257 }
{
    let x = channel::end_bit(bw, n);
    let y = channel::end_bit(bw, m);
    if x < y { (y + 7) / 8 } else { (x + 7) / 8 }
}
