// The check alone behind C entries, for bench/run to time. No part of the library.
#![tactic(auto)]

ghost use Rattle.std.specs.Prelude.{◌≡◌, ◌+◌, ◌*◌, ◌^◌, ◌≤◌, ◌<◌};
ghost use Rattle.timed.specs.Sums.{sum, check_in, right_in};

// The first bit of block k.
fn place(n: u8, k: u32) -> usize
    ensures { (result ≡ (n + 10) * k) × (result < 2 ^ 41) }
{
    (usize::from(n) + 10) * k as usize
}

// The check of block k.
fn check_in(s: &[u8], n: u8, k: u32) -> u64
    ensures { (result ≡ check_in s.now n k) × (result ≤ 15) }
{
    u64::from(block::check_at(s, place(n, k), usize::from(n)))
}

// 1 where block k is right, else 0.
fn right_in(s: &[u8], n: u8, k: u32) -> u64
    ensures { (result ≡ right_in s.now n k) × (result ≤ 15) }
{
    u64::from(block::block_right(s, place(n, k), usize::from(n)))
}

// The sum of the checks of the first `count` blocks.
fn checks_of(s: &[u8], n: u8, count: u32) -> u64
    ensures { result ≡ sum (check_in s.now n) count }
{
    let mut total: u64 = 0;
    for k in 0..count {
        total += check_in(s, n, k);
    }
    total
}

// How many of the first `count` blocks are right. One function for both sums would be no plainer: the closure that it takes needs a contract
// longer than this loop.
fn blocks_of(s: &[u8], n: u8, count: u32) -> u64
    ensures { result ≡ sum (right_in s.now n) count }
{
    let mut total: u64 = 0;
    for k in 0..count {
        total += right_in(s, n, k);
    }
    total
}

// Each width that a frame's blocks have is a call of its own, so that it is compiled for that width, as the C side's is.
#[unsafe(no_mangle)]
pub extern "C" fn timed_checks(s: &[u8], n: u8, count: u32) -> u64
    ensures { result ≡ sum (check_in s.now n) count }
{
    match n {
        18 => checks_of(s, 18, count),
        22 => checks_of(s, 22, count),
        26 => checks_of(s, 26, count),
        35 => checks_of(s, 35, count),
        44 => checks_of(s, 44, count),
        54 => checks_of(s, 54, count),
        _ => checks_of(s, n, count),
    }
}

#[unsafe(no_mangle)]
pub extern "C" fn timed_blocks(s: &[u8], n: u8, count: u32) -> u64
    ensures { result ≡ sum (right_in s.now n) count }
{
    match n {
        18 => blocks_of(s, 18, count),
        22 => blocks_of(s, 22, count),
        26 => blocks_of(s, 26, count),
        35 => blocks_of(s, 35, count),
        44 => blocks_of(s, 44, count),
        54 => blocks_of(s, 54, count),
        _ => blocks_of(s, n, count),
    }
}
