// The User fields of a frame as numbers, each block read once, and 10: what is wrong with any block is gathered over all of a channel and
// looked at once; which block it is, is sought only where one is wrong.
#![tactic(auto)]

ghost use Rattle.std.specs.Prelude.{◌≡◌, ◌+◌, ◌-◌, ◌*◌, ◌/◌, ◌%◌, ◌^◌, ◌≤◌, ◌<◌, length, set, Ok};
ghost use Rattle.answer.specs.Answer.{◌or◌};
ghost use Rattle.answer.specs.Every.{every};
ghost use Rattle.answer.specs.Lists.{filled};
ghost use Rattle.bits.specs.Bits.{field};
ghost use Rattle.channel.specs.Layout.{count, user, user_of, end_of};
ghost use Rattle.faults.specs.Checks.{wrong_users};
ghost use Rattle.user_fields.specs.Engine.{block_right, users_right};

use answer::Refusal;

// The two fields of a block that w starts with.
fn first_in(w: u64) -> u32
    ensures { result ≡ w % 2 ^ 22 }
{
    (w % 4194304) as u32
}

fn second_in(w: u64) -> u32
    ensures { result ≡ w / 2 ^ 22 % 2 ^ 22 }
{
    ((w >> 22) % 4194304) as u32
}

// The bits from `at` up to `end`, and the rest of the last byte, of a channel that has them: of the eight bytes that end there, so that no length is
// looked at.
fn window_to(s: &[u8], at: usize, end: usize) -> u64
    requires { (at < end) × (end ≤ at + 57) × (57 ≤ end) × (end < 2 ^ 61) × (end ≤ 8 * length s.now) }
    ensures { result ≡ field s.now at (8 * ((end + 7) / 8) - at) }
{
    let i = (end + 7) / 8 - 8;
    bits::eight(s, i) >> (at - 8 * i)
}

// The fields of a channel's blocks of two, and whether all these blocks are right; n is the channel's number of fields.
fn take_pairs(fields: &mut [u32], bw: u32, s: &[u8], n: usize) -> bool
    requires { (n ≤ length fields.old) × (n ≤ 72) × (0 < n → end_of bw n ≤ 8 * length s.now) }
    ensures value { result ≡ every (block_right bw s.now n) (n / 2) }
    ensures fields_after { fields.new ≡ filled (user bw s.now) (2 * (n / 2)) fields.old }
{
    let m = n / 2;
    let mut q = u64::MAX;
    let mut x: u64 = 0;
    for b in 0..m {
        let at = channel::block_bit(bw, b);
        let w = window_to(s, at, at + 54);
        fields[2 * b] = first_in(w);
        fields[2 * b + 1] = second_in(w);
        q &= register::leaving(w);
        x |= w;
    }
    register::all_right(q, x, 44)
}

// The same of the last block where it has one field.
fn take_last(fields: &mut [u32], bw: u32, s: &[u8], n: usize) -> bool
    requires { (n ≤ length fields.old) × (n ≤ 72) × (n % 2 ≡ 1) × (end_of bw n ≤ 8 * length s.now) }
    ensures value { result ≡ block_right bw s.now n (n / 2) }
    ensures fields_after { fields.new ≡ set fields.old (n - 1) (user bw s.now (n - 1)) }
{
    let at = channel::block_bit(bw, n / 2);
    let w = window_to(s, at, at + 32);
    fields[n - 1] = first_in(w);
    register::right_of(w, 22)
}

// A channel's n fields, and whether its blocks are right.
fn take_fields(fields: &mut [u32], bw: u32, s: &[u8], n: usize) -> bool
    requires { (n ≤ length fields.old) × (n ≤ 72) × (0 < n → end_of bw n ≤ 8 * length s.now) }
    ensures value { result ≡ users_right bw s.now n }
    ensures fields_after { fields.new ≡ filled (user bw s.now) n fields.old }
{
    let right = take_pairs(fields, bw, s, n);
    if n % 2 == 0 {
        return right;
    }
    right & take_last(fields, bw, s, n)
}

// 10, and where it passes the fields of both channels, channel 1's n first.
#[inline(always)]
pub fn take_users(
    fields: &mut [u32],
    bw: u32,
    a: &[u8],
    b: &[u8],
    n: usize,
    m: usize,
) -> Result<(), Refusal>
    requires { (n + m ≤ length fields.old) × (n ≤ 72) × (m ≤ 72) × (n ≡ count bw 1 a.now) × (m ≡ count bw 2 b.now)
        × (0 < n → end_of bw n ≤ 8 * length a.now) × (0 < m → end_of bw m ≤ 8 * length b.now) }
    ensures value { result ≡ (wrong_users bw 1 a.now or wrong_users bw 2 b.now) }
    ensures fields_after { result ≡ Ok tt
        → fields.new ≡ filled (user_of bw a.now b.now n) (n + m) fields.old }
{
    if !take_fields(fields, bw, a, n) {
        return wrong_blocks::wrong_users(bw, 1, a, n);
    }
    if m == 0 {
        return Ok(());
    }
    if !take_fields(&mut fields[n..], bw, b, m) {
        return wrong_blocks::wrong_users(bw, 2, b, m);
    }
    Ok(())
}
