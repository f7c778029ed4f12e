// The second half of a reading, whatever the room: 9 to 11, of n fields in channel 1 and m in channel 2, and the fields as numbers. Each check is
// run only where the earlier ones pass.
#![tactic(auto)]

ghost use Rattle.std.specs.Prelude.{◌≡◌, ◌+◌, ◌*◌, ◌≤◌, ◌<◌, length, Ok};
ghost use Rattle.answer.specs.Answer.{◌or◌};
ghost use Rattle.answer.specs.Lists.{filled};
ghost use Rattle.channel.specs.Layout.{count, user_of, end_of};
ghost use Rattle.halves.specs.Table.{check9, check10, check11};
ghost use Rattle.halves.specs.Engine.{AtMost512, outcome9to11};

use answer::Refusal;

// 9, measured as 3 is.
fn cut_users(bw: u32, a: &[u8], b: &[u8], n: usize, m: usize) -> Result<(), Refusal>
    requires { AtMost512 a.now b.now × (n ≤ 72) × (m ≤ 72) × (n ≡ count bw 1 a.now) × (m ≡ count bw 2 b.now) }
    ensures { result ≡ check9 bw a.now b.now }
{
    let short = lengths::is_short_users(bw, a, n) | lengths::is_short_users(bw, b, m);
    if !short {
        return Ok(());
    }
    lengths::cut_users(bw, 1, a, n)?;
    lengths::cut_users(bw, 2, b, m)
}

// 10 on the way to the numbers, and 11 of them, of channels that reach their last blocks' ends: 9 has passed.
fn take_checked(
    fields: &mut [u32],
    bw: u32,
    a: &[u8],
    b: &[u8],
    n: usize,
    m: usize,
) -> Result<(), Refusal>
    requires { (n + m ≤ length fields.old) × (n ≤ 72) × (m ≤ 72) × (n ≡ count bw 1 a.now) × (m ≡ count bw 2 b.now)
        × (0 < n → end_of bw n ≤ 8 * length a.now) × (0 < m → end_of bw m ≤ 8 * length b.now) }
    ensures value { result ≡ (check10 bw a.now b.now or check11 bw a.now b.now) }
    ensures fields_after { result ≡ Ok tt
        → fields.new ≡ filled (user_of bw a.now b.now n) (n + m) fields.old }
{
    user_fields::take_users(fields, bw, a, b, n, m)?;
    stations::station_twice(fields, bw, n, m)
}

// 9 to 11, and where they pass the numbers.
pub fn check_users(
    fields: &mut [u32],
    bw: u32,
    a: &[u8],
    b: &[u8],
    n: usize,
    m: usize,
) -> Result<(), Refusal>
    requires { AtMost512 a.now b.now × (n + m ≤ length fields.old) × (n ≤ 72) × (m ≤ 72) × (n ≡ count bw 1 a.now) × (m ≡ count bw 2 b.now) }
    ensures value { result ≡ outcome9to11 bw a.now b.now }
    ensures fields_after { result ≡ Ok tt
        → fields.new ≡ filled (user_of bw a.now b.now n) (n + m) fields.old }
{
    cut_users(bw, a, b, n, m)?;
    take_checked(fields, bw, a, b, n, m)
}
