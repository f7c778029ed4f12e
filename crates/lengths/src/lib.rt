// The answers 2, 3 and 9, each of one channel: too long, or cut short; and where its bits ran out.
#![tactic(auto)]

ghost use Rattle.std.specs.Prelude.{◌≡◌, ◌*◌, ◌≤◌, ◌<◌, length};
ghost use Rattle.bits.specs.Bits.{lacks};
ghost use Rattle.channel.specs.Layout.{common, count, end_of};
ghost use Rattle.channel.specs.Fields.{named_fields};
ghost use Rattle.faults.specs.RanOut.{ran_out_at};
ghost use Rattle.faults.specs.Checks.{too_long, short_common, cut_common, short_users, cut_users};
ghost use Rattle.lengths.specs.Engine.{fits_in, lent};

use answer::Refusal;

#[tactic(auto, unfolding(crate::specs::Engine::fits_in))]
fn fits(s: &[u8], n: usize) -> bool
    ensures { result ≡ fits_in s.now n }
{
    (n <= s.len()) & (s.len() <= 512)
}

// Whether both channels are lent as they may be: no frame that is pays for more of 1 to 3. By code, so that each comparison is with a constant.
pub fn is_lent(bw: u32, a: &[u8], b: &[u8]) -> bool
    ensures { result ≡ lent bw a.now b.now }
{
    match bw {
        0 => fits(a, 5) & (b.len() == 0),
        1 => fits(a, 5) & fits(b, 5),
        2 => fits(a, 6) & fits(b, 6),
        3 => fits(a, 10) & fits(b, 10),
        4 => fits(a, 14) & fits(b, 14),
        _ => false,
    }
}

// Answer 2 for one channel.
pub fn too_long(bw: u32, channel: u32, s: &[u8]) -> Result<(), Refusal>
    ensures { result ≡ too_long bw channel s.now }
{
    let there = channel::is_present(bw, channel);
    answer::refuse_if(
        (512 < s.len()) | (!there & (0 < s.len())),
        Refusal::WrongLength { channel },
    )
}

// How many of the n bits from `at` lie past the end.
pub fn lacks_at(s: &[u8], at: usize, n: usize) -> usize
    ensures { result ≡ lacks s.now at n }
{
    let first = at / 8;
    if s.len() <= first {
        return n;
    }
    let after = s.len() - first - 1;
    if n / 8 < after {
        return 0;
    }
    let rest = n - 8 * after;
    let here = 8 - at % 8;
    if rest <= here { 0 } else { rest - here }
}

// The place of 3 and of 9 (02, T-03), of a channel that has n User fields: the first bit of the first named field that lacks
// bits; 0 where none does. A walk, which is taken only where something is missing.
fn ran_out_at(bw: u32, s: &[u8], n: usize) -> usize
    requires { n ≤ 72 }
    ensures { result ≡ ran_out_at s.now (named_fields bw n) }
{
    let m = named_fields::named_fields(bw, n);
    let mut at: usize = 0;
    for k in 0..m {
        let w = named_fields::named_width(bw, n, k);
        if 0 < lacks_at(s, at, w) {
            return at;
        }
        at += w;
    }
    0
}

pub fn is_short_common(bw: u32, channel: u32, s: &[u8]) -> bool
    requires { length s.now ≤ 512 }
    ensures { result ≡ short_common bw channel s.now }
{
    let there = channel::is_present(bw, channel);
    there & (8 * s.len() < channel::common_bits(bw))
}

// Answer 3.
pub fn cut_common(bw: u32, channel: u32, s: &[u8]) -> Result<(), Refusal>
    requires { length s.now ≤ 512 }
    ensures { result ≡ cut_common bw channel s.now }
{
    if !is_short_common(bw, channel, s) {
        return Ok(());
    }
    let place = ran_out_at(bw, s, 0);
    Err(Refusal::CommonFieldCut { channel, place })
}

// The same of a channel whose common field is whole and whose User blocks are not: the block in which its bits run out, and there the field,
// the check or the tail.
fn users_ran_out_at(bw: u32, s: &[u8], n: usize) -> usize
    requires { (length s.now ≤ 512) × (n ≤ 72) × (common bw ≤ 8 * length s.now) × (8 * length s.now < end_of bw n) }
    ensures { result ≡ ran_out_at s.now (named_fields bw n) }
{
    let past = 8 * s.len() - channel::common_bits(bw);
    let b = past / 54;
    let r = past % 54;
    let at = channel::block_bit(bw, b);
    let c = channel::covered_bits(n, b);
    if r < 22 {
        return at;
    }
    if r < c {
        return at + 22;
    }
    if r < c + 4 { at + c } else { at + c + 4 }
}

pub fn is_short_users(bw: u32, s: &[u8], n: usize) -> bool
    requires { (length s.now ≤ 512) × (n ≤ 72) }
    ensures { result ≡ short_users bw n s.now }
{
    (0 < n) & (8 * s.len() < channel::end_bit(bw, n))
}

// Answer 9, of a channel that has n fields.
pub fn cut_users(bw: u32, channel: u32, s: &[u8], n: usize) -> Result<(), Refusal>
    requires { (length s.now ≤ 512) × (n ≤ 72) × (n ≡ count bw channel s.now) }
    ensures { result ≡ cut_users bw channel s.now }
{
    if !is_short_users(bw, s, n) {
        return Ok(());
    }
    let place = if 8 * s.len() < channel::common_bits(bw) {
        ran_out_at(bw, s, n)
    } else {
        users_ran_out_at(bw, s, n)
    };
    Err(Refusal::UserBlocksCut { channel, place })
}
