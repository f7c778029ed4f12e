// The answers 4 and 10, each of one channel: a block whose check or tail is wrong.
#![tactic(auto)]

ghost use Rattle.std.specs.Prelude.{◌≡◌, ◌≤◌};
ghost use Rattle.register.specs.Engine.{right_of};
ghost use Rattle.channel.specs.Layout.{first_bits, count};
ghost use Rattle.faults.specs.Checks.{wrong_block, first_wrong, wrong_users};
ghost use Rattle.wrong_blocks.specs.Engine.{second_right, wrong_parts};

use answer::Refusal;
use channel::Parts;

// The two widths stand as constants, so that no more of the quotient is worked out than reaches the check.
fn is_first_right(bw: u32, x: u64) -> bool
    ensures { result ≡ right_of x (first_bits bw) }
{
    if bw < 2 {
        register::right_of(x, 26)
    } else {
        register::right_of(x, 35)
    }
}

// Where there is no second part, none is wrong.
fn is_second_right(bw: u32, x: u64) -> bool
    requires { bw ≤ 4 }
    ensures { result ≡ second_right bw x }
{
    if bw < 3 {
        return true;
    }
    if bw == 3 {
        register::right_of(x, 18)
    } else {
        register::right_of(x, 54)
    }
}

// Answer 4, of a frame whose common fields are these: part by part, so that the first that is wrong is the answer.
pub fn wrong_parts(bw: u32, parts: Parts) -> Result<(), Refusal>
    requires { bw ≤ 4 }
    ensures { result ≡ wrong_parts bw parts }
{
    if !is_first_right(bw, parts.first1) {
        return Err(Refusal::WrongCommonCheck {
            channel: 1,
            place: channel::first_bits(bw),
        });
    }
    if bw == 0 {
        return Ok(());
    }
    if !is_second_right(bw, parts.second1) {
        return Err(Refusal::WrongCommonCheck {
            channel: 1,
            place: channel::second_check(bw),
        });
    }
    if !is_first_right(bw, parts.first2) {
        return Err(Refusal::WrongCommonCheck {
            channel: 2,
            place: channel::first_bits(bw),
        });
    }
    if is_second_right(bw, parts.second2) {
        return Ok(());
    }
    Err(Refusal::WrongCommonCheck {
        channel: 2,
        place: channel::second_check(bw),
    })
}

#[tactic(auto, unfolding(faults::specs::Checks::wrong_block))]
fn is_wrong_block(bw: u32, s: &[u8], n: usize, b: usize) -> bool
    requires { b ≤ 36 }
    ensures { result ≡ wrong_block bw s.now n b }
{
    !block::block_right(s, channel::block_bit(bw, b), channel::covered_bits(n, b))
}

fn first_wrong(bw: u32, s: &[u8], n: usize) -> usize
    requires { n ≤ 72 }
    ensures value { result ≡ first_wrong bw s.now n }
    ensures upper_bound { result ≤ 36 }
{
    let m = (n + 1) / 2;
    (0..m)
        .find(
            |&b|
                requires { b ≤ 36 }
            { is_wrong_block(bw, s, n, b) },
        )
        .unwrap_or(m)
}

// Answer 10, of a channel that has n fields.
pub fn wrong_users(bw: u32, channel: u32, s: &[u8], n: usize) -> Result<(), Refusal>
    requires { (n ≤ 72) × (n ≡ count bw channel s.now) }
    ensures { result ≡ wrong_users bw channel s.now }
{
    if n == 0 {
        return Ok(());
    }
    let b = first_wrong(bw, s, n);
    answer::refuse_if(
        b < (n + 1) / 2,
        Refusal::WrongUserCheck {
            channel,
            place: channel::block_bit(bw, b) + channel::covered_bits(n, b),
        },
    )
}
