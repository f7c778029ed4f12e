// The answers 5 and 6: an overflow that may not be or that the channels do not share, and a value of one channel that is not carried.
#![tactic(auto)]

ghost use Rattle.std.specs.Prelude.{◌≡◌, ◌+◌, ◌^◌, ◌≤◌, ◌<◌};
ghost use Rattle.answer.specs.Least.{least};
ghost use Rattle.bits.specs.Bits.{differs};
ghost use Rattle.faults.specs.Checks.{uncarried, first_uncarried, not_carried};
ghost use Rattle.common_field.specs.Engine.{differ_in, overflow_in};

use answer::Refusal;
use channel::Parts;

#[tactic(auto, unfolding(bits::specs::Bits::differs))]
fn differ(s: &[u8], t: &[u8], i: usize) -> bool
    ensures { result ≡ differs s.now t.now i }
{
    bits::bit_at(s, i) != bits::bit_at(t, i)
}

// The lowest k below n for which s and t differ in bit at + k; n where there is none.
pub fn first_diff(s: &[u8], t: &[u8], at: usize, n: usize) -> usize
    requires { at + n < 2 ^ 64 }
    ensures { result ≡ least (λ k. differs s.now t.now (at + k)) n }
{
    (0..n)
        .find(
            |&k|
                requires { at + k < 2 ^ 64 }
            { differ(s, t, at + k) },
        )
        .unwrap_or(n)
}

// The refusal of overflows that differ in the ones of x, of which the lowest tells the bit.
fn refuse_diff(x: u64) -> Result<(), Refusal>
    ensures { result ≡ differ_in x }
{
    if x == 0 {
        return Ok(());
    }
    Err(Refusal::WrongOverflow {
        channel: 2,
        place: u64::trailing_zeros(x) as usize,
    })
}

// Answer 5, of a frame whose common fields are these.
pub fn overflow_differs(bw: u32, parts: Parts) -> Result<(), Refusal>
    ensures { result ≡ overflow_in bw parts }
{
    if 4 < (parts.first1 >> 6) % 8 {
        return Err(Refusal::WrongOverflow {
            channel: 1,
            place: 6,
        });
    }
    if bw == 0 {
        return Ok(());
    }
    refuse_diff((parts.first1 ^ parts.first2) % 131072)
}

#[tactic(auto, unfolding(faults::specs::Checks::uncarried))]
fn is_uncarried(bw: u32, s: &[u8], k: usize) -> bool
    requires { k ≤ 8 }
    ensures { result ≡ uncarried bw s.now k }
{
    !resource::is_carried(channel::value_of(bw, s, k))
}

fn first_uncarried(bw: u32, channel: u32, s: &[u8]) -> usize
    ensures value { result ≡ first_uncarried bw channel s.now }
    ensures upper_bound { result ≤ 8 }
{
    let n = channel::subfields_of(bw, channel);
    (0..n)
        .find(
            |&k|
                requires { k ≤ 8 }
            { is_uncarried(bw, s, k) },
        )
        .unwrap_or(n)
}

// Answer 6.
pub fn not_carried(bw: u32, channel: u32, s: &[u8]) -> Result<(), Refusal>
    ensures { result ≡ not_carried bw channel s.now }
{
    let n = channel::subfields_of(bw, channel);
    let k = first_uncarried(bw, channel, s);
    answer::refuse_if(
        k < n,
        Refusal::ValueNotCarried {
            channel,
            place: channel::value_bit(bw, k),
        },
    )
}
