// The text of two captures, read (02, T-06): six lines, or the first that is wrong.
#![tactic(auto)]

ghost use Rattle.std.specs.Prelude.{◌≡◌, ◌+◌, ◌≤◌, length, drop};
ghost use Rattle.answer.specs.Lists.{filled};
ghost use Rattle.input.specs.Engine.{three_lines, second_at, byte_of};
ghost use Rattle.captures.specs.Engine.{past_of, then_second, six_lines, two_parsed};

use input::{Lines, WrongLine};

// A capture that was read: where it starts in the text, its bandwidth digit, the pairs of its second and third lines.
#[derive(Clone, Copy)]
pub struct Capture {
    pub at: usize,
    pub bw: u32,
    pub first: usize,
    pub second: usize,
}

// The second capture, from where the first ends, and nothing after.
#[tactic(auto, using(crate::proofs::Steps::at_most_4))]
fn then_second(s: &[u8], c: Capture) -> Result<(Capture, Capture), WrongLine>
    requires { (length s.now ≤ 16384) × (past_of c ≤ length s.now) }
    ensures { result ≡ then_second c (three_lines (drop (past_of c) s.now)) }
{
    let at = 15 + 2 * c.first + 2 * c.second;
    match input::three_lines(&s[at..]) {
        Err(wrong) => Err(WrongLine {
            line: 3 + wrong.line,
        }),
        Ok(Lines { bw, first, second }) => Ok((
            c,
            Capture {
                at,
                bw,
                first,
                second,
            },
        )),
    }
}

// The six lines, and nothing after.
#[tactic(auto, using(input::proofs::Front::front_room), unfolding(crate::specs::Engine::six_lines))]
fn six_lines(s: &[u8]) -> Result<(Capture, Capture), WrongLine>
    requires { length s.now ≤ 16384 }
    ensures { result ≡ six_lines s.now }
{
    let Lines { bw, first, second } = input::first_three(s)?;
    then_second(
        s,
        Capture {
            at: 0,
            bw,
            first,
            second,
        },
    )
}

// The text of two captures. Only both together have a limit.
#[tactic(auto, unfolding(crate::specs::Engine::two_parsed))]
pub fn parse(s: &[u8]) -> Result<(Capture, Capture), WrongLine>
    ensures { result ≡ two_parsed s.now }
{
    if 16384 < s.len() {
        Err(WrongLine { line: 0 })
    } else {
        six_lines(s)
    }
}

// The bytes of a capture's channels, at the front of `cc1` and of `cc2`.
pub fn unhex_both(s: &[u8], c: Capture, cc1: &mut [u8], cc2: &mut [u8])
    requires at_bound { (c.at ≤ 16384) × (c.first ≤ 8192) × (c.second ≤ 8192) }
    requires first_in_bounds { (c.first ≤ length cc1.old) × (c.second ≤ length cc2.old) }
    ensures cc1_after { cc1.new ≡ filled (byte_of s.now (c.at + 9)) c.first cc1.old }
    ensures cc2_after { cc2.new ≡ filled (byte_of s.now (c.at + second_at c.first)) c.second cc2.old }
{
    input::unhex(s, c.at + 9, c.first, cc1);
    input::unhex(s, c.at + (14 + 2 * c.first), c.second, cc2);
}
