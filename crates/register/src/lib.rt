// The check's register in one number: moved by bits and by bytes, the check that it gives, and the test of a block.
#![tactic(auto)]

ghost use Rattle.std.specs.Prelude.{◌≡◌, ◌≤◌, ◌<◌};
ghost use Rattle.std.specs.Int.Bits.{bit_xor};
ghost use Rattle.register.specs.Engine.{shifts, times, quotient, check_from, all_right, right_of};

// Here the register is held mirrored, so that it moves the way the bits come, and x^8 + x^2 + x + 1 is
// p = 1 + t^6 + t^7 + t^8 = 1 + t^6 (1 + t (1 + t)). This is z times p with t^i for t, as far as 64 bits see.
fn times(z: u64, i: u32) -> u64
    requires { i ≤ 8 }
    ensures { result ≡ times z i }
{
    z ^ ((z ^ ((z ^ (z << i)) << i)) << (6 * i))
}

// z divided by p, the lowest bit first: the bits that leave the register, one for each place that it moves. A square has
// each place doubled, so these factors are p, p^2, p^4 and p^8, and with p itself p^16, which is 1 as far as 64 bits see.
fn quotient(z: u64) -> u64
    ensures { result ≡ quotient z }
{
    times(times(times(times(z, 1), 2), 4), 8)
}

// The check of a register r after the n lowest bits of w. The four bits that would leave the register next are its
// lowest; what stands in w above its n bits is added to them, and taken away again.
pub fn check_of(r: u64, w: u64, n: usize) -> u32
    requires { n ≤ 60 }
    ensures { result ≡ check_from r w n }
{
    15 - (((quotient(r ^ w) ^ w) >> n) % 16) as u32
}

// What leaves the register of a block that w starts with. The check, inverted, is what would leave it next, so where the check is right
// the two together are four ones.
pub fn leaving(w: u64) -> u64
    ensures { result ≡ quotient (bit_xor 255 w) }
{
    quotient(255 ^ w)
}

// Whether blocks of n bits are followed by their checks and by tails of zeros: q has the ones that are common to what leaves them all, x those
// that any of them has.
pub fn all_right(q: u64, x: u64, n: usize) -> bool
    requires { n ≤ 54 }
    ensures { result ≡ all_right q x n }
{
    ((q >> n) % 16 == 15) & ((x >> (n + 4)) % 64 == 0)
}

// Whether the n lowest bits of w are.
pub fn right_of(w: u64, n: usize) -> bool
    requires { n ≤ 54 }
    ensures { result ≡ right_of w n }
{
    all_right(leaving(w), w, n)
}

// The register after eight bits more, which were added to it: q is what leaves, and p times q what it leaves behind.
pub fn byte_step(x: u64) -> u64
    requires { x < 256 }
    ensures { result ≡ shifts x 8 }
{
    let q = (x ^ (x << 6) ^ (x << 7)) % 256;
    q ^ (q >> 1) ^ (q >> 2)
}
