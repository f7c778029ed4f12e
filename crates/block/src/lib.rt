// The four-bit check and the tail of one block of bits.
#![tactic(auto)]

ghost use Rattle.std.specs.Prelude.{◌≡◌, ◌+◌, ◌*◌, ◌^◌, ◌<◌};
ghost use Rattle.block.specs.Check.{check, right};

// The check of the n bits from `at`, a byte at a time until one window holds the rest.
fn check_long(s: &[u8], at: usize, n: usize) -> u32
    requires { (57 < n) × (at + n < 2 ^ 64) }
    ensures { result ≡ check s.now at n }
{
    let mut r: u64 = 255;
    let bytes = (n - 57).div_ceil(8);
    for i in 0..bytes {
        r = register::byte_step(r ^ u64::from(bits::field_at(s, at + 8 * i, 8)));
    }
    let k = 8 * bytes;
    register::check_of(r, bits::wide_from(s, at + k), n - k)
}

// The check of the n bits from `at`, first sent bit lowest.
pub fn check_at(s: &[u8], at: usize, n: usize) -> u32
    requires { at + n < 2 ^ 64 }
    ensures { result ≡ check s.now at n }
{
    if n <= 57 {
        return register::check_of(255, bits::wide_from(s, at), n);
    }
    check_long(s, at, n)
}

// Whether the check after the n bits from `at` is right and the tail after it zero. Where one window is too short for
// block, check and tail, the ten bits are compared in one look: with a zero tail they are the check itself.
pub fn block_right(s: &[u8], at: usize, n: usize) -> bool
    requires { at + n < 2 ^ 64 }
    ensures { result ≡ right s.now at n }
{
    if n <= 47 {
        return register::right_of(bits::wide_from(s, at), n);
    }
    bits::field_at(s, at + n, 10) == check_at(s, at, n)
}
