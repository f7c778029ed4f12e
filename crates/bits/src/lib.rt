// Bits and fields of a byte slice, lowest bit first, read. Past the end every bit reads as 0, so no function here asks that a range
// lies in its slice.
#![tactic(auto)]

ghost use Rattle.std.specs.Prelude.{◌≡◌, ◌+◌, ◌-◌, ◌*◌, ◌%◌, ◌^◌, ◌≤◌, ◌<◌, get_or, length};
ghost use Rattle.bits.specs.Bits.{bit, field};

// Byte i.
pub fn byte_at(s: &[u8], i: usize) -> u8
    ensures { result ≡ get_or s.now i 0 }
{
    if i < s.len() { s[i] } else { 0 }
}

// Bit i.
#[tactic(auto, unfolding(crate::specs::Bits::bit))]
pub fn bit_at(s: &[u8], i: usize) -> u32
    ensures { result ≡ bit s.now i }
{
    (u32::from(byte_at(s, i / 8)) >> (i % 8)) % 2
}

// Four bytes as one number, lowest first.
fn join4(a: u8, b: u8, c: u8, d: u8) -> u32
    ensures { result ≡ a + b * 256 + c * 65536 + d * 16777216 }
{
    u32::from_le_bytes([a, b, c, d])
}

// The 32 bits from the start of byte i, which are there: one load.
pub fn four(s: &[u8], i: usize) -> u32
    requires { i + 3 < length s.now }
    ensures { result ≡ field s.now (8 * i) 32 }
{
    join4(s[i], s[i + 1], s[i + 2], s[i + 3])
}

// The 32 bits from the start of byte i.
pub fn window(s: &[u8], i: usize) -> u32
    requires { i < 2 ^ 61 }
    ensures { result ≡ field s.now (8 * i) 32 }
{
    if i + 3 < s.len() {
        return four(s, i);
    }
    join4(
        byte_at(s, i),
        byte_at(s, i + 1),
        byte_at(s, i + 2),
        byte_at(s, i + 3),
    )
}

// The n bits from `at`, of one window: 25 is what it holds from any place in its first byte.
pub fn field_at(s: &[u8], at: usize, n: usize) -> u32
    requires { n ≤ 25 }
    ensures { result ≡ field s.now at n }
{
    (window(s, at / 8) >> (at % 8)) % (1 << n)
}

// Two numbers of 32 bits as one, the lower first.
fn join2(a: u32, b: u32) -> u64
    ensures { result ≡ a + b * 4294967296 }
{
    u64::from(a) + u64::from(b) * 4294967296
}

fn wide(x: u8) -> u64
    ensures { (result < 256) × (result ≡ x) }
{
    u64::from(x)
}

// The 64 bits from the start of byte i, which are there: one load.
pub fn eight(s: &[u8], i: usize) -> u64
    requires { i + 7 < length s.now }
    ensures { result ≡ field s.now (8 * i) 64 }
{
    join2(four(s, i), four(s, i + 4))
}

// The first n bytes, which are there: two loads, the second of which ends with them.
pub fn front(s: &[u8], n: usize) -> u64
    requires { (5 ≤ n) × (n ≤ 8) × (n ≤ length s.now) }
    ensures { result ≡ field s.now 0 (8 * n) }
{
    join2(four(s, 0), four(s, n - 4) >> (8 * (8 - n)))
}

// The 64 bits from the start of byte i where some of them lie past the end: the last eight bytes, moved down, have zeros in their place. Fewer than
// eight are taken one by one.
fn eight_past(s: &[u8], i: usize) -> u64
    requires { length s.now ≤ i + 7 }
    ensures { result ≡ field s.now (8 * i) 64 }
{
    let n = s.len();
    if n <= i {
        return 0;
    }
    if n < 8 {
        return wide(s[i]) + eight_past(s, i + 1) * 256;
    }
    eight(s, n - 8) >> (8 * (i - (n - 8)))
}

// The bits from `at`, as many as one window of 64 holds: 57 from any place in its first byte.
pub fn wide_from(s: &[u8], at: usize) -> u64
    ensures { result ≡ field s.now at (64 - at % 8) }
{
    let i = at / 8;
    if i + 7 < s.len() {
        return eight(s, i) >> (at % 8);
    }
    eight_past(s, i) >> (at % 8)
}
