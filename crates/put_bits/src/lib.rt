// Fields of a byte slice written, lowest bit first. A bit past the end is dropped, so no function here asks that a range lies in its slice.
#![tactic(auto)]

ghost use Rattle.std.specs.Prelude.{◌≡◌, ◌+◌, ◌-◌, ◌*◌, ◌%◌, ◌^◌, ◌≤◌, ◌<◌, min, length};
ghost use Rattle.bits.specs.Bits.{put, Small};
ghost use Rattle.put_bits.specs.Engine.{merge};

// x with the m bits from a made the lowest of w.
fn merged(x: u32, a: usize, m: usize, w: u32) -> u32
    requires { (a ≤ 7) × (m ≤ 25) }
    ensures { result ≡ merge x a m w }
{
    let old = (x >> a) % (1 << m);
    x - (old << a) + (w % (1 << m) << a)
}

// The m bits from i, all in one byte, made the lowest of w.
fn put_part(d: &mut [u8], i: usize, m: usize, w: u32)
    requires { i % 8 + m ≤ 8 }
    ensures { d.new ≡ put d.old i m w }
{
    let k = i / 8;
    if k < d.len() {
        d[k] = merged(u32::from(d[k]), i % 8, m, w) as u8;
    }
}

// As many of the n bits from i as lie in its byte.
fn part_of(i: usize, n: usize) -> usize
    ensures { result ≡ min n (8 - i % 8) }
{
    n.min(8 - i % 8)
}

// The n bits from `at` made those of v, a byte at a time. The steps are as long as their bytes have room, so no range counts them.
fn put_parts(d: &mut [u8], at: usize, n: usize, v: u32)
    requires { (n ≤ 32) × (at + n < 2 ^ 64) }
    ensures { d.new ≡ put d.old at n v }
{
    let mut k: usize = 0;
    while k < n {
        let m = part_of(at + k, n - k);
        put_part(d, at + k, m, v >> k);
        k += m;
    }
}

// The 32 bits from the start of byte i made the lowest of w. The four stores compile to one.
fn put_window(d: &mut [u8], i: usize, w: u64)
    requires { (i + 3 < length d.old) × Small d.old }
    ensures { d.new ≡ put d.old (8 * i) 32 w }
{
    d[i] = (w % 256) as u8;
    d[i + 1] = (w / 256 % 256) as u8;
    d[i + 2] = (w / 65536 % 256) as u8;
    d[i + 3] = (w / 16777216 % 256) as u8;
}

// Where the second half of eight bytes from byte i on is put, of n bytes: after the first, or so that it ends with them.
fn half_at(i: usize, n: usize) -> usize
    requires { (i + 3 < n) × (n < 2 ^ 63) }
    ensures { (i ≤ result) × (result ≤ i + 4) × (result + 3 < n) × (result < i + 4 → result + 4 ≡ n) }
{
    if i + 8 <= n { i + 4 } else { n - 4 }
}

// The 64 bits from the start of byte i made those of x: two stores.
pub fn put_eight(d: &mut [u8], i: usize, x: u64)
    requires { (i + 3 < length d.old) × (length d.old < 2 ^ 63) }
    ensures { d.new ≡ put d.old (8 * i) 64 x }
{
    let j = half_at(i, d.len());
    put_window(d, i, x);
    put_window(d, j, x >> (8 * (j - i)));
}

// The same where all eight bytes are there: one store.
pub fn put_whole(d: &mut [u8], i: usize, x: u64)
    requires { (i + 7 < length d.old) × (length d.old < 2 ^ 63) }
    ensures { d.new ≡ put d.old (8 * i) 64 x }
{
    put_window(d, i, x);
    put_window(d, i + 4, x / 4294967296);
}

// The n bits from `at` made those of v: through one window where its four bytes are there, as `field_at` reads them.
pub fn put_field(d: &mut [u8], at: usize, n: usize, v: u32)
    requires { (n ≤ 32) × (at + n < 2 ^ 64) }
    ensures { d.new ≡ put d.old at n v }
{
    let i = at / 8;
    if (n <= 25) & (i + 3 < d.len()) {
        let w = merged(bits::window(d, i), at % 8, n, v);
        put_window(d, i, u64::from(w));
        return;
    }
    put_parts(d, at, n, v);
}
