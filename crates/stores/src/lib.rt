// Texts of at most eight bytes as one number, the first byte the lowest, written by whole stores where the buffer reaches. Buffer and place
// are two parameters, as the public functions of all writers have them and their contracts say: `Wrote out.old at .. out.new result`.
#![tactic(auto)]

ghost use Rattle.std.specs.Prelude.{◌≡◌, cond, [], ◌∷◌, ◌++◌, ◌+◌, ◌-◌, ◌*◌, ◌/◌, ◌%◌, ◌≤◌, ◌<◌, length, pos, ◌-ℤ◌};
ghost use Rattle.text.specs.Text.{Wrote, codes, dec, signed};
ghost use Rattle.stores.specs.Engine.{bytes_of, values_of, zeros_in, four_of, lead_of, digits_of, ended_of, spaced_word};
ghost use Rattle.stores.specs.Engine.{apart, minus_if, Over, Under};

// Two bytes, in one store: written out for each size, since a loop over the bytes would be longer by its invariant.
fn put_two(out: &mut [u8], at: usize, w: u64) -> usize
    requires { (at + 2 ≤ length out.old) × (at ≤ 1040000) }
    ensures { Wrote out.old at (bytes_of 2 w) out.new result }
{
    let w1 = w / 256;
    out[at] = (w % 256) as u8;
    out[at + 1] = (w1 % 256) as u8;
    at + 2
}

// Four, in one.
pub fn put_four(out: &mut [u8], at: usize, w: u64) -> usize
    requires { (at + 4 ≤ length out.old) × (at ≤ 1040000) }
    ensures { Wrote out.old at (bytes_of 4 w) out.new result }
{
    let w1 = w / 256;
    let w2 = w1 / 256;
    let w3 = w2 / 256;
    out[at] = (w % 256) as u8;
    out[at + 1] = (w1 % 256) as u8;
    out[at + 2] = (w2 % 256) as u8;
    out[at + 3] = (w3 % 256) as u8;
    at + 4
}

// Eight, in one.
pub fn put_eight(out: &mut [u8], at: usize, w: u64) -> usize
    requires { (at + 8 ≤ length out.old) × (at ≤ 1030000) }
    ensures wrote { Wrote out.old at (bytes_of 8 w) out.new result }
    ensures bounded { result ≡ at + 8 }
{
    let a = put_four(out, at, w);
    put_four(out, a, w / 4294967296)
}

// Two and j more, j at most 2: the second store begins in the first.
pub fn put_by_twos(out: &mut [u8], at: usize, w: u64, j: usize) -> usize
    requires { (j ≤ 2) × (at + (j + 2) ≤ length out.old) × (at ≤ 1030000) }
    ensures wrote { Wrote out.old at (bytes_of (j + 2) w) out.new result }
    ensures bounded { result ≡ at + (j + 2) }
{
    put_two(out, at, w);
    put_two(out, at + j, w >> (8 * j))
}

// Four and j more, j at most 4.
pub fn put_by_fours(out: &mut [u8], at: usize, w: u64, j: usize) -> usize
    requires { (j ≤ 4) × (at + (j + 4) ≤ length out.old) × (at ≤ 1030000) }
    ensures wrote { Wrote out.old at (bytes_of (j + 4) w) out.new result }
    ensures bounded { result ≡ at + (j + 4) }
{
    put_four(out, at, w);
    put_four(out, at + j, w >> (8 * j))
}

// Two to eight bytes.
pub fn put_short(out: &mut [u8], at: usize, w: u64, k: usize) -> usize
    requires { (2 ≤ k) × (k ≤ 8) × (at + k ≤ length out.old) × (at ≤ 1030000) }
    ensures wrote { Wrote out.old at (bytes_of k w) out.new result }
    ensures bounded { result ≡ at + k }
{
    if k < 4 {
        return put_by_twos(out, at, w, k - 2);
    }
    put_by_fours(out, at, w, k - 4)
}

// The four digits of a number, zeros in front, a byte each: hundreds and the rest side by side, and the tens of both by one product.
fn values_of(n: u32) -> u32
    requires { n < 10000 }
    ensures { (result ≡ values_of n) × (result < 168430090) }
{
    let hundreds = (n * 5243) >> 19;
    let pair = hundreds + 65536 * (n - 100 * hundreds);
    let tens = ((pair * 103) >> 10) & 0xF000F;
    256 * pair - 2559 * tens
}

// The same of two numbers side by side.
fn values_of_two(m: u32, n: u32) -> u64
    requires { (m < 10000) × (n < 10000) }
    ensures { result ≡ values_of m + 4294967296 * values_of n }
{
    let both = m as u64 + 4294967296 * n as u64; // by `as`: of `u64::from` the proofs here know only its clause, and don't close
    let hundreds = ((both * 5243) >> 19) & 0x7F0000007F;
    let pair = hundreds + 65536 * (both - 100 * hundreds);
    let tens = ((pair * 103) >> 10) & 0xF000F000F000F;
    256 * pair - 2559 * tens
}

// As text.
fn four_of(n: u32) -> u64
    requires { n < 10000 }
    ensures { (result ≡ four_of n) × (result < 4294967296) }
{
    values_of(n) as u64 + 0x30303030
}

fn one_if(t: bool) -> usize
    ensures value { result ≡ cond t 1 0 }
    ensures bounded { result ≤ 1 }
{
    usize::from(t)
}

// How many of the four digits are zeros in front, by their values: those below the lowest bit that is set, where the last counts as one.
fn zeros_of(v: u32) -> usize
    requires { v < 168430090 }
    ensures value { result ≡ zeros_in v }
    ensures bounded { result ≤ 3 }
{
    (u32::trailing_zeros(v + 0x1000000) / 8) as usize
}

// By the number.
pub fn lead_of(n: u32) -> usize
    requires { n < 10000 }
    ensures { (result ≡ lead_of n) × (result ≤ 3) }
{
    zeros_of(values_of(n))
}

// The digits of a number.
pub fn digits_of(n: u32) -> u64
    requires { n < 10000 }
    ensures { (result ≡ digits_of n) × (result < 4294967296) }
{
    four_of(n) >> (8 * lead_of(n))
}

// With a byte after them.
pub fn ended_of(n: u32, c: u64) -> u64
    requires { (n < 10000) × (c < 256) }
    ensures { (result ≡ ended_of n c) × (result < 1099511627776) }
{
    (four_of(n) + c * 4294967296) >> (8 * lead_of(n))
}

// How far two numbers are apart.
fn apart_of(u: u32, zero: u32) -> u32
    requires { (u < 10000) × (zero < 10000) }
    ensures { (result ≡ apart u zero) × (result < 10000) }
{
    if u < zero {
        return zero - u;
    }
    u - zero
}

// The minus of an integer u - zero below 0: it is stored in any case, and what follows is stored over it where there is none.
fn put_sign(out: &mut [u8], at: usize, u: u32, zero: u32) -> usize
    requires { (at + 1 ≤ length out.old) × (at ≤ 1040000) }
    ensures over { Over 1 out.old at (minus_if u zero) out.new result }
    ensures bounded { result ≤ at + 1 }
{
    out[at] = b'-';
    at + one_if(u < zero)
}

// The integer u - zero in decimal, by the values of its digits, up to three bytes too many: what follows is stored over them.
fn put_integer(out: &mut [u8], at: usize, u: u32, zero: u32, v: u64) -> usize
    requires { (u < 10000) × (zero < 10000) × (v ≡ values_of (apart u zero)) × (v < 168430090) × (at + 5 ≤ length out.old) × (at ≤ 1025000) }
    ensures over { Over 3 out.old at (signed (pos u -ℤ pos zero)) out.new result }
    ensures bounded { result ≤ at + 5 }
{
    let lead = zeros_of(v as u32);
    let a = put_sign(out, at, u, zero);
    put_four(out, a, (v + 0x30303030) >> (8 * lead));
    a + (4 - lead)
}

// The same with a byte after it, and nothing more.
fn put_ended(out: &mut [u8], at: usize, u: u32, zero: u32, v: u64, c: u64) -> usize
    requires { (u < 10000) × (zero < 10000) × (v ≡ values_of (apart u zero)) × (v < 168430090) × (c < 256) × (at + 6 ≤ length out.old) × (at ≤ 1025000) }
    ensures wrote { Wrote out.old at (signed (pos u -ℤ pos zero) ++ (c ∷ [])) out.new result }
    ensures bounded { result ≤ at + 6 }
{
    let lead = zeros_of(v as u32);
    let a = put_sign(out, at, u, zero);
    put_short(
        out,
        a,
        (v + 0x30303030 + c * 4294967296) >> (8 * lead),
        5 - lead,
    )
}

// Two integers with a colon between, and a byte after them: the digits of both at once.
pub fn put_span(out: &mut [u8], at: usize, lo: u32, hi: u32, zero: u32, c: u64) -> usize
    requires { (lo < 10000) × (hi < 10000) × (zero < 10000) × (c < 256) × (at + 12 ≤ length out.old) × (at ≤ 1020000) }
    ensures wrote { Wrote out.old at ((signed (pos lo -ℤ pos zero) ++ codes ":") ++ (signed (pos hi -ℤ pos zero) ++ (c ∷ [])))
        out.new result }
    ensures bounded { result ≤ at + 12 }
{
    let v = values_of_two(apart_of(lo, zero), apart_of(hi, zero));
    let a = put_integer(out, at, lo, zero, v % 4294967296);
    out[a] = b':';
    put_ended(out, a + 1, hi, zero, v / 4294967296, c)
}

// ---- from the right to the left, where what comes before is written last: digits are stored with their zeros in front

// Two numbers with a colon between and a byte after them, up to three bytes too many before.
fn put_high(out: &mut [u8], at: usize, m: u32, n: u32, c: u8) -> usize
    requires { (m < 10000) × (n < 10000) × (4 ≤ at) × (at + 10 ≤ length out.old) × (at ≤ 1020000) }
    ensures under { Under 3 out.old at ((dec m ++ codes ":") ++ (dec n ++ (c ∷ []))) out.new result }
    ensures bounded { result ≤ at + 10 }
{
    let v = values_of_two(m, n);
    let first = v % 4294967296;
    let second = v / 4294967296;
    let a = at + (4 - zeros_of(first as u32));
    let e = a + 1 + (4 - zeros_of(second as u32));
    out[e] = c;
    put_four(out, e - 4, second + 0x30303030);
    out[a] = b':';
    put_four(out, a - 4, first + 0x30303030);
    e + 1
}

// A minus before each.
fn put_low(out: &mut [u8], at: usize, m: u32, n: u32, c: u8) -> usize
    requires { (m < 10000) × (n < 10000) × (4 ≤ at) × (at + 12 ≤ length out.old) × (at ≤ 1020000) }
    ensures under { Under 3 out.old at (((codes "-" ++ dec m) ++ codes ":") ++ ((codes "-" ++ dec n) ++ (c ∷ []))) out.new result }
    ensures bounded { result ≤ at + 12 }
{
    let v = values_of_two(m, n);
    let first = v % 4294967296;
    let second = v / 4294967296;
    let a = at + 1 + (4 - zeros_of(first as u32));
    let e = a + 2 + (4 - zeros_of(second as u32));
    out[e] = c;
    put_four(out, e - 4, second + 0x30303030);
    out[a + 1] = b'-';
    out[a] = b':';
    put_four(out, a - 4, first + 0x30303030);
    out[at] = b'-';
    e + 1
}

// Two integers with a colon between and a byte after them, up to three bytes too many before: what comes before is stored over them. Few runs
// go over 0.
pub fn put_run(out: &mut [u8], at: usize, lo: u32, hi: u32, zero: u32, c: u8) -> usize
    requires { (lo ≤ hi) × (hi < 10000) × (zero < 10000) × (4 ≤ at) × (at + 12 ≤ length out.old) × (at ≤ 1020000) }
    ensures under { Under 3 out.old at ((signed (pos lo -ℤ pos zero) ++ codes ":") ++ (signed (pos hi -ℤ pos zero) ++ (c ∷ [])))
        out.new result }
    ensures bounded { result ≤ at + 12 }
{
    if zero <= lo {
        return put_high(out, at, lo - zero, hi - zero, c);
    }
    if hi < zero {
        return put_low(out, at, zero - lo, zero - hi, c);
    }
    put_span(out, at, lo, hi, zero, c as u64)
}

// A number below 40 and a space after it, and in the fourth byte how many bytes these are. One `match` of constants, so that it is one load
// from a fixed table.
#[tactic(auto, unfolding(crate::specs::Engine::spaced_word, crate::specs::Engine::spaced_of))]
pub fn spaced_of(n: u32) -> u32
    requires { n < 40 }
    ensures { result ≡ spaced_word n }
{
    match n {
        0 => 0x2002030,
        1 => 0x2002031,
        2 => 0x2002032,
        3 => 0x2002033,
        4 => 0x2002034,
        5 => 0x2002035,
        6 => 0x2002036,
        7 => 0x2002037,
        8 => 0x2002038,
        9 => 0x2002039,
        10 => 0x3203031,
        11 => 0x3203131,
        12 => 0x3203231,
        13 => 0x3203331,
        14 => 0x3203431,
        15 => 0x3203531,
        16 => 0x3203631,
        17 => 0x3203731,
        18 => 0x3203831,
        19 => 0x3203931,
        20 => 0x3203032,
        21 => 0x3203132,
        22 => 0x3203232,
        23 => 0x3203332,
        24 => 0x3203432,
        25 => 0x3203532,
        26 => 0x3203632,
        27 => 0x3203732,
        28 => 0x3203832,
        29 => 0x3203932,
        30 => 0x3203033,
        31 => 0x3203133,
        32 => 0x3203233,
        33 => 0x3203333,
        34 => 0x3203433,
        35 => 0x3203533,
        36 => 0x3203633,
        37 => 0x3203733,
        38 => 0x3203833,
        39 => 0x3203933,
        _ => 0,
    }
}

// A number below 100, and a space after it.
pub fn put_spaced(out: &mut [u8], at: usize, n: u32) -> usize
    requires { (n < 100) × (at + 3 ≤ length out.old) × (at ≤ 1030000) }
    ensures wrote { Wrote out.old at (dec n ++ codes " ") out.new result }
    ensures bounded { result ≤ at + 3 }
{
    let lead = one_if(n < 10);
    let two = 0x203030 + (n / 10) as u64 + 256 * (n % 10) as u64; // 00 and a space
    put_by_twos(out, at, two >> (8 * lead), 1 - lead)
}

// A number of at most four digits.
fn put_digits(out: &mut [u8], at: usize, n: u32) -> usize
    requires { (n < 10000) × (at + 4 ≤ length out.old) × (at ≤ 1030000) }
    ensures wrote { Wrote out.old at (dec n) out.new result }
    ensures bounded { result ≤ at + 4 }
{
    if n < 10 {
        return text::put(out, at, b'0' + n as u8);
    }
    put_short(out, at, digits_of(n), 4 - lead_of(n))
}

// The integer u - zero in decimal.
fn put_signed_whole(out: &mut [u8], at: usize, u: u32, zero: u32) -> usize
    requires { (u < 10000) × (zero < 10000) × (at + 5 ≤ length out.old) × (at ≤ 1030000) }
    ensures wrote { Wrote out.old at (signed (pos u -ℤ pos zero)) out.new result }
    ensures bounded { result ≤ at + 5 }
{
    if u < zero {
        let n = zero - u;
        return put_short(out, at, b'-' as u64 + 256 * digits_of(n), 5 - lead_of(n));
    }
    put_digits(out, at, u - zero)
}

// The same of any integer, into whatever room there is.
pub fn put_signed(out: &mut [u8], at: usize, u: u64, zero: u64) -> usize
    requires { at ≤ 1000000 }
    ensures wrote { Wrote out.old at (signed (pos u -ℤ pos zero)) out.new result }
    ensures bounded { result ≤ at + 21 }
{
    if out.len() < at + 5 || 10000 <= u || 10000 <= zero {
        return text::put_signed(out, at, u, zero);
    }
    put_signed_whole(out, at, u as u32, zero as u32)
}
