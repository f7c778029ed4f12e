// Writers of text into a lent buffer (01, "Listing"). Each stores where the buffer reaches and returns the next place
// either way: one writer counts and writes.
#![tactic(auto)]

ghost use Rattle.std.specs.Prelude.{◌≡◌, [], ◌∷◌, ◌+◌, ◌%◌, ◌≤◌, ◌<◌, length, pos, ◌-ℤ◌};
ghost use Rattle.text.specs.Text.{Wrote, decs, dec, signed, keyed, line};

pub fn put(out: &mut [u8], at: usize, b: u8) -> usize
    requires { at + 1 ≤ 1048576 }
    ensures { Wrote out.old at (b ∷ []) out.new result }
{
    if at < out.len() {
        out[at] = b;
        at + 1
    } else {
        at + 1
    }
}

// A fixed text in a buffer that may end inside it.
fn put_each(out: &mut [u8], at: usize, s: &[u8]) -> usize
    requires { at + length s.now ≤ 1048576 }
    ensures { Wrote out.old at s.now out.new result }
{
    let mut o = at;
    for &b in s {
        o = put(out, o, b);
    }
    o
}

// A fixed text in a buffer that reaches its end.
fn put_whole(out: &mut [u8], at: usize, s: &[u8]) -> usize
    requires { (at + length s.now ≤ 1048576) × (at + length s.now ≤ length out.old) }
    ensures { Wrote out.old at s.now out.new result }
{
    for j in 0..s.len() {
        out[at + j] = s[j];
    }
    at + s.len()
}

// A fixed text, byte for byte. Most are written whole or only counted.
pub fn put_all(out: &mut [u8], at: usize, s: &[u8]) -> usize
    requires { at + length s.now ≤ 1048576 }
    ensures { Wrote out.old at s.now out.new result }
{
    if at + s.len() <= out.len() {
        return put_whole(out, at, s);
    }
    if out.len() <= at {
        return at + s.len();
    }
    put_each(out, at, s)
}

// The last digit of a number.
fn put_digit(out: &mut [u8], at: usize, n: u64) -> usize
    requires { at + 1 ≤ 1048576 }
    ensures { Wrote out.old at ((48 + n % 10) ∷ []) out.new result }
{
    put(out, at, b'0' + (n % 10) as u8)
}

// The digits of the numbers that most are, by a function for each width: in a trial a recursion that puts one digit each took twice as long.

// At most two digits, of the 18 that may stand before the last two of a number.
fn put_two(out: &mut [u8], at: usize, n: u64) -> usize
    requires { (at + 18 ≤ 1048576) × (n < 100) }
    ensures { Wrote out.old at (decs 18 n) out.new result }
{
    if n < 10 {
        return put_digit(out, at, n);
    }
    let o = put(out, at, b'0' + (n / 10) as u8);
    put_digit(out, o, n)
}

// At most three, of the 19 before the last one.
fn put_three(out: &mut [u8], at: usize, n: u64) -> usize
    requires { (at + 19 ≤ 1048576) × (n < 1000) }
    ensures { Wrote out.old at (decs 19 n) out.new result }
{
    if n < 10 {
        return put_digit(out, at, n);
    }
    let o = put_two(out, at, n / 10);
    put_digit(out, o, n)
}

// How many digits a number has, of at most four.
fn digits_of(n: u64) -> usize
    requires { n < 10000 }
    ensures { (result ≤ 4) × (result ≡ length (decs 20 n)) }
{
    if n < 10 {
        return 1;
    }
    if n < 100 {
        return 2;
    }
    if n < 1000 { 3 } else { 4 }
}

// At most four.
fn put_four(out: &mut [u8], at: usize, n: u64) -> usize
    requires { (at + 20 ≤ 1048576) × (n < 10000) }
    ensures { Wrote out.old at (decs 20 n) out.new result }
{
    if out.len() <= at {
        return at + digits_of(n);
    }
    if n < 10 {
        return put_digit(out, at, n);
    }
    let o = put_three(out, at, n / 10);
    put_digit(out, o, n)
}

// A number in decimal. Most have at most four digits.
pub fn put_dec(out: &mut [u8], at: usize, n: u64) -> usize
    requires { at + 20 ≤ 1048576 }
    ensures wrote { Wrote out.old at (dec n) out.new result }
    ensures bounded { result ≤ at + 20 }
{
    if n < 10000 {
        return put_four(out, at, n);
    }
    let o = put_dec(out, at, n / 10);
    put_digit(out, o, n)
}

// The integer u - zero in decimal.
pub fn put_signed(out: &mut [u8], at: usize, u: u64, zero: u64) -> usize
    requires { at + 21 ≤ 1048576 }
    ensures wrote { Wrote out.old at (signed (pos u -ℤ pos zero)) out.new result }
    ensures bounded { result ≤ at + 21 }
{
    if u < zero {
        let o = put(out, at, b'-');
        put_dec(out, o, zero - u)
    } else {
        put_dec(out, at, u - zero)
    }
}

// A fixed key and a number.
pub fn put_key(out: &mut [u8], at: usize, key: &[u8], n: u64) -> usize
    requires { (at ≤ 1000000) × (length key.now ≤ 100) }
    ensures wrote { Wrote out.old at (keyed key.now n) out.new result }
    ensures bounded { result ≤ at + length key.now + 20 }
{
    let o = put_all(out, at, key);
    put_dec(out, o, n)
}

// A whole line of them.
pub fn put_line(out: &mut [u8], at: usize, key: &[u8], n: u64) -> usize
    requires { (at ≤ 1000000) × (length key.now ≤ 100) }
    ensures wrote { Wrote out.old at (line key.now n) out.new result }
    ensures bounded { result ≤ at + length key.now + 21 }
{
    let o = put_key(out, at, key, n);
    put(out, o, b'\n')
}
