// The words of a line.
ghost use Rattle.std.specs.Prelude.{◌≡◌, ◌≤◌, ◌<◌, length, take, IfSome};
ghost use Rattle.std.specs.Option.{unwrap_or};
ghost use Rattle.vectors.specs.Text.{with_digit, decimal_of, hex_of, unread};

// How many bytes a byte string has at most.
pub(crate) const STRING: usize = 4096;

// More than every number that is read.
const UNREAD: usize = 100000000000000000;

// Word k, the first being 0; no bytes where there are fewer.
fn word(line: &[u8], k: usize) -> &[u8] {
    match line.split(|&c| c == b' ').nth(k) {
        Some(word) => word,
        None => &[],
    }
}

// How many words a line has.
pub(crate) fn words(line: &[u8]) -> usize {
    line.split(|&c| c == b' ').count()
}

// A number with one digit more, where that is below UNREAD and the byte is a digit.
fn with_digit(v: usize, c: u8) -> Option<usize>
    requires { v < unread }
    ensures value { unwrap_or result unread ≡ with_digit v c }
    ensures bounded { IfSome result (λ w. w < unread) }
{
    if c < b'0' {
        return None;
    }
    if c > b'9' {
        return None;
    }
    let w = 10 * v + usize::from(c - b'0');
    if w < UNREAD { Some(w) } else { None }
}

// The number that a text is.
fn number_of(s: &[u8]) -> Option<usize>
    ensures value { unwrap_or result unread ≡ decimal_of s.now }
    ensures bounded { IfSome result (λ v. v < unread) }
{
    if s.len() == 0 {
        return None;
    }
    let mut v: usize = 0;
    for i in 0..s.len() {
        v = with_digit(v, s[i])?;
    }
    Some(v)
}

// Word k as a number.
pub(crate) fn number(line: &[u8], k: usize) -> usize
    ensures { result < unread }
{
    number_of(word(line, k)).unwrap_or(0)
}

// The value of a capital hex digit.
fn hex(c: u8) -> Option<u8>
    ensures value { unwrap_or result 16 ≡ hex_of c }
    ensures bounded { IfSome result (λ d. d < 16) }
{
    if c < b'0' {
        None
    } else if c <= b'9' {
        Some(c - b'0')
    } else if c < b'A' {
        None
    } else if c <= b'F' {
        Some(c - b'A' + 10)
    } else {
        None
    }
}

// Whether a text is a byte string of at most 4,096 bytes.
fn is_string(s: &[u8]) -> bool {
    match s {
        [] => false,
        [c] => *c == b'-',
        _ => s.len() <= 2 * STRING && s.len() % 2 == 0 && s.iter().all(|&c| hex(c).is_some()),
    }
}

// The value of a hex digit that is one.
fn nibble(c: u8) -> u8
    ensures { result < 16 }
{
    hex(c).unwrap_or(0)
}

// The bytes of a byte string, and how many they are.
fn decode(s: &[u8], out: &mut [u8]) -> usize
    ensures { (result ≤ length out.new) × (length out.new ≡ length out.old) }
{
    let n = (s.len() / 2).min(out.len());
    for i in 0..n {
        out[i] = 16 * nibble(s[2 * i]) + nibble(s[2 * i + 1]);
    }
    n
}

// Word k's bytes, and how many they are.
pub(crate) fn string(line: &[u8], k: usize, out: &mut [u8]) -> usize
    ensures { (result ≤ length out.new) × (result ≡ length (take result out.new)) }
{
    decode(word(line, k), out)
}

// Whether a word is of a kind: `s` a byte string, else a number.
fn is_kind(word: &[u8], kind: u8) -> bool {
    if kind == b's' {
        is_string(word)
    } else {
        number_of(word).is_some()
    }
}

// Whether a line has exactly the words that its kinds say, after a letter.
pub(crate) fn has(line: &[u8], kinds: &[u8]) -> bool {
    word(line, 0).len() == 1
        && words(line) == kinds.len() + 1
        && line
            .split(|&c| c == b' ')
            .skip(1)
            .zip(kinds.iter())
            .all(|(word, &kind)| is_kind(word, kind))
}
