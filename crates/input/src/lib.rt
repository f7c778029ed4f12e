// The program's text, read (01, "Listing"): three lines, or the first that is wrong.
#![tactic(auto)]

ghost use Rattle.std.specs.Prelude.{◌≡◌, ◌+◌, ◌-◌, ◌*◌, ◌≤◌, ◌<◌, length, drop, get_or};
ghost use Rattle.text.specs.Text.{codes};
ghost use Rattle.answer.specs.Lists.{filled};
ghost use Rattle.input.specs.Engine.{
  hex_of,
  hex_line,
  starts,
  keyed,
  Room,
  line_bw,
  first_three,
  three_lines,
  pair_of,
  byte_of,
};
ghost use Rattle.input.specs.Worked.{said_by, said};

// The lines of a text, read: the bandwidth digit, the pairs of the second and third lines.
#[derive(Clone, Copy)]
pub struct Lines {
    pub bw: u32,
    pub first: usize,
    pub second: usize,
}

// The first line that is wrong, from 1; 0 where the text is too long.
#[derive(Clone, Copy)]
pub struct WrongLine {
    pub line: usize,
}

// The value of a hex digit, or 16.
fn hex(c: u8) -> u8
    ensures { result ≡ hex_of c }
{
    match c {
        b'0'..=b'9' => c - b'0',
        b'A'..=b'F' => c - b'A' + 10,
        _ => 16,
    }
}

// How many pairs of hex digits there are up to a line feed, where nothing else is.
fn hex_line(s: &[u8], at: usize) -> Option<usize>
    requires { at ≤ length s.now }
    ensures { (result ≡ hex_line (drop at s.now) 0) × Room result at (length s.now) }
{
    for n in 0..(s.len() - at).div_ceil(2) {
        let i = at + 2 * n;
        let a = s[i];
        if a == b'\n' {
            return Some(n);
        }
        if hex(a) >= 16 {
            return None;
        }
        if hex(bits::byte_at(s, i + 1)) >= 16 {
            return None;
        }
    }
    None
}

// Whether the text has a key at a place.
fn key_at(s: &[u8], at: usize, k: &[u8]) -> bool
    requires { at ≤ length s.now }
    ensures { result ≡ starts k.now (drop at s.now) }
{
    s[at..].starts_with(k)
}

// How many pairs a line with this key has.
fn line(s: &[u8], at: usize, k: &[u8]) -> Option<usize>
    requires at_in_bounds { at ≤ length s.now }
    requires k_len_bound { length k.now ≤ 16 }
    ensures { (result ≡ keyed k.now (drop at s.now)) × Room result (at + length k.now) (length s.now) }
{
    if key_at(s, at, k) {
        hex_line(s, at + k.len())
    } else {
        None
    }
}

// The first line.
fn line_bw(s: &[u8]) -> bool
    ensures { result ≡ line_bw s.now }
{
    if key_at(s, 0, b"bw=") {
        let d = bits::byte_at(s, 3);
        if d < b'0' {
            return false;
        }
        if d <= b'9' {
            return bits::byte_at(s, 4) == b'\n';
        }
        return false;
    }
    false
}

// The three lines at the front of a text. What comes after them is not looked at: it may be a second capture (02, T-06).
#[tactic(auto, unfolding(crate::specs::Engine::first_three))]
pub fn first_three(s: &[u8]) -> Result<Lines, WrongLine>
    requires { length s.now ≤ 16384 }
    ensures { result ≡ first_three s.now }
{
    if !line_bw(s) {
        return Err(WrongLine { line: 1 });
    }
    let bw = u32::from(bits::byte_at(s, 3) - b'0');
    let first = line(s, 5, b"cc1=").ok_or(WrongLine { line: 2 })?;
    let second = line(s, 10 + 2 * first, b"cc2=").ok_or(WrongLine { line: 3 })?;
    Ok(Lines { bw, first, second })
}

// The three lines, and nothing after.
#[tactic(auto, using(crate::proofs::Front::front_room), unfolding(crate::specs::Engine::three_lines))]
pub fn three_lines(s: &[u8]) -> Result<Lines, WrongLine>
    requires { length s.now ≤ 16384 }
    ensures { result ≡ three_lines s.now }
{
    let lines = first_three(s)?;
    if s.len() == 15 + 2 * lines.first + 2 * lines.second {
        Ok(lines)
    } else {
        Err(WrongLine { line: 4 })
    }
}

// The program's text: "over 8,192 bytes, else not the three lines".
#[tactic(auto, unfolding(crate::specs::Worked::said, crate::specs::Engine::parsed))]
pub fn parse(s: &[u8]) -> Result<Lines, WrongLine>
    ensures { said_by s.now result ≡ said s.now }
{
    if 8192 < s.len() {
        Err(WrongLine { line: 0 })
    } else {
        three_lines(s)
    }
}

fn pair(x: u8, y: u8) -> u8
    ensures { result ≡ pair_of x y }
{
    let high = u32::from(hex(x));
    let low = u32::from(hex(y));
    ((16 * high + low) % 256) as u8
}

// The first n bytes of `out`: those of the n pairs that start at a place of the text.
pub fn unhex(s: &[u8], at: usize, n: usize, out: &mut [u8])
    requires { (at ≤ 65536) × (n ≤ length out.old) × (n ≤ 8192) }
    ensures { out.new ≡ filled (byte_of s.now at) n out.old }
{
    for i in 0..n {
        out[i] = pair(
            bits::byte_at(s, at + 2 * i),
            bits::byte_at(s, at + 2 * i + 1),
        );
    }
}
