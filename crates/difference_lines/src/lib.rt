// The lines of a comparison beside those of its resources (02, T-06), into a lent buffer.
#![tactic(auto)]

ghost use Rattle.std.specs.Prelude.{◌≡◌, [], ◌∷◌, ◌+◌, ◌%◌, ◌≤◌, ◌<◌};
ghost use Rattle.text.specs.Text.{Wrote};
ghost use Rattle.answer.specs.Answer.{no};
ghost use Rattle.input.specs.Form.{hex_digit};
ghost use Rattle.compared.specs.Reading.{refused_with, bandwidth_is, overflow_is, value_is};
ghost use Rattle.compared.specs.Differences.{by};
ghost use Rattle.compared.specs.Text.{overflow_name, bits_text, side_text, difference_line};
ghost use Rattle.difference_lines.specs.Engine.{bits_part, code_line};
ghost use Rattle.resource.specs.Engine.{resource_named};

use resource::{Pairing, Resource, Size};

// Which frame has the line: 1 or 2, a number as the definition `by` has it.
pub fn put_side(out: &mut [u8], at: usize, side: u8) -> usize
    requires { (at ≤ 800000) × (side < 10) }
    ensures wrote { Wrote out.old at (side_text side) out.new result }
    ensures bounded { result ≤ at + 8 }
{
    let a = text::put_all(out, at, b"frame=");
    let b = text::put(out, a, b'0' + side);
    text::put(out, b, b' ')
}

// Of a refused frame.
pub fn put_refused(
    out: &mut [u8],
    at: usize,
    side: u8,
    number: u32,
    channel: u32,
    place: usize,
) -> usize
    requires { (at ≤ 700000) × (side < 10) }
    ensures wrote { Wrote out.old at (difference_line 0 (by side (refused_with (no number channel place)))) out.new result }
    ensures bounded { result ≤ at + 120 }
{
    let a = put_side(out, at, side);
    let b = text::put_key(out, a, b"answer=", u64::from(number));
    let c = text::put_key(out, b, b" channel=", u64::from(channel));
    text::put_line(out, c, b" place=", place as u64)
}

// Of the bandwidth.
pub fn put_bandwidth(out: &mut [u8], at: usize, side: u8, bw: u32) -> usize
    requires { (at ≤ 700000) × (side < 10) }
    ensures wrote { Wrote out.old at (difference_line 0 (by side (bandwidth_is bw))) out.new result }
    ensures bounded { result ≤ at + 40 }
{
    let a = put_side(out, at, side);
    text::put_line(out, a, b"bw=", u64::from(bw))
}

fn put_overflow_name(out: &mut [u8], at: usize, k: usize) -> usize
    requires { (at ≤ 900000) × (k < 7) }
    ensures wrote { Wrote out.old at (overflow_name k) out.new result }
    ensures bounded { result ≤ at + 16 }
{
    match k {
        0 => text::put_all(out, at, b"spatial-reuse="),
        1 => text::put_all(out, at, b"gi-ltf="),
        2 => text::put_all(out, at, b"ltf-symbols="),
        3 => text::put_all(out, at, b"ldpc-extra="),
        4 => text::put_all(out, at, b"pre-fec="),
        5 => text::put_all(out, at, b"pe-disambiguity="),
        _ => text::put_all(out, at, b"disregard="),
    }
}

// Of the k-th field of the overflow.
pub fn put_overflow(out: &mut [u8], at: usize, side: u8, k: usize, v: u32) -> usize
    requires { (at ≤ 700000) × (side < 10) × (k < 7) }
    ensures wrote { Wrote out.old at (difference_line 0 (by side (overflow_is k v))) out.new result }
    ensures bounded { result ≤ at + 50 }
{
    let a = put_side(out, at, side);
    let b = put_overflow_name(out, a, k);
    let c = text::put_dec(out, b, u64::from(v));
    text::put(out, c, b'\n')
}

// Of the value of position p.
pub fn put_value(out: &mut [u8], at: usize, side: u8, p: usize, v: u16) -> usize
    requires { (at ≤ 700000) × (side < 10) }
    ensures wrote { Wrote out.old at (difference_line 0 (by side (value_is p v))) out.new result }
    ensures bounded { result ≤ at + 70 }
{
    let a = put_side(out, at, side);
    let b = text::put_key(out, a, b"position=", p as u64);
    text::put_line(out, b, b" value=", u64::from(v))
}

// ---- a User field, by its number: 22 bits, and above them its resource's size, index and segment

fn hex_digit(d: u32) -> u8
    requires { d < 16 }
    ensures { result ≡ hex_digit d }
{
    if d < 10 {
        return b'0' + d as u8;
    }
    b'A' - 10 + d as u8
}

fn put_hex(out: &mut [u8], at: usize, n: u32) -> usize
    requires { at ≤ 900000 }
    ensures { Wrote out.old at (hex_digit (n % 16) ∷ []) out.new result }
{
    text::put(out, at, hex_digit(n % 16))
}

// The bits, in six digits.
fn put_bits(out: &mut [u8], at: usize, f: u32) -> usize
    requires { at ≤ 800000 }
    ensures wrote { Wrote out.old at (bits_text f) out.new result }
    ensures bounded { result ≤ at + 6 }
{
    let a = put_hex(out, at, f / 16 / 16 / 16 / 16 / 16);
    let b = put_hex(out, a, f / 16 / 16 / 16 / 16);
    let c = put_hex(out, b, f / 16 / 16 / 16);
    let d = put_hex(out, c, f / 16 / 16);
    let e = put_hex(out, d, f / 16);
    put_hex(out, e, f)
}

// The resource of so many subcarriers with this index.
fn resource_named(size: u32, index: u16) -> Resource
    ensures { result ≡ resource_named size index }
{
    match size {
        26 => Resource::Single(Size::S26, index),
        52 => Resource::Single(Size::S52, index),
        106 => Resource::Single(Size::S106, index),
        242 => Resource::Single(Size::S242, index),
        484 => Resource::Single(Size::S484, index),
        996 => Resource::Single(Size::S996, index),
        1992 => Resource::Single(Size::S2x996, index),
        132 => Resource::Joined(Pairing::P106And26, index),
        726 => Resource::Joined(Pairing::P484And242, index),
        1480 => Resource::Joined(Pairing::P996And484, index),
        2988 => Resource::Joined(Pairing::P3x996, index),
        2476 => Resource::Joined(Pairing::P2x996And484, index),
        _ => Resource::Joined(Pairing::P3x996And484, index),
    }
}

// The bits' part of the line of the i-th User field, from 0.
fn put_user_bits(out: &mut [u8], at: usize, i: usize, f: u32) -> usize
    requires { (at ≤ 700000) × (i < 1000) }
    ensures wrote { Wrote out.old at (bits_part i f) out.new result }
    ensures bounded { result ≤ at + 70 }
{
    let a = text::put_key(out, at, b"user=", i as u64 + 1);
    let b = text::put_all(out, a, b" sta=");
    let c = lines::put_id(out, b, f % 2048);
    let d = text::put_all(out, c, b" bits=");
    let e = put_bits(out, d, f);
    text::put(out, e, b' ')
}

// Of the i-th User field, from 0.
pub fn put_user(out: &mut [u8], at: usize, side: u8, i: usize, code: u64) -> usize
    requires { (at ≤ 600000) × (side < 10) × (i < 1000) }
    ensures wrote { Wrote out.old at (code_line side i code) out.new result }
    ensures bounded { result ≤ at + 150 }
{
    let a = put_side(out, at, side);
    let b = put_user_bits(out, a, i, (code % 4194304) as u32);
    let size = code / 4194304 % 4096;
    let index = code / 4194304 / 4096 % 256;
    let segment = code / 4194304 / 4096 / 256 % 256;
    let c = resource_line::put_ru_name(
        out,
        b,
        segment as u16,
        resource_named(size as u32, index as u16),
    );
    text::put(out, c, b'\n')
}
