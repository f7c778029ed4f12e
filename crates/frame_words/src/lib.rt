// The radiotap words of a frame, of its first channel's overflow and checks, its row, and its User fields as numbers, which become words where
// they stand. The bytes that the fields were read from are lent for what is promised of them alone.
#![tactic(auto)]

ghost use Rattle.std.specs.Prelude.{◌≡◌, ◌++◌, ◌+◌, ◌*◌, ◌≤◌, length, drop};
ghost use Rattle.answer.specs.Lists.{filled, Front};
ghost use Rattle.channel.specs.Layout.{second_at, second_bits, count, user, user_of};
ghost use Rattle.channel.specs.Layout as R;
ghost use Rattle.bits.specs.Bits.{field};
ghost use Rattle.word_bytes.specs.Bytes.{byte_at};
ghost use Rattle.word_bytes.specs.Lent.{puts};
ghost use Rattle.words.specs.Words.{second_word};
ghost use Rattle.user_words.specs.Engine.{run_word};
ghost use Rattle.frame_words.specs.Words.{user_word_at, header_of, words_of_row, word_count};
ghost use Rattle.frame_words.specs.Engine.{Holds, Formats, user_word_of};

use word_bytes::{LentWords, LittleEndian, Numbers};

// The first m fields, which have one format, made their words; most places of a larger resource give no field.
fn turn_value(fields: &mut [u32], m: usize, shared: bool)
    requires { m ≤ length fields.old }
    ensures { fields.new ≡ filled (run_word fields.old shared) m fields.old }
{
    if 0 < m {
        if shared {
            user_words::turn_run(fields, m, true);
        } else {
            user_words::turn_run(fields, m, false);
        }
    }
}

// A channel's User fields made their words, those of a position in the format of its resource, which bit p of `shared` tells.
fn turn_formats(fields: &mut [u32], bw: u32, c: u32, s: &[u8], row: &[u16], shared: u32)
    requires { (1 ≤ c) × (c ≤ 2) × (count bw c s.now ≤ length fields.old) × (length row.now ≤ 16)
        × Holds bw c s.now row.now × Formats row.now shared × Front (user bw s.now) (count bw c s.now) fields.old }
    ensures { fields.new
        ≡ filled (user_word_at bw row.now c s.now) (count bw c s.now) fields.old }
{
    let n = channel::subfields_of(bw, c);
    let mut j = 0;
    for k in 0..n {
        let p = 2 * k + (c as usize - 1);
        let m = resource::fields_of(row[p]) as usize;
        turn_value(&mut fields[j..], m, (shared >> p) % 2 == 1);
        j += m;
    }
}

// Both channels' User fields made their words: one run where no position's fields share their resource.
pub fn turn_users(
    fields: &mut [u32],
    bw: u32,
    a: &[u8],
    b: &[u8],
    row: &[u16],
    shared: u32,
    n: usize,
    m: usize,
)
    requires { (n + m ≤ length fields.old) × (bw ≤ 4) × (row.now ≡ R.row bw a.now b.now) × Formats row.now shared
        × (n ≡ count bw 1 a.now) × (m ≡ count bw 2 b.now) × Front (user_of bw a.now b.now n) (n + m) fields.old }
    ensures { fields.new
        ≡ filled (user_word_of bw row.now a.now b.now n) (n + m) fields.old }
{
    if shared == 0 {
        user_words::turn_run(fields, n + m, false);
    } else {
        turn_formats(fields, bw, 1, a, row, shared);
        turn_formats(&mut fields[n..], bw, 2, b, row, shared);
    }
}

// ---- lent as numbers or as bytes

// What data[7] takes of the second check, whose bits 160 and 320 MHz alone have.
fn second_check(bw: u32, a: &[u8]) -> u32
    ensures { second_word bw result ≡ second_word bw (field a.now (second_at bw + second_bits bw) 10) }
{
    if bw < 3 {
        return 0;
    }
    bits::field_at(a, channel::second_check(bw), 10)
}

// Known and the data words of a frame whose row is given.
fn put_head<W: LentWords>(out: &mut W, bw: u32, a: &[u8], row: &[u16])
    requires { 10 ≤ W.room (W.buffer out.old) }
    ensures written { W.buffer out.new ≡ puts W.put (W.buffer out.old) 0 (header_of bw row.now a.now) }
    ensures same_room { W.room (W.buffer out.new) ≡ W.room (W.buffer out.old) }
    ensures same_loan { W.loan out.new ≡ W.loan out.old }
{
    let v = bits::field_at(a, 0, 17);
    let t = bits::field_at(a, channel::first_bits(bw), 10);
    words::put_header_to(out, bw, v, t, second_check(bw, a), row);
}

// All its words, of its row and the formats of its positions. n of its User fields are channel 1's, m channel 2's.
pub fn put_frame_to<W: LentWords>(
    out: &mut W,
    fields: &mut [u32],
    bw: u32,
    a: &[u8],
    b: &[u8],
    row: &[u16],
    shared: u32,
    n: usize,
    m: usize,
)
    requires { (word_count bw a.now b.now ≤ W.room (W.buffer out.old)) × (n + m ≤ length fields.old) × (bw ≤ 4) × (row.now ≡ R.row bw a.now b.now)
        × Formats row.now shared × (n ≡ count bw 1 a.now) × (m ≡ count bw 2 b.now) × Front (user_of bw a.now b.now n) (n + m) fields.old }
    ensures written { W.buffer out.new ≡ puts W.put (W.buffer out.old) 0 (words_of_row bw row.now a.now b.now) }
    ensures same_loan { W.loan out.new ≡ W.loan out.old }
{
    put_head(out, bw, a, row);
    turn_users(fields, bw, a, b, row, shared, n, m);
    word_bytes::put_words(out, 10, &fields[..n + m]);
}

// The same at the front of the lent words.
#[tactic(auto, using(crate::proofs::Fronts::words_front))]
pub fn put_frame(
    words: &mut [u32],
    fields: &mut [u32],
    bw: u32,
    a: &[u8],
    b: &[u8],
    row: &[u16],
    shared: u32,
    n: usize,
    m: usize,
)
    requires { (word_count bw a.now b.now ≤ length words.old) × (n + m ≤ length fields.old) × (bw ≤ 4) × (row.now ≡ R.row bw a.now b.now)
        × Formats row.now shared × (n ≡ count bw 1 a.now) × (m ≡ count bw 2 b.now) × Front (user_of bw a.now b.now n) (n + m) fields.old }
    ensures { words.new
        ≡ words_of_row bw row.now a.now b.now ++ drop (word_count bw a.now b.now) words.old }
{
    put_frame_to(&mut Numbers { words }, fields, bw, a, b, row, shared, n, m)
}

// The same as bytes, the lowest of each word first.
#[tactic(auto, using(crate::proofs::Fronts::bytes_front))]
pub fn put_frame_bytes(
    out: &mut [u8],
    fields: &mut [u32],
    bw: u32,
    a: &[u8],
    b: &[u8],
    row: &[u16],
    shared: u32,
    n: usize,
    m: usize,
)
    requires { (4 * word_count bw a.now b.now ≤ length out.old) × (n + m ≤ length fields.old) × (bw ≤ 4) × (row.now ≡ R.row bw a.now b.now)
        × Formats row.now shared × (n ≡ count bw 1 a.now) × (m ≡ count bw 2 b.now) × Front (user_of bw a.now b.now n) (n + m) fields.old }
    ensures { out.new
        ≡ filled (byte_at (words_of_row bw row.now a.now b.now)) (4 * word_count bw a.now b.now)
        out.old }
{
    put_frame_to(
        &mut LittleEndian { bytes: out },
        fields,
        bw,
        a,
        b,
        row,
        shared,
        n,
        m,
    )
}
