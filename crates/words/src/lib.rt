// The radiotap EHT words (002) of the parts of a frame, and back.
#![tactic(auto)]

ghost use Rattle.std.specs.Prelude.{◌≡◌, true, false, ◌++◌, ◌+◌, ◌*◌, ◌≤◌, ◌<◌, length, drop};
ghost use Rattle.answer.specs.Lists.{at};
ghost use Rattle.words.specs.Words.{overflow_word, value_slot, first_word, triple_word, second_word, header, user_word};
ghost use Rattle.words.specs.Engine.{gi_ltf, overflow_of, value_of, field_in, user_field};
ghost use Rattle.word_bytes.specs.Lent.{puts};

use word_bytes::{LentWords, Numbers};

// ---- from the parts of a frame to words

// data[0], of the 17 bits of overflow and the ten of check and tail.
#[tactic(auto, unfolding(crate::specs::Words::overflow_word))]
pub fn overflow_word(v: u32, t: u32) -> u32
    requires { t < 1024 }
    ensures { result ≡ overflow_word v t }
{
    let a = v / 16;
    let b = a / 4;
    let c = b / 8;
    let d = c / 2;
    let e = d / 4;
    let f = e / 2;
    let high = b % 8 + 8 * (c % 2 + 2 * (d % 4 + 4 * (e % 2 + 2 * (f % 16 + 16 * t))));
    8 * (v % 16
        + 16 * (header_values::gi_of(a % 4) + 4 * (header_values::size_of(a % 4) + 4 * high)))
}

// An RU Allocation and its known bit.
#[tactic(auto, unfolding(crate::specs::Words::value_slot))]
fn slot_of(row: &[u16], p: usize) -> u32
    ensures { (result < 1024) × (result ≡ value_slot (at row.now) (length row.now) p) }
{
    if p < row.len() {
        u32::from(row[p]) % 512 + 512
    } else {
        0
    }
}

// data[1].
#[tactic(auto, unfolding(crate::specs::Words::first_word))]
pub fn first_word(row: &[u16]) -> u32
    ensures { result ≡ first_word (at row.now) (length row.now) }
{
    8192 * slot_of(row, 0)
}

// Of data[2] to data[6] the one that begins with position p.
#[tactic(auto, unfolding(crate::specs::Words::triple_word, crate::specs::Words::value_slot))]
pub fn triple_word(row: &[u16], p: usize) -> u32
    requires { p < 16 }
    ensures { result ≡ triple_word (at row.now) (length row.now) p }
{
    // of a narrow frame most have none
    if row.len() <= p {
        return 0;
    }
    slot_of(row, p) + 1024 * (slot_of(row, p + 1) + 1024 * slot_of(row, p + 2))
}

// data[7].
#[tactic(auto, unfolding(crate::specs::Words::second_word))]
fn second_word(bw: u32, t: u32) -> u32
    ensures { result ≡ second_word bw t }
{
    if bw < 3 { 0 } else { t }
}

// Known and data[0] to data[8].
pub fn put_header_to<W: LentWords>(out: &mut W, bw: u32, v: u32, t: u32, t2: u32, row: &[u16])
    requires { (10 ≤ W.room (W.buffer out.old)) × (t < 1024) }
    ensures written { W.buffer out.new ≡ puts W.put (W.buffer out.old) 0 (header bw v t t2 (at row.now) (length row.now)) }
    ensures same_room { W.room (W.buffer out.new) ≡ W.room (W.buffer out.old) }
    ensures same_loan { W.loan out.new ≡ W.loan out.old }
{
    out.put(0, header_values::known_word(bw));
    out.put(1, overflow_word(v, t));
    out.put(2, first_word(row));
    out.put(3, triple_word(row, 1));
    out.put(4, triple_word(row, 4));
    out.put(5, triple_word(row, 7));
    out.put(6, triple_word(row, 10));
    out.put(7, triple_word(row, 13));
    out.put(8, second_word(bw, t2));
    out.put(9, 0);
}

// The same at the front of the lent words.
#[tactic(auto, using(crate::proofs::Fronts::words_front))]
pub fn put_header(words: &mut [u32], bw: u32, v: u32, t: u32, t2: u32, row: &[u16])
    requires { (10 ≤ length words.old) × (t < 1024) }
    ensures { words.new ≡ header bw v t t2 (at row.now) (length row.now) ++ drop 10 words.old }
{
    put_header_to(&mut Numbers { words }, bw, v, t, t2, row)
}

// The word of a User field that is alone on its resource.
#[tactic(auto, unfolding(crate::specs::Words::user_word))]
fn alone_word(f: u32) -> u32
    ensures { result ≡ user_word false f }
{
    let a = f / 2048;
    let b = a / 16;
    let c = b / 2;
    let d = c / 16;
    let e = d / 2;
    63 + 256
        * (f % 2048 + 2048 * (e % 2 + 2 * (a % 16 + 16 * (c % 16 + 16 * (b % 2 + 2 * (d % 2))))))
}

// The word of a User field on a shared resource.
#[tactic(auto, unfolding(crate::specs::Words::user_word))]
fn shared_word(f: u32) -> u32
    ensures { result ≡ user_word true f }
{
    let a = f / 2048;
    let b = a / 16;
    let c = b / 2;
    71 + 256 * (f % 2048 + 2048 * (b % 2 + 2 * (a % 16 + 16 * (c % 64))))
}

// The word of a User field of 22 bits.
pub fn user_word(shared: bool, f: u32) -> u32
    ensures { result ≡ user_word shared f }
{
    if shared {
        shared_word(f)
    } else {
        alone_word(f)
    }
}

// ---- and back

// The GI+LTF that gives a GI and an LTF size.
fn gi_ltf(gi: u32, size: u32) -> u32
    ensures { (result < 4) × (result ≡ gi_ltf gi size) }
{
    if size == 3 {
        if gi == 2 { 3 } else { 2 }
    } else {
        gi % 2
    }
}

// The overflow of data[0].
#[tactic(auto, unfolding(crate::specs::Engine::overflow_of))]
pub fn overflow_of(w: u32) -> u32
    ensures { result ≡ overflow_of w }
{
    let a = w / 8;
    let b = a / 16;
    let c = b / 4;
    let d = c / 4;
    let e = d / 8;
    let f = e / 2;
    let g = f / 4;
    let h = g / 2;
    a % 16
        + 16 * (gi_ltf(b % 4, c % 4)
            + 4 * (d % 8 + 8 * (e % 2 + 2 * (f % 4 + 4 * (g % 2 + 2 * (h % 16))))))
}

fn word_at(words: &[u32], i: usize) -> u32
    ensures { result ≡ at words.now i }
{
    if i < words.len() { words[i] } else { 0 }
}

// The RU Allocation value of a position.
#[tactic(auto, unfolding(crate::specs::Engine::value_of))]
pub fn value_of(words: &[u32], p: usize) -> u32
    ensures { result ≡ value_of words.now p }
{
    if p == 0 {
        return word_at(words, 2) / 8192 % 512;
    }
    let q = p - 1;
    (word_at(words, 3 + q / 3) >> (10 * (q % 3))) % 512
}

// The User field of a word on a shared resource.
fn shared_field(w: u32) -> u32
    ensures { result ≡ field_in true w }
{
    let a = w / 256;
    let b = a / 2048;
    let c = b / 2;
    let d = c / 16;
    a % 2048 + 2048 * (c % 16 + 16 * (b % 2 + 2 * (d % 64)))
}

// The User field of a word alone on its resource.
fn alone_field(w: u32) -> u32
    ensures { result ≡ field_in false w }
{
    let a = w / 256;
    let b = a / 2048;
    let c = b / 2;
    let d = c / 16;
    let e = d / 16;
    let f = e / 2;
    a % 2048 + 2048 * (c % 16 + 16 * (e % 2 + 2 * (d % 16 + 16 * (f % 2 + 2 * (b % 2)))))
}

// The User field of a User word.
#[tactic(auto, unfolding(crate::specs::Engine::user_field))]
pub fn user_field(w: u32) -> u32
    ensures { result ≡ user_field w }
{
    if w % 256 == 0x47 {
        shared_field(w)
    } else {
        alone_field(w)
    }
}
