// The writer: words to channels, the inverse of the reader. The words are judged as they stand (`judge`), and the room is measured; only then is
// anything written to the caller, and straight to where it is lent.
#![tactic(auto)]

ghost use Rattle.std.specs.Prelude.{◌≡◌, true, List, ℕ, ◌+◌, ◌*◌, ◌/◌, ◌^◌, ◌≤◌, ◌<◌, length};
ghost use Rattle.answer.specs.Answer.{no};
ghost use Rattle.answer.specs.Lists.{filled, at};
ghost use Rattle.word_bytes.specs.Bytes.{words_in};
ghost use Rattle.channel.specs.Layout.{present, second_at, second_bits, subfields, end_of};
ghost use Rattle.candidate.specs.Engine.{Narrow, Made, FieldsIn, overflow_in, count_in, needed, candidate};
ghost use Rattle.judge.specs.Engine.{reads_to, row_in, Begun};
ghost use Rattle.writer.specs.Engine.{Turned, Given};
ghost use Rattle.writer.specs.Room.{no_channel_room};
ghost use Rattle.writer.specs.Result.{front, write_answer, channel_after};

use answer::{Answer, Refusal};
use judge::Told;

// ---- the channels

// The User words made their fields, where they stand.
fn turn_users(words: &mut [u32])
    ensures { Turned words.old words.new }
{
    for i in 10..words.len() {
        words[i] = words::user_field(words[i]);
    }
}

// The channel of these parts and fields at the front of the lent bytes.
fn put_channel(d: &mut [u8], need: usize, bw: u32, first: u64, second: u64, fields: &[u32])
    requires { (end_of bw (length fields.now) ≤ 8 * need) × (need ≤ 257) × (need ≤ length d.old) × (first < 2 ^ second_at bw)
        × (second < 2 ^ (second_bits bw + 10)) × (length fields.now ≤ 72) × Narrow fields.now }
    ensures { (s : List ℕ) → length s ≡ need → Made bw first second fields.now s → d.new ≡ front s d.old }
{
    candidate::build(&mut d[..need], bw, first, second, fields);
}

// Channel 2 of words that have this overflow, row and User fields, which 20 MHz lacks.
fn put_other(d: &mut [u8], need: usize, bw: u32, overflow: u32, row: &[u16], fields: &[u32])
    requires { (bw ≤ 4) × (end_of bw (length fields.now) ≤ 8 * need) × (need ≤ 257) × (length fields.now ≤ 72) × Narrow fields.now
        × (present bw 2 ≡ true → (need ≤ length d.old) × (2 * subfields bw ≤ length row.now)) }
    ensures { (w : List ℕ) → row.now ≡ row_in bw w → overflow ≡ overflow_in w → FieldsIn bw w 2 fields.now → need ≡ needed bw w
        → d.new ≡ front (candidate bw w 2) d.old }
{
    if channel::is_present(bw, 2) {
        let first = candidate::first_part(bw, overflow, row, 2);
        let second = candidate::second_part(bw, row, 2);
        put_channel(d, need, bw, first, second, fields);
    }
}

// Both channels, of the User fields of both and what was told of them.
fn put_both(
    bw: u32,
    fields: &[u32],
    row: &[u16],
    told: Told,
    need: usize,
    cc1: &mut [u8],
    cc2: &mut [u8],
)
    requires { ((w : List ℕ) × Given bw w row.now fields.now told.fields1 need told.overflow told.first told.second) × (need ≤ length cc1.old)
        × (present bw 2 ≡ true → need ≤ length cc2.old) }
    ensures cc1_after { (w : List ℕ) → Given bw w row.now fields.now told.fields1 need told.overflow told.first told.second
        → cc1.new ≡ front (candidate bw w 1) cc1.old }
    ensures cc2_after { (w : List ℕ) → Given bw w row.now fields.now told.fields1 need told.overflow told.first told.second
        → cc2.new ≡ front (candidate bw w 2) cc2.old }
{
    let n = told.fields1;
    put_channel(cc1, need, bw, told.first, told.second, &fields[..n]);
    put_other(cc2, need, bw, told.overflow, row, &fields[n..]);
}

// ---- what is refused

// 14, where so many bytes are needed and n and m lent.
fn no_channel_room(bw: u32, need: usize, n: usize, m: usize) -> Result<(), Refusal>
    ensures { result ≡ no_channel_room bw need n m }
{
    let there = channel::is_present(bw, 2);
    answer::refuse_if(
        n < need,
        Refusal::TooFewBytes {
            channel: 1,
            needed: need,
        },
    )?;
    answer::refuse_if(
        there & (m < need),
        Refusal::TooFewBytes {
            channel: 2,
            needed: need,
        },
    )
}

// Words that are told: 14, or both channels.
fn write_told(
    bw: u32,
    words: &mut [u32],
    row: &[u16],
    told: Told,
    cc1: &mut [u8],
    cc2: &mut [u8],
) -> Answer
    requires { (bw ≤ 4) × (row.now ≡ row_in bw words.old) × (reads_to bw (candidate bw words.old 1) (candidate bw words.old 2) words.old ≡ true)
        × (told.fields1 ≡ count_in bw words.old 1) × (told.fields2 ≡ count_in bw words.old 2)
        × Begun bw words.old told.overflow told.first told.second }
    ensures value { result ≡ write_answer bw words.old (length cc1.old) (length cc2.old) }
    ensures cc1_after { cc1.new ≡ channel_after bw words.old (length cc1.old) (length cc2.old) 1 cc1.old }
    ensures cc2_after { cc2.new ≡ channel_after bw words.old (length cc1.old) (length cc2.old) 2 cc2.old }
{
    let need = candidate::bytes_for(bw, told.fields1, told.fields2);
    let outcome = no_channel_room(bw, need, cc1.len(), cc2.len());
    if let Err(x) = outcome {
        return x.into();
    }
    turn_users(words);
    put_both(bw, &words[10..], row, told, need, cc1, cc2);
    Answer::accepted(need)
}

// As `write`, from words that need not be kept: their User words are made fields where they stand.
fn write_own(bandwidth: u32, words: &mut [u32], cc1: &mut [u8], cc2: &mut [u8]) -> Answer
    ensures value { result ≡ write_answer bandwidth words.old (length cc1.old) (length cc2.old) }
    ensures cc1_after { cc1.new
        ≡ channel_after bandwidth words.old (length cc1.old) (length cc2.old) 1 cc1.old }
    ensures cc2_after { cc2.new
        ≡ channel_after bandwidth words.old (length cc1.old) (length cc2.old) 2 cc2.old }
{
    if 4 < bandwidth {
        return Refusal::UnknownBandwidth.into();
    }
    let mut row = [0u16; 16];
    if !judge::take_row(&mut row, bandwidth, words) {
        return Refusal::NoFrameReads.into();
    }
    let p = channel::positions_of(bandwidth);
    let Some(told) = judge::judge(bandwidth, words, &row[..p]) else {
        return Refusal::NoFrameReads.into();
    };
    write_told(bandwidth, words, &row[..p], told, cc1, cc2)
}

// The words, in a copy of one's own.
fn copy_words(own: &mut [u32], words: &[u32])
    requires { length words.now ≤ length own.old }
    ensures { own.new ≡ filled (at words.now) (length words.now) own.old }
{
    own[..words.len()].copy_from_slice(words);
}

// Writes both channels from the words: the answer, and on acceptance the bytes at the front of the lent buffers. A
// refusal writes nothing. No frame has more than 154 words.
pub fn write(bandwidth: u32, words: &[u32], cc1: &mut [u8], cc2: &mut [u8]) -> Answer
    ensures value { result ≡ write_answer bandwidth words.now (length cc1.old) (length cc2.old) }
    ensures cc1_after { cc1.new
        ≡ channel_after bandwidth words.now (length cc1.old) (length cc2.old) 1 cc1.old }
    ensures cc2_after { cc2.new
        ≡ channel_after bandwidth words.now (length cc1.old) (length cc2.old) 2 cc2.old }
{
    if 4 < bandwidth {
        return Refusal::UnknownBandwidth.into();
    }
    let n = words.len();
    if 154 < n {
        return Refusal::NoFrameReads.into();
    }
    let mut own = [0u32; 154];
    copy_words(&mut own, words);
    write_own(bandwidth, &mut own[..n], cc1, cc2)
}

// ---- of words that are lent as bytes, of each the lowest first

// The writing, of n words and through words of its own.
fn write_through(
    bandwidth: u32,
    words: &[u8],
    n: usize,
    cc1: &mut [u8],
    cc2: &mut [u8],
    local: &mut [u32],
) -> Answer
    requires { (n ≤ length local.old) × (n ≡ length words.now / 4) }
    ensures value { result ≡ write_answer bandwidth (words_in words.now) (length cc1.old) (length cc2.old) }
    ensures cc1_after { cc1.new
        ≡ channel_after bandwidth (words_in words.now) (length cc1.old) (length cc2.old) 1 cc1.old }
    ensures cc2_after { cc2.new
        ≡ channel_after bandwidth (words_in words.now) (length cc1.old) (length cc2.old) 2 cc2.old }
{
    word_bytes::get_words(local, words, n);
    write_own(bandwidth, &mut local[..n], cc1, cc2)
}

// As `write`, of words that are lent as bytes and are no more than a frame has.
pub fn write_bytes(bandwidth: u32, words: &[u8], cc1: &mut [u8], cc2: &mut [u8]) -> Answer
    requires { length words.now / 4 ≤ 154 }
    ensures value { result ≡ write_answer bandwidth (words_in words.now) (length cc1.old) (length cc2.old) }
    ensures cc1_after { cc1.new
        ≡ channel_after bandwidth (words_in words.now) (length cc1.old) (length cc2.old) 1 cc1.old }
    ensures cc2_after { cc2.new
        ≡ channel_after bandwidth (words_in words.now) (length cc1.old) (length cc2.old) 2 cc2.old }
{
    let n = words.len() / 4;
    let mut local = [0u32; 154];
    write_through(bandwidth, words, n, cc1, cc2, &mut local)
}
