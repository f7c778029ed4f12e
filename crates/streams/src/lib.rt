// The streams of a frame's User fields (02, T-11), by the words that the reader gives.
#![tactic(auto)]

ghost use Rattle.std.specs.Prelude.{◌≡◌, true, false, ◌/◌, ◌%◌, ◌≤◌, ◌<◌, length, replicate};
ghost use Rattle.answer.specs.Lists.{at, filled};
ghost use Rattle.kinds.specs.Signals.{Signals};
ghost use Rattle.plan.specs.Engine.{only_plan};
ghost use Rattle.words.specs.Engine.{value_of};
ghost use Rattle.streams.specs.Streams.{alone_streams};
ghost use Rattle.streams.specs.Engine.{Coded, word_nss, word_none, word_streams, streams_in, all_named, answer_in, after_in, codes_of};
ghost use Rattle.streams.specs.Engine.{Worded, words_answer, words_streams};
ghost use Rattle.streams.specs.Result.{streams_answer, streams_after};

use answer::{Answer, Refusal};

// ---- of the frame's row: which of its resource's fields each is, and of how many

// The first n RU Allocation values of the words.
fn row_in(words: &[u32], n: usize) -> [u16; 16]
    requires { n ≤ 16 }
    ensures { result ≡ filled (value_of words.now) n (replicate 16 0) }
{
    let mut row = [0u16; 16];
    for p in 0..n {
        row[p] = words::value_of(words, p) as u16;
    }
    row
}

fn codes_of(row: &[u16]) -> [u16; 144]
    requires { (length row.now ≤ 16) × Signals (only_plan (at row.now)) (at row.now) 0 (length row.now) }
    ensures { result ≡ codes_of row.now }
{
    let kinds = plan::kinds_in(row);
    let m = plan::channel_fields(row, 1);
    let n = m + plan::channel_fields(row, 2);
    turns::turns_of(row, &kinds, m, n)
}

// ---- of a User field: its code and its word

// 21 of a field.
fn names_none(code: u16, w: u32) -> bool
    requires { code / 256 ≤ 8 }
    ensures { result ≡ word_none (code / 256) w }
{
    let users = usize::from(code / 256);
    let number = (w / 256 / 2048 / 2 / 16 % 64) as usize;
    (w / 256 % 2048 != 2046) & ((2 <= users) & (stream_rows::rows_of(users) <= number))
}

// Alone on its resource.
fn alone_streams(w: u32) -> u8
    ensures { result ≡ alone_streams (word_nss w) }
{
    let nss = (w / 256 / 2048 / 2 / 16 % 16) as u8;
    if nss < 8 { nss + 1 } else { 0 }
}

fn field_streams(code: u16, w: u32) -> u8
    requires { (code % 256 < code / 256) × (code / 256 ≤ 8) × (word_none (code / 256) w ≡ false) }
    ensures { result ≡ word_streams (code / 256) (code % 256) w }
{
    if w / 256 % 2048 == 2046 {
        return 0;
    }
    if code / 256 < 2 {
        return alone_streams(w);
    }
    stream_rows::entry_at(
        usize::from(code / 256),
        (w / 256 / 2048 / 2 / 16 % 64) as usize,
        usize::from(code % 256),
    )
}

// ---- of all User fields

fn all_named(codes: &[u16; 144], words: &[u32]) -> bool
    requires { (length words.now ≤ 144) × Coded (length words.now) codes.now }
    ensures { result ≡ all_named codes.now words.now }
{
    let mut all = true;
    for x in 0..words.len() {
        all = all & !names_none(codes[x], words[x]);
    }
    all
}

fn put_streams(out: &mut [u8], codes: &[u16; 144], words: &[u32])
    requires words_coded { (length words.now ≤ 144) × Coded (length words.now) codes.now × (all_named codes.now words.now ≡ true) }
    requires out_room { length words.now ≤ length out.old }
    ensures { out.new ≡ filled (streams_in codes.now words.now) (length words.now) out.old }
{
    for x in 0..words.len() {
        out[x] = field_streams(codes[x], words[x]);
    }
}

// 21, 23, and the streams of fields that get neither.
fn answer_fields(out: &mut [u8], codes: &[u16; 144], words: &[u32]) -> Answer
    requires { (length words.now ≤ 144) × Coded (length words.now) codes.now }
    ensures value { result ≡ answer_in codes.now words.now (length out.old) }
    ensures out_after { out.new ≡ after_in codes.now words.now out.old }
{
    let n = words.len();
    let judged = answer::or_else(
        answer::refuse_if(!all_named(codes, words), Refusal::NoSuchStreams),
        answer::refuse_if(out.len() < n, Refusal::BufferTooShort { needed: n }),
    );
    if let Err(refused) = judged {
        return refused.into();
    }
    put_streams(out, codes, words);
    Answer::accepted(n)
}

// The same of the words of a frame.
fn answer_words(out: &mut [u8], bw: u32, words: &[u32]) -> Answer
    requires { (bw ≤ 4) × Worded bw words.now }
    ensures value { result ≡ words_answer bw words.now (length out.old) }
    ensures out_after { out.new ≡ words_streams bw words.now out.old }
{
    let p = channel::positions_of(bw);
    let row = row_in(words, p);
    let codes = codes_of(&row[..p]);
    answer_fields(out, &codes, &words[10..])
}

// The reading, into words that are lent for it, and the streams of what was read.
fn streams_through(
    bandwidth: u32,
    cc1: &[u8],
    cc2: &[u8],
    out: &mut [u8],
    words: &mut [u32],
) -> Answer
    requires { length words.old ≡ 154 }
    ensures value { result ≡ streams_answer bandwidth cc1.now cc2.now (length out.old) }
    ensures out_after { out.new ≡ streams_after bandwidth cc1.now cc2.now out.old }
{
    let read = reader::read(bandwidth, cc1, cc2, words);
    if read.number != 0 {
        return read;
    }
    let n = read.place;
    answer_words(out, bandwidth, &words[..n])
}

// The streams of a frame's User fields, a byte each in the order of their words: 1 to 11 as the reader, then 21 where a field names a row past
// the last, then 23. A refusal writes nothing.
pub fn streams(bandwidth: u32, cc1: &[u8], cc2: &[u8], out: &mut [u8]) -> Answer
    ensures value { result ≡ streams_answer bandwidth cc1.now cc2.now (length out.old) }
    ensures out_after { out.new ≡ streams_after bandwidth cc1.now cc2.now out.old }
{
    let mut words = [0u32; 154];
    streams_through(bandwidth, cc1, cc2, out, &mut words)
}
