// The reader: any bandwidth code, any bytes and any room to one answer, and the radiotap words of an accepted frame.
#![tactic(auto)]

ghost use Rattle.std.specs.Prelude.{◌≡◌, ◌+◌, ◌≤◌, length, Ok, OnErr, IfErr, IsErrAnd};
ghost use Rattle.answer.specs.Lists.{filled};
ghost use Rattle.channel.specs.Layout.{count, user_of};
ghost use Rattle.halves.specs.Engine.{AtMost512, outcome9to11};
ghost use Rattle.reader.specs.Table.{no_room};
ghost use Rattle.reader.specs.Result.{read_answer, words_after, put_after};
ghost use Rattle.reader.specs.Engine.{Planned8, users_answer, users_after};

use answer::{Answer, Refusal};
use word_bytes::{LentWords, Numbers};

// 12, of what the earlier checks say, in whatever form they tell a refusal.
#[inline(always)]
pub fn then_room<E: Copy + From<Refusal>>(
    prev: Result<(), E>,
    need: usize,
    room: usize,
) -> Result<(), E>
    ensures earlier { OnErr prev (result ≡ prev) }
    ensures passed { prev ≡ Ok tt → no_room need room ≡ Ok tt → result ≡ Ok tt }
    ensures refused { prev ≡ Ok tt → IfErr (no_room need room) (λ x. IsErrAnd result (E.from_gives x)) }
{
    prev?;
    answer::refuse_if(room < need, Refusal::TooFewWords { needed: need })?;
    Ok(())
}

// 9 to 11, and where they pass the fields as numbers: the checks of `second_half::check_users`, compiled into the reading, since a call would keep
// both channels in memory, and a small frame wait for it.
#[inline(always)]
fn take_checked(
    fields: &mut [u32],
    bw: u32,
    a: &[u8],
    b: &[u8],
    n: usize,
    m: usize,
) -> Result<(), Refusal>
    requires { AtMost512 a.now b.now × (n + m ≤ length fields.old) × (n ≤ 72) × (m ≤ 72) × (n ≡ count bw 1 a.now) × (m ≡ count bw 2 b.now) }
    ensures value { result ≡ outcome9to11 bw a.now b.now }
    ensures fields_after { result ≡ Ok tt
        → fields.new ≡ filled (user_of bw a.now b.now n) (n + m) fields.old }
{
    if lengths::is_short_users(bw, a, n) {
        return lengths::cut_users(bw, 1, a, n);
    }
    if lengths::is_short_users(bw, b, m) {
        return lengths::cut_users(bw, 2, b, m);
    }
    user_fields::take_users(fields, bw, a, b, n, m)?;
    stations::station_twice(fields, bw, n, m)
}

// 9 to 12, the second half, of a frame that passes 1 to 8 and has n and m User fields, and its words where they pass. The fields are kept in
// the room that is lent for them.
fn read_users<W: LentWords>(
    bw: u32,
    a: &[u8],
    b: &[u8],
    row: &[u16],
    shared: u32,
    n: usize,
    m: usize,
    fields: &mut [u32],
    words: &mut W,
    room: usize,
) -> Answer
    requires { Planned8 bw a.now b.now row.now shared n m × (n + m ≤ length fields.old) × (room ≤ W.room (W.buffer words.old)) }
    ensures value { result ≡ users_answer bw a.now b.now room }
    ensures words_after { W.buffer words.new ≡ users_after W.put bw a.now b.now room (W.buffer words.old) }
    ensures same_loan { W.loan words.new ≡ W.loan words.old }
{
    let seen = take_checked(fields, bw, a, b, n, m);
    let need = 10 + (n + m);
    let outcome = then_room(seen, need, room);
    if let Err(x) = outcome {
        return x.into();
    }
    frame_words::put_frame_to(words, fields, bw, a, b, row, shared, n, m);
    Answer::accepted(need)
}

// The same with room for the fields, which is cleared for none that 1 to 8 refuse.
fn read_planned<W: LentWords>(
    bw: u32,
    a: &[u8],
    b: &[u8],
    row: &[u16],
    shared: u32,
    n: usize,
    m: usize,
    words: &mut W,
    room: usize,
) -> Answer
    requires { Planned8 bw a.now b.now row.now shared n m × (room ≤ W.room (W.buffer words.old)) }
    ensures value { result ≡ users_answer bw a.now b.now room }
    ensures words_after { W.buffer words.new ≡ users_after W.put bw a.now b.now room (W.buffer words.old) }
    ensures same_loan { W.loan words.new ≡ W.loan words.old }
{
    let mut fields = [0u32; 144];
    read_users(bw, a, b, row, shared, n, m, &mut fields, words, room)
}

// Reads a frame into words that are lent in any form: the answer, and on acceptance the words from the first on, of which so many may be
// written. A refusal writes nothing.
pub fn read_to<W: LentWords>(
    bandwidth: u32,
    cc1: &[u8],
    cc2: &[u8],
    words: &mut W,
    room: usize,
) -> Answer
    requires { room ≤ W.room (W.buffer words.old) }
    ensures value { result ≡ read_answer bandwidth cc1.now cc2.now room }
    ensures words_after { W.buffer words.new ≡ put_after W.put bandwidth cc1.now cc2.now room (W.buffer words.old) }
    ensures same_loan { W.loan words.new ≡ W.loan words.old }
{
    let mut row = [0u16; 16];
    let mut kinds = [0u16; 16];
    let plan = first_half::plan_row(&mut row, &mut kinds, bandwidth, cc1, cc2);
    let planned = plan.outcome;
    if let Err(x) = planned {
        return x.into();
    }
    let p = channel::positions_of(bandwidth);
    let x = read_planned(
        bandwidth,
        cc1,
        cc2,
        &row[..p],
        plan.shared,
        plan.fields1,
        plan.fields2,
        words,
        room,
    );
    // made anew, so that the first half's refusals do not go through the memory that a call answers in
    Answer {
        number: x.number,
        channel: x.channel,
        place: x.place,
    }
}

// Reads a frame: the answer, and on acceptance the words at the front of the lent buffer. A refusal writes nothing.
#[tactic(auto, using(crate::proofs::Fronts::as_numbers))]
pub fn read(bandwidth: u32, cc1: &[u8], cc2: &[u8], words: &mut [u32]) -> Answer
    ensures value { result ≡ read_answer bandwidth cc1.now cc2.now (length words.old) }
    ensures words_after { words.new ≡ words_after bandwidth cc1.now cc2.now words.old }
{
    let room = words.len();
    read_to(bandwidth, cc1, cc2, &mut Numbers { words }, room)
}
