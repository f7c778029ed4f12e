// Spatial streams: the number of a row of streams for 2 to 8 users, and the row of a number (02, T-11).
//
// No row is listed on the way to another: all rows with as many entries of at least 2 are stepped over at once, then those with as many of at
// least 3.
#![tactic(auto)]

ghost use Rattle.std.specs.Prelude.{◌≡◌, true, ◌||◌, ◌+◌, ◌*◌, ◌≤◌, ◌<◌, min, leb, length, is_some, IfSome};
ghost use Rattle.answer.specs.Lists.{at, filled};
ghost use Rattle.stream_rows.specs.Rows.{row_in};
ghost use Rattle.stream_rows.specs.Engine.{entry_of, with_two, before_two, before_three, Numbered};
ghost use Rattle.stream_rows.specs.Worked.{the_rows, is_listed};
ghost use Rattle.stream_rows.specs.Result.{not2to8, row_outcome, row_answer, row_after, number_of, number_answer};

use answer::{Answer, Refusal};

// How many entries of a row are at least 2, 3 and 4.
#[derive(Clone, Copy)]
struct Shape {
    two: usize,
    three: usize,
    four: usize,
}

// How many rows there are.
pub fn rows_of(users: usize) -> usize
    requires { users ≤ 8 }
    ensures { result ≡ length (the_rows users) }
{
    match users {
        0 => 1,
        1 => 4,
        2 => 10,
        3 => 20,
        4 => 35,
        5 => 49,
        6 => 54,
        7 => 50,
        _ => 41,
    }
}

fn least_of(x: usize, y: usize) -> usize
    ensures { result ≡ min x y }
{
    if x < y { x } else { y }
}

// How many rows have a entries of at least 2: as many as there are b, no more than a, and c, no more than b, that add to at most s, which is
// left of the sum. Were b not held to a, these would be the quarter of (s + 2)^2; e (e + 1) / 2 of them have b above a, where s is above a by e.
// Past 2 a, s holds nothing back.
fn rows_with(users: usize, a: usize) -> usize
    requires { (users ≤ 8) × (a ≤ 8) }
    ensures { (result ≡ length (with_two users a)) × (result ≤ 100) }
{
    let s = least_of(16 - users - a, 2 * a);
    let e = s - least_of(s, a);
    (s + 2) * (s + 2) / 4 - e * (e + 1) / 2
}

// ---- from a number to its row

// Of the rows with a entries of at least 2 the one with this number among them.
fn decode_rest(users: usize, a: usize, number: usize) -> Shape
    requires { (users ≤ 8) × (a ≤ users) × (number < length (with_two users a)) }
    ensures { (result.two ≡ a) × (result.three ≤ a) × (result.four ≤ result.three) × (users + a + result.three + result.four ≤ 16)
        × (number ≡ before_three users a result.three + result.four) }
{
    let mut left = number;
    let mut b = 0;
    let mut n = 1;
    // a while: what is left tells how far it goes, and the least that stays is the answer too
    while n <= left {
        left -= n;
        b += 1;
        n = least_of(b + 1, 17 - (users + a + b));
    }
    Shape {
        two: a,
        three: b,
        four: left,
    }
}

// The row with a number. The ten with fewer than 3 entries of at least 2 come first whatever the users are: a number past them need not step
// over each.
fn decode(users: usize, number: usize) -> Shape
    requires { (users ≤ 8) × (number < length (the_rows users)) }
    ensures { Numbered users number result.two result.three result.four }
{
    let past = usize::from(10 <= number);
    let mut left = number - 10 * past;
    let mut a = 3 * past;
    let mut n = rows_with(users, a);
    // a while, as above
    while n <= left {
        left -= n;
        a += 1;
        n = rows_with(users, a);
    }
    decode_rest(users, a, left)
}

fn entry(shape: Shape, place: usize) -> u8
    ensures { (result ≡ entry_of shape.two shape.three shape.four place) × (result ≤ 4) }
{
    1 + u8::from(place < shape.two) + u8::from(place < shape.three) + u8::from(place < shape.four)
}

// The streams of the user at a place, from 0, of the row with a number.
pub fn entry_at(users: usize, number: usize, place: usize) -> u8
    requires { (users ≤ 8) × (number < length (the_rows users)) × (place < users) }
    ensures { (result ≡ at (row_in (the_rows users) number) place) × (result ≤ 4) }
{
    entry(decode(users, number), place)
}

// 21 of a number of users and a number.
fn is_past(users: u32, number: u32) -> bool
    ensures { result ≡ (not2to8 users || leb (length (the_rows users)) number) }
{
    if (users < 2) | (8 < users) {
        return true;
    }
    rows_of(users as usize) <= number as usize
}

// All refusals of a number, in their order, for a row of room bytes.
fn judge_row(users: u32, number: u32, room: usize) -> Result<(), Refusal>
    ensures { result ≡ row_outcome users number room }
{
    answer::refuse_if(is_past(users, number), Refusal::NoSuchStreams)?;
    let needed = users as usize;
    answer::refuse_if(room < needed, Refusal::BufferTooShort { needed })
}

// The first entries of the row with these many of at least 2, 3 and 4.
fn fill_row(row: &mut [u8], users: usize, shape: Shape)
    requires { users ≤ length row.old }
    ensures { row.new ≡ filled (entry_of shape.two shape.three shape.four) users row.old }
{
    for i in 0..users {
        row[i] = entry(shape, i);
    }
}

// The row with a number, into the bytes lent.
pub fn put_row(users: u32, number: u32, row: &mut [u8]) -> Answer
    ensures value { result ≡ row_answer users number (length row.old) }
    ensures row_after { row.new ≡ row_after users number row.old }
{
    let judged = judge_row(users, number, row.len());
    if let Err(refused) = judged {
        return refused.into();
    }
    let shape = decode(users as usize, number as usize);
    fill_row(row, users as usize, shape);
    Answer::accepted(users as usize)
}

// ---- from a row to its number

// How many entries of a row are at least 2, 3 and 4, where it is listed.
fn count_row(row: &[u8]) -> Option<Shape>
    requires { length row.now ≤ 8 }
    ensures listed { is_some result ≡ is_listed row.now }
    ensures numbered { IfSome result (λ shape. Numbered (length row.now) (number_of row.now) shape.two shape.three shape.four) }
{
    let mut fit = true;
    let mut last = 4;
    let mut two = 0;
    let mut three = 0;
    let mut four = 0;
    for &x in row {
        fit = fit & ((1 <= x) & (x <= last));
        two += usize::from(2 <= x);
        three += usize::from(3 <= x);
        four += usize::from(4 <= x);
        last = x;
    }
    let listed = fit & (row.len() + two + three + four <= 16);
    if listed {
        Some(Shape { two, three, four })
    } else {
        None
    }
}

// How many rows come before the first with a entries of at least 2.
fn before_two(users: usize, a: usize) -> usize
    requires { (users ≤ 8) × (a ≤ 8) }
    ensures { (result ≡ before_two users a) × (result ≤ 100 * a) }
{
    let mut n = 0;
    for i in 0..a {
        n += rows_with(users, i);
    }
    n
}

// And of those with a, before the first with b of at least 3.
fn before_three(users: usize, a: usize, b: usize) -> usize
    requires { users + a + b ≤ 16 }
    ensures { (result ≡ before_three users a b) × (result ≤ 17 * b) }
{
    let mut n = 0;
    for i in 0..b {
        n += least_of(i + 1, 17 - (users + a + i));
    }
    n
}

// The number of the row with these many entries of at least 2, 3 and 4.
fn number_with(users: usize, shape: Shape) -> usize
    requires { (users ≤ 8) × (shape.two ≤ users) × (users + shape.two + shape.three + shape.four ≤ 16) }
    ensures { result ≡ before_two users shape.two + (before_three users shape.two shape.three + shape.four) }
{
    before_two(users, shape.two) + (before_three(users, shape.two, shape.three) + shape.four)
}

// The number of a row, whose length is the number of users.
pub fn number_of(row: &[u8]) -> Answer
    ensures { result ≡ number_answer row.now }
{
    let n = row.len();
    if (n < 2) | (8 < n) {
        return Refusal::NoSuchStreams.into();
    }
    match count_row(row) {
        None => Refusal::NoSuchStreams.into(),
        Some(shape) => Answer::accepted(number_with(n, shape)),
    }
}
