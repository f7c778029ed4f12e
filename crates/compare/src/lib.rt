// Two frames compared (02, T-06): what one says and the other does not, as lines of text.
#![tactic(auto)]

ghost use Rattle.std.specs.Prelude.{◌≡◌, ◌+◌, ◌*◌, ◌≤◌, ◌<◌, length, get_or, Ok};
ghost use Rattle.answer.specs.Lists.{at as nth};
ghost use Rattle.text.specs.Text.{Wrote, upto};
ghost use Rattle.bits.specs.Pack.{unpack};
ghost use Rattle.channel.specs.Fields.{overflow_widths};
ghost use Rattle.channel.specs.Layout.{overflow};
ghost use Rattle.plan.specs.Engine.{kinds_of};
ghost use Rattle.halves.specs.Table.{outcome11};
ghost use Rattle.both_halves.specs.Engine.{Given, accepted_plan};
ghost use Rattle.compared.specs.Differences.{longer};
ghost use Rattle.compare_size.specs.Size.{compare_size};
ghost use Rattle.compared.specs.Text.{comparison_text, compare_answer, compare_after};
ghost use Rattle.compare.specs.Engine.{overflow_turn, value_turn, common_text, bandwidth_text, refusals_text};
ghost use Rattle.compare.specs.Engine.{code_part, code_turn, code_in72, code_at, code_get, code_turns, channel_codes, fields_text};
ghost use Rattle.compare.specs.Engine.{first_changed, all_same};

use answer::{Answer, Refusal};
use difference_lines::{put_bandwidth, put_overflow, put_refused, put_user, put_value};
use halves::Planned;

// An accepted frame: its channels, its row, the kinds of its plan, and how many User fields each channel has.
#[derive(Clone, Copy)]
struct Accepted<'a> {
    bandwidth: u32,
    cc1: &'a [u8],
    cc2: &'a [u8],
    row: &'a [u16],
    kinds: &'a [u16; 16],
    fields1: usize,
    fields2: usize,
    ghost passes: { outcome11 bandwidth cc1.now cc2.now ≡ Ok tt },
    ghost given: { Given bandwidth cc1.now cc2.now row.now kinds.now fields1 fields2 },
    ghost few: { (length row.now ≤ 16) × (fields1 ≤ 72) × (fields2 ≤ 72) },
}

// Two accepted frames of one bandwidth.
#[derive(Clone, Copy)]
struct Pair<'a> {
    one: Accepted<'a>,
    two: Accepted<'a>,
    ghost same_bandwidth: { two.bandwidth ≡ one.bandwidth },
}

// The numbers of a frame's User fields, `first` of which are channel 1's.
#[derive(Drop)]
struct Codes {
    codes1: [u64; 72],
    codes2: [u64; 72],
    first: usize,
    count: usize,
}

impl<'a> Accepted<'a> {
    // What the reading of a frame comes to.
    fn new(bandwidth: u32, cc1: &'a [u8], cc2: &'a [u8], read: &'a Planned) -> Accepted<'a>
        requires read { read.now ≡ accepted_plan bandwidth cc1.now cc2.now }
        requires passes { read.now.outcome ≡ Ok tt }
        ensures frame { (result.bandwidth ≡ bandwidth) × (result.cc1.now ≡ cc1.now) × (result.cc2.now ≡ cc2.now) }
    {
        let n = channel::positions_of(bandwidth);
        Accepted {
            bandwidth,
            cc1,
            cc2,
            row: &read.row[..n],
            kinds: &read.kinds,
            fields1: read.fields1,
            fields2: read.fields2,
        }
    }

    fn overflow(&self) -> u32
        ensures { result ≡ overflow self.now.cc1.now }
    {
        bits::field_at(self.cc1, 0, 17)
    }

    fn codes(&self) -> Codes
        ensures codes1 { result.codes1 ≡ channel_codes self.now.bandwidth self.now.cc1.now self.now.row.now 1 self.now.fields1 }
        ensures codes2 { result.codes2 ≡ channel_codes self.now.bandwidth self.now.cc2.now self.now.row.now 2 self.now.fields2 }
        ensures counts { (result.first ≡ self.now.fields1) × (result.count ≡ self.now.fields1 + self.now.fields2) }
    {
        let before = records::numbers_before(self.kinds, self.row);
        let codes = user_codes::codes_of(self.kinds, self.row);
        let codes1 = user_codes::fields_of(
            self.bandwidth,
            self.cc1,
            self.row,
            self.kinds,
            &before,
            &codes,
            1,
            self.fields1,
        );
        let codes2 = user_codes::fields_of(
            self.bandwidth,
            self.cc2,
            self.row,
            self.kinds,
            &before,
            &codes,
            2,
            self.fields2,
        );
        Codes {
            codes1,
            codes2,
            first: self.fields1,
            count: self.fields1 + self.fields2,
        }
    }
}

impl Codes {
    // The i-th over both channels; 0 past the last that a channel has room for.
    fn at(&self, i: usize) -> u64
        ensures { result ≡ code_at self.now.codes1 self.now.codes2 self.now.first i }
    {
        if i < self.first {
            code_of(&self.codes1, i)
        } else {
            code_of(&self.codes2, i - self.first)
        }
    }

    // The same, where the frame has as many.
    #[tactic(auto, unfolding(crate::specs::Engine::code_get))]
    fn get(&self, i: usize) -> Option<u64>
        ensures { result ≡ code_get self.now.codes1 self.now.codes2 self.now.first self.now.count i }
    {
        if i < self.count {
            Some(self.at(i))
        } else {
            None
        }
    }
}

// ---- the overflow

// Its k-th field, of its 17 bits.
fn overflow_field(v: u32, k: usize) -> u32
    requires { k < 7 }
    ensures { result ≡ nth (unpack overflow_widths v) k }
{
    match k {
        0 => v % 16,
        1 => v / 16 % 4,
        2 => v / 16 / 4 % 8,
        3 => v / 16 / 4 / 8 % 2,
        4 => v / 16 / 4 / 8 / 2 % 4,
        5 => v / 16 / 4 / 8 / 2 / 4 % 2,
        _ => v / 16 / 4 / 8 / 2 / 4 / 2 % 16,
    }
}

fn put_overflow_turn(out: &mut [u8], at: usize, v: u32, w: u32, k: usize) -> usize
    requires { (at ≤ 600000) × (k < 7) }
    ensures wrote { Wrote out.old at (overflow_turn v w k) out.new result }
    ensures bounded { result ≤ at + 100 }
{
    let x = overflow_field(v, k);
    let y = overflow_field(w, k);
    if x == y {
        return at;
    }
    let a = put_overflow(out, at, 1, k, x);
    put_overflow(out, a, 2, k, y)
}

fn put_overflows(out: &mut [u8], v: u32, w: u32) -> usize
    ensures wrote { Wrote out.old 0 (upto (overflow_turn v w) 7) out.new result }
    ensures bounded { result ≤ 700 }
{
    let mut e: usize = 0;
    for k in 0..7 {
        e = put_overflow_turn(out, e, v, w, k);
    }
    e
}

// ---- the values

fn put_value_turn(out: &mut [u8], at: usize, p: usize, x: u16, y: u16) -> usize
    requires { at ≤ 600000 }
    ensures wrote { Wrote out.old at (value_turn p x y) out.new result }
    ensures bounded { result ≤ at + 140 }
{
    if x == y {
        return at;
    }
    let a = put_value(out, at, 1, p, x);
    put_value(out, a, 2, p, y)
}

fn put_values(out: &mut [u8], at: usize, row: &[u16], row2: &[u16]) -> usize
    requires { (at ≤ 1000) × (length row.now ≤ 16) × (length row2.now ≡ length row.now) }
    ensures wrote { Wrote out.old at
        (upto (λ p. value_turn p (nth row.now p) (nth row2.now p)) (length row.now)) out.new result }
    ensures bounded { result ≤ at + 2240 }
{
    let n = row.len();
    let mut e = at;
    for p in 0..n {
        e = put_value_turn(out, e, p, row[p], row2[p]);
    }
    e
}

// ---- the User fields, by their numbers

fn code_of(codes: &[u64; 72], i: usize) -> u64
    ensures { result ≡ code_in72 codes.now i }
{
    codes.get(i).copied().unwrap_or(0)
}

// The line of a frame's i-th field, if it has one.
fn put_user_if(out: &mut [u8], at: usize, side: u8, i: usize, code: Option<u64>) -> usize
    requires { (at ≤ 500000) × (side < 10) × (i < 1000) }
    ensures wrote { Wrote out.old at (code_part side i code) out.new result }
    ensures bounded { result ≤ at + 150 }
{
    match code {
        Some(code) => put_user(out, at, side, i, code),
        None => at,
    }
}

fn put_user_turn(out: &mut [u8], at: usize, i: usize, one: &Codes, two: &Codes) -> usize
    requires { (at ≤ 400000) × (i < 1000) }
    ensures wrote { Wrote out.old at
        (code_turn i one.now.count (code_at one.now.codes1 one.now.codes2 one.now.first i)
        two.now.count (code_at two.now.codes1 two.now.codes2 two.now.first i)) out.new result }
    ensures bounded { result ≤ at + 300 }
{
    let x = one.get(i);
    let y = two.get(i);
    if x == y {
        return at;
    }
    let a = put_user_if(out, at, 1, i, x);
    put_user_if(out, a, 2, i, y)
}

#[tactic(auto, unfolding(compared::specs::Differences::longer))]
fn longer_of(m: usize, n: usize) -> usize
    ensures { result ≡ longer m n }
{
    m.max(n)
}

// Of all of them.
fn put_users(out: &mut [u8], at: usize, one: &Codes, two: &Codes) -> usize
    requires { (at ≤ 140000) × (one.now.count ≤ 144) × (two.now.count ≤ 144) }
    ensures { Wrote out.old at
        (code_turns (code_at one.now.codes1 one.now.codes2 one.now.first) one.now.count
        (code_at two.now.codes1 two.now.codes2 two.now.first) two.now.count) out.new result }
{
    let mut e = at;
    let all = longer_of(one.count, two.count);
    for i in 0..all {
        e = put_user_turn(out, e, i, one, two);
    }
    e
}

// ---- frames that read the same

// The first of n User fields of a channel whose bits differ in two frames; n where none does.
fn first_changed(bw: u32, s: &[u8], t: &[u8], n: usize) -> usize
    requires { n ≤ 72 }
    ensures { result ≡ first_changed bw s.now t.now n }
{
    for i in 0..n {
        let at = channel::user_bit(bw, i);
        if bits::field_at(s, at, 22) != bits::field_at(t, at, 22) {
            return i;
        }
    }
    n
}

// ---- two frames

impl Pair<'_> {
    // Whether both frames read the same.
    fn is_equal(&self) -> bool
        ensures { result ≡ all_same self.now.one.bandwidth
            (overflow self.now.one.cc1.now) (overflow self.now.two.cc1.now) self.now.one.row.now self.now.two.row.now
            self.now.one.cc1.now self.now.one.cc2.now self.now.one.fields1 self.now.one.fields2
            self.now.two.cc1.now self.now.two.cc2.now }
    {
        let one = &self.one;
        let two = &self.two;
        if one.overflow() != two.overflow() {
            return false;
        }
        if one.row != two.row {
            return false;
        }
        if first_changed(one.bandwidth, one.cc1, two.cc1, one.fields1) < one.fields1 {
            return false;
        }
        first_changed(one.bandwidth, one.cc2, two.cc2, one.fields2) >= one.fields2
    }

    // All but the User fields.
    fn put_common(&self, out: &mut [u8]) -> usize
        ensures wrote { Wrote out.old 0
            (common_text (overflow self.now.one.cc1.now) (overflow self.now.two.cc1.now) self.now.one.row.now self.now.two.row.now)
            out.new result }
        ensures bounded { result ≤ 140000 }
    {
        let one = &self.one;
        let two = &self.two;
        let a = put_overflows(out, one.overflow(), two.overflow());
        let b = put_values(out, a, one.row, two.row);
        let c = only_in::put_only(out, b, 1, one.row, one.kinds, two.row, two.kinds);
        only_in::put_only(out, c, 2, two.row, two.kinds, one.row, one.kinds)
    }

    fn put_fields(&self, out: &mut [u8], at: usize) -> usize
        requires { at ≤ 140000 }
        ensures { Wrote out.old at
            (fields_text self.now.one.bandwidth
            self.now.one.cc1.now self.now.one.cc2.now self.now.one.row.now self.now.one.fields1 self.now.one.fields2
            self.now.two.cc1.now self.now.two.cc2.now self.now.two.row.now self.now.two.fields1 self.now.two.fields2)
            out.new result }
    {
        put_users(out, at, &self.one.codes(), &self.two.codes())
    }

    // Of frames that read the same, which most do, no owner is looked for.
    fn put_differences(&self, out: &mut [u8]) -> usize
        ensures { Wrote out.old 0
            (comparison_text self.now.one.bandwidth self.now.one.cc1.now self.now.one.cc2.now
            self.now.two.bandwidth self.now.two.cc1.now self.now.two.cc2.now) out.new result }
    {
        if self.is_equal() {
            return 0;
        }
        let at = self.put_common(out);
        self.put_fields(out, at)
    }
}

fn put_bandwidths(out: &mut [u8], bw: u32, bw2: u32) -> usize
    ensures { Wrote out.old 0 (bandwidth_text bw bw2) out.new result }
{
    let a = put_bandwidth(out, 0, 1, bw);
    put_bandwidth(out, a, 2, bw2)
}

// The first frame is refused with x, and the second has this outcome.
fn put_refusals(out: &mut [u8], x: Answer, second: Result<(), Refusal>) -> usize
    ensures { Wrote out.old 0 (refusals_text x second) out.new result }
{
    let a = put_refused(out, 0, 1, x.number, x.channel, x.place);
    if let Err(y) = second {
        let y = Answer::from(y);
        return put_refused(out, a, 2, y.number, y.channel, y.place);
    }
    a
}

// The whole text: stored where the buffer reaches; how many bytes it is. Two frames are six parameters here and in `compare`, which are public.
pub fn put_comparison(
    out: &mut [u8],
    bw: u32,
    a: &[u8],
    b: &[u8],
    bw2: u32,
    c: &[u8],
    d: &[u8],
) -> usize
    ensures { Wrote out.old 0
        (comparison_text bw a.now b.now bw2 c.now d.now) out.new result }
{
    let x = both_halves::plan_accepted(bw, a, b);
    let y = both_halves::plan_accepted(bw2, c, d);
    let first = x.outcome;
    let second = y.outcome;
    if let Err(r) = first {
        return put_refusals(out, r.into(), second);
    }
    if let Err(r) = second {
        let r = Answer::from(r);
        return put_refused(out, 0, 2, r.number, r.channel, r.place);
    }
    if bw != bw2 {
        return put_bandwidths(out, bw, bw2);
    }
    let one = Accepted::new(bw, a, b, &x);
    let two = Accepted::new(bw2, c, d, &y);
    Pair { one, two }.put_differences(out)
}

// The bytes that always suffice.
fn longest() -> usize
    ensures { result ≡ compare_size }
{
    29466
}

// Compares two frames: 23 where the text has more bytes than are lent, and then nothing is written.
pub fn compare(
    bandwidth1: u32,
    cc1: &[u8],
    cc2: &[u8],
    bandwidth2: u32,
    other1: &[u8],
    other2: &[u8],
    out: &mut [u8],
) -> Answer
    ensures value { result ≡ compare_answer bandwidth1 cc1.now cc2.now bandwidth2 other1.now other2.now
        (length out.old) }
    ensures out_after { out.new
        ≡ compare_after bandwidth1 cc1.now cc2.now bandwidth2 other1.now other2.now out.old }
{
    if longest() <= out.len() {
        let place = put_comparison(out, bandwidth1, cc1, cc2, bandwidth2, other1, other2);
        return Answer::accepted(place);
    }
    let need = put_comparison(
        &mut out[..0],
        bandwidth1,
        cc1,
        cc2,
        bandwidth2,
        other1,
        other2,
    );
    if out.len() < need {
        return Refusal::BufferTooShort { needed: need }.into();
    }
    let place = put_comparison(out, bandwidth1, cc1, cc2, bandwidth2, other1, other2);
    Answer::accepted(place)
}
