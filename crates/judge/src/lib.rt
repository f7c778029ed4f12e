// 13, asked of the words as they stand: whether channels that are accepted read to exactly these (01, "What comes back"). What 1 to 11 ask of channels
// that are built of words is in the words themselves: their counts, the plan of their row, the formats and the STA-IDs of their User words. Lengths and
// checks of what is built are right, and a row with a plan has no value that is not carried.
#![tactic(auto)]

ghost use Rattle.std.specs.Prelude.{◌≡◌, true, false, cond, ◌&&◌, ◌+◌, ◌%◌, ◌^◌, ◌≤◌, ◌<◌, eqb, ltb, leb, length, replicate, is_some, IfSome};
ghost use Rattle.answer.specs.Decides.{Decides};
ghost use Rattle.answer.specs.Every.{every};
ghost use Rattle.answer.specs.Lists.{at, Front};
ghost use Rattle.channel.specs.Layout.{positions};
ghost use Rattle.stations.specs.Engine.{any_repeated};
ghost use Rattle.words.specs.Engine.{value_of};
ghost use Rattle.frame_words.specs.Engine.{Formats};
ghost use Rattle.candidate.specs.Engine.{first_part_in, second_part_in, count_in, candidate};
ghost use Rattle.judge.specs.Engine.{reads_to, Overflow, first_from, three_from, Header, row_in, Checked, Begun};
ghost use Rattle.judge.specs.Engine.{formatted, format_in, Formatted, station_on};

// What words that are told have: the User fields of each channel, the overflow, and the parts of channel 1's common field.
#[derive(Clone, Copy)]
pub struct Told {
    pub fields1: usize,
    pub fields2: usize,
    pub overflow: u32,
    pub first: u64,
    pub second: u64,
}

// ---- the first ten words

// data[0] tells an overflow: nothing reserved, a GI and an LTF size that go together, at most four LTF symbols. Its check is asked for later.
fn is_overflow(x: u32) -> bool
    ensures { Decides result (Overflow x) }
{
    let pair = x / 128 % 16;
    (x % 8 == 0) & ((pair == 8) | (pair == 9) | (pair == 12) | (pair == 14)) & (x / 2048 % 8 <= 4)
}

// data[1] tells a value.
fn is_first(x: u32) -> bool
    ensures { Decides result (x ≡ first_from x) }
{
    (x / 4194304 == 1) & (x % 8192 == 0)
}

// Of data[2] to data[6] the one that begins with position p tells those of its values that a row of n has, and nothing else.
fn is_three(x: u32, p: usize, n: usize) -> bool
    requires { p < 16 }
    ensures { Decides result (x ≡ three_from p n x) }
{
    if n <= p {
        return x == 0;
    }
    if p + 2 < n {
        return (x / 512 % 2 == 1) & (x / 524288 % 2 == 1) & (x / 536870912 == 1);
    }
    if p + 1 < n {
        return (x / 512 % 2 == 1) & (x / 524288 == 1);
    }
    x / 512 == 1
}

// Known and the data words of n positions, but for the checks.
fn is_header(words: &[u32], bw: u32, n: usize) -> bool
    requires { 10 ≤ length words.now }
    ensures { Decides result (Header bw n words.now) }
{
    (words[0] == header_values::known_word(bw))
        & is_overflow(words[1])
        & is_first(words[2])
        & is_three(words[3], 1, n)
        & is_three(words[4], 4, n)
        & is_three(words[5], 7, n)
        & is_three(words[6], 10, n)
        & is_three(words[7], 13, n)
        & (words[9] == 0)
}

// The n values that they tell, three to a word after the first.
fn put_row(row: &mut [u16; 16], words: &[u32], n: usize)
    requires { (length row.old ≡ 16) × (n ≤ 16) × (10 ≤ length words.now) }
    ensures { (length row.new ≡ 16) × Front (value_of words.now) n row.new }
{
    row[0] = (words[2] / 8192 % 512) as u16;
    for k in 0..(n + 1) / 3 {
        let x = words[3 + k];
        row[3 * k + 1] = (x % 512) as u16;
        row[3 * k + 2] = (x / 1024 % 512) as u16;
        row[3 * k + 3] = (x / 1048576 % 512) as u16;
    }
}

// The row of words that have a header, but for the checks.
pub fn take_row(row: &mut [u16; 16], bw: u32, words: &[u32]) -> bool
    requires { (bw ≤ 4) × (length row.old ≡ 16) }
    ensures decides { Decides result ((10 ≤ length words.now) × Header bw (positions bw) words.now) }
    ensures row_after { (length row.new ≡ 16) × (result ≡ true → Front (value_of words.now) (positions bw) row.new) }
{
    let n = channel::positions_of(bw);
    if words.len() < 10 {
        return false;
    }
    if !is_header(words, bw, n) {
        return false;
    }
    put_row(row, words, n);
    true
}

// The checks are those of channel 1, of which these are the parts.
fn are_checked(bw: u32, words: &[u32], first: u64, second: u64) -> bool
    requires { (bw ≤ 4) × (10 ≤ length words.now) × (first ≡ first_part_in bw words.now 1) × (second ≡ second_part_in bw words.now 1) }
    ensures { Decides result (Checked bw words.now) }
{
    (u64::from(words[1] / 4194304) == first >> channel::first_bits(bw))
        & (u64::from(words[8]) == second >> channel::second_bits(bw))
}

// ---- the User words

// "known bits 0x3F, or 0x47 on a shared resource"
fn known_bits(shared: bool) -> u32
    ensures { result ≡ cond shared 0x47 0x3F }
{
    if shared { 0x47 } else { 0x3F }
}

// A word has these, and no bit past its fields.
fn is_known(x: u32, known: u32) -> bool
    ensures { result ≡ (eqb (x % 2 ^ 8) known && ltb x (2 ^ 30)) }
{
    (x % 256 == known) & (x < 1073741824)
}

// The m words from j on are of one format.
fn run_formatted(words: &[u32], j: usize, m: usize, shared: bool) -> bool
    requires { j + m ≤ length words.now }
    ensures { result ≡ every (λ i. formatted shared (at words.now (j + i))) m }
{
    let known = known_bits(shared);
    let mut all = true;
    for i in 0..m {
        all = all & is_known(words[j + i], known);
    }
    all
}

// The words of channel c's User fields, from `first` on, are of the formats of their positions' resources, which the bits of `shared` tell.
fn channel_formatted(words: &[u32], first: usize, bw: u32, c: u32, row: &[u16], shared: u32) -> bool
    requires { (bw ≤ 4) × (1 ≤ c) × (c ≤ 2) × (row.now ≡ row_in bw words.now) × Formats row.now shared
        × (first ≤ 82) × (first + count_in bw words.now c ≤ length words.now) }
    ensures { result
        ≡ every (λ j. formatted (format_in bw words.now c j) (at words.now (first + j))) (count_in bw words.now c) }
{
    let n = channel::subfields_of(bw, c);
    let mut all = true;
    let mut j: usize = 0;
    for k in 0..n {
        let p = 2 * k + (c as usize - 1);
        let m = resource::fields_of(row[p]) as usize;
        all = all & run_formatted(words, first + j, m, (shared >> p) % 2 == 1);
        j += m;
    }
    all
}

// Those of both channels: one run where no position's fields share their resource.
fn are_formatted(words: &[u32], bw: u32, row: &[u16], shared: u32, n: usize, m: usize) -> bool
    requires { (bw ≤ 4) × (row.now ≡ row_in bw words.now) × Formats row.now shared
        × (n ≡ count_in bw words.now 1) × (m ≡ count_in bw words.now 2) × (length words.now ≡ 10 + (n + m)) }
    ensures { Decides result (Formatted bw words.now) }
{
    if shared == 0 {
        return run_formatted(words, 10, n + m, false);
    }
    if !channel_formatted(words, 10, bw, 1, row, shared) {
        return false;
    }
    channel_formatted(words, 10 + n, bw, 2, row, shared)
}

// ---- whether a STA-ID stands again (01, 11): one answer gathered over all, of few by `stations`

// The STA-ID of the j-th User word.
fn station_on(words: &[u32], j: usize) -> usize
    requires { (j < 144) × (10 + j < length words.now) }
    ensures { (result < 2048) × (result ≡ station_on words.now j) }
{
    (words[10 + j] / 256 % 2048) as usize
}

// "a STA-ID from 1 to 2006"
fn is_once(id: usize) -> bool
    ensures { result ≡ ltb 0 id && leb id 2006 }
{
    (0 < id) & (id <= 2006)
}

// Of t User words any has a STA-ID that may not stand again and does: a mark for each STA-ID, a byte. The marks of `stations`, each a bit, took
// 1.03 to 1.30 of the time over 37 to 144 words, where both loops were timed in C.
fn any_marked(words: &[u32], t: usize) -> bool
    requires { (t ≤ 144) × (10 + t ≤ length words.now) }
    ensures { result ≡ any_repeated (station_on words.now) t }
{
    let mut marks = [false; 2048];
    let mut again = false;
    for j in 0..t {
        let id = station_on(words, j);
        again = again | marks[id];
        marks[id] = is_once(id);
    }
    again
}

fn any_again(words: &[u32], t: usize) -> bool
    requires { (t ≤ 144) × (10 + t ≤ length words.now) }
    ensures { result ≡ any_repeated (station_on words.now) t }
{
    if t <= 8 {
        return stations::any_of_few::<8>(&words[10..10 + t]); // no marks are cleared for few
    }
    any_marked(words, t)
}

// ---- all

// Of words whose header is right, but for the checks, and tells this row. What costs least is asked first.
pub fn judge(bw: u32, words: &[u32], row: &[u16]) -> Option<Told>
    requires { (bw ≤ 4) × (10 ≤ length words.now) × Header bw (positions bw) words.now × (row.now ≡ row_in bw words.now) }
    ensures told_value { is_some result ≡ reads_to bw (candidate bw words.now 1) (candidate bw words.now 2) words.now }
    ensures told_parts { IfSome result (λ told. (told.fields1 ≡ count_in bw words.now 1) × (told.fields2 ≡ count_in bw words.now 2)
        × Begun bw words.now told.overflow told.first told.second) }
{
    let overflow = words::overflow_of(words[1]);
    let first = candidate::first_part(bw, overflow, row, 1);
    let second = candidate::second_part(bw, row, 1);
    if !are_checked(bw, words, first, second) {
        return None;
    }
    let plan = plan::plan_of(row);
    let outcome = plan.outcome;
    if let Err(_) = outcome {
        return None;
    }
    let n = plan.fields1;
    let m = plan.fields2;
    if words.len() != 10 + (n + m) {
        return None;
    }
    if !are_formatted(words, bw, row, plan.shared, n, m) {
        return None;
    }
    if any_again(words, n + m) {
        return None;
    }
    Some(Told {
        fields1: n,
        fields2: m,
        overflow,
        first,
        second,
    })
}
