// Entries of a Trigger frame: the EHT variant User Info, five bytes, read into a record of eight numbers and written back (02, T-02).
#![tactic(auto)]

ghost use Rattle.std.specs.Prelude.{◌≡◌, true, [], ◌∷◌, ◌+◌, ◌*◌, ◌/◌, ◌≤◌, ◌<◌, min, length};
ghost use Rattle.answer.specs.Answer.{◌or◌, answer_at, after, passes};
ghost use Rattle.answer.specs.Lists.{at, filled};
ghost use Rattle.bits.specs.Bits.{field};
ghost use Rattle.bits.specs.Pack.{pack};
ghost use Rattle.word_bytes.specs.Bytes.{byte_at};
ghost use Rattle.trigger_values.specs.UserInfo.{info_widths, entry_of};
ghost use Rattle.trigger_values.specs.Engine.{nth_of, value_for};
ghost use Rattle.trigger.specs.Reading.{above2, not_five, info_outcome, no_record_room, numbers_of, entry_answer, record_read};
ghost use Rattle.record_refusals.specs.Engine.{value_named, fit, numbers_outcome};
ghost use Rattle.trigger.specs.Engine.{info_with};
ghost use Rattle.trigger.specs.Writing.{record_answer, entry_written};

use answer::{Answer, Refusal};
use resource::Resource;
use trigger_values::{is_taken, part_of, resource_of};

// The 40 bits of the entry at byte 5 i, of two windows of 32 that lie in its five bytes: 15 from its first byte, 25 from its second.
pub fn info_at(entries: &[u8], i: usize) -> u64
    requires { i ≤ 32 }
    ensures { result ≡ field entries.now (40 * i) 40 }
{
    let low = bits::field_at(entries, 40 * i, 15);
    let high = bits::field_at(entries, 40 * i + 15, 25);
    u64::from(low) + 32768 * u64::from(high)
}

// ---- reading

// 24, 16 and 17 of an entry's 40 bits.
#[tactic(auto, unfolding(crate::specs::Reading::info_outcome, crate::specs::Reading::is2007, crate::specs::Reading::bit_set, crate::specs::Reading::not_taken))]
pub fn judge(bandwidth: u32, x: u64) -> Result<(), Refusal>
    ensures { result ≡ info_outcome bandwidth x }
{
    answer::refuse_if(part_of(x, 0) == 2007, Refusal::OtherLayout { entry: 0 })?;
    let reserved = (part_of(x, 8) != 0) | (part_of(x, 1) != 0);
    answer::refuse_if(reserved, Refusal::ReservedBitSet { entry: 0 })?;
    let named = is_taken(bandwidth, part_of(x, 2));
    answer::refuse_if(!named, Refusal::NotNamed { entry: 0 })
}

// Whether an entry's 40 bits pass 24, 16 and 17: for a list, whose entries mostly do.
pub fn is_read(bandwidth: u32, x: u64) -> bool
    ensures { result ≡ passes (info_outcome bandwidth x) }
{
    (part_of(x, 0) != 2007)
        & ((part_of(x, 8) == 0) & (part_of(x, 1) == 0))
        & is_taken(bandwidth, part_of(x, 2))
}

// All refusals of a read, in their order: n bytes with the 40 bits x, into a record of room bytes.
#[tactic(auto, unfolding(crate::specs::Reading::above2, crate::specs::Reading::not_five, crate::specs::Reading::no_record_room))]
fn judge_read(bandwidth: u32, n: usize, x: u64, room: usize) -> Result<(), Refusal>
    ensures { result ≡ (above2 bandwidth or not_five n) or info_outcome bandwidth x or no_record_room room }
{
    answer::refuse_if(2 < bandwidth, Refusal::UnknownBandwidth)?;
    answer::refuse_if(n != 5, Refusal::NotWholeEntries)?;
    judge(bandwidth, x)?;
    answer::refuse_if(room < 32, Refusal::BufferTooShort { needed: 32 })
}

// The eight numbers of an entry that is accepted, as bytes.
fn put_record(out: &mut [u8], x: u64)
    requires { 32 ≤ length out.old }
    ensures { out.new ≡ filled (byte_at (numbers_of x)) 32 out.old }
{
    let r = resource_of(part_of(x, 2));
    let numbers = [
        u32::from(part_of(x, 0)),
        resource::subcarriers_of(r),
        u32::from(resource::number_of(r)),
        u32::from(part_of(x, 3)),
        u32::from(part_of(x, 4)),
        u32::from(part_of(x, 5)),
        u32::from(part_of(x, 6)),
        u32::from(part_of(x, 7)),
    ];
    word_bytes::put_bytes(out, &numbers, 8);
}

// An entry read into a record.
pub fn read(bandwidth: u32, entry: &[u8], out: &mut [u8]) -> Answer
    ensures value { result ≡ entry_answer bandwidth entry.now (length out.old) }
    ensures out_after { out.new ≡ record_read bandwidth entry.now out.old }
{
    let x = info_at(entry, 0);
    let judged = judge_read(bandwidth, entry.len(), x, out.len());
    if let Err(refusal) = judged {
        return refusal.into();
    }
    put_record(out, x);
    Answer::accepted(32)
}

// ---- writing

// The value of the i-th of a kind that has n, the first of them being first; 128 where there is no i-th.
fn nth_of(i: u32, n: u32, first: u16) -> u16
    requires { (n ≤ 37) × (first ≤ 90) }
    ensures { result ≡ nth_of i n first }
{
    if (1 <= i) & (i <= n) {
        return first + i as u16 - 1;
    }
    128
}

// The value that could name a resource of this size with index i.
#[tactic(auto, unfolding(trigger_values::specs::Engine::value_for))]
fn value_for(size: u32, i: u32) -> u16
    ensures { result ≡ value_for size i }
{
    match size {
        26 => nth_of(i, 37, 0),
        52 => nth_of(i, 16, 37),
        106 => nth_of(i, 8, 53),
        242 => nth_of(i, 4, 61),
        484 => nth_of(i, 2, 65),
        996 => nth_of(i, 1, 67),
        132 => nth_of(i, 8, 82),
        726 => nth_of(i, 4, 90),
        _ => 128,
    }
}

// 40 bits of their fields, B0 and PS160 being 0.
fn packed(a: u64, v: u64, c: u64, m: u64, r: u64, s: u64, p: u64) -> u64
    requires { (a < 4096) × (v < 128) × (c < 2) × (m < 16) × (r < 2) × (s < 64) × (p < 128) }
    ensures { result ≡ pack info_widths (a ∷ 0 ∷ v ∷ c ∷ m ∷ r ∷ s ∷ p ∷ 0 ∷ []) }
{
    a + 8192 * (v + 128 * (c + 2 * (m + 16 * (r + 2 * (s + 64 * p)))))
}

// The 40 bits of a record's numbers, its value being v.
fn info_with(numbers: &[u32], v: u16) -> u64
    requires { (length numbers.now ≡ 8) × (v ≡ value_named numbers.now) × (v < 128) × (fit numbers.now ≡ true) }
    ensures { result ≡ info_with numbers.now }
{
    packed(
        u64::from(numbers[0]),
        u64::from(v),
        u64::from(numbers[3]),
        u64::from(numbers[4]),
        u64::from(numbers[5]),
        u64::from(numbers[6]),
        u64::from(numbers[7]),
    )
}

// 40 bits as bytes, one by one: `copy_from_slice` of a few bytes tests as it runs whether they overlap, which in a trial of words took 1.24 of
// the time of the stores.
fn put_entry(entry: &mut [u8], x: u64)
    requires { 5 ≤ length entry.old }
    ensures { entry.new ≡ filled (at (entry_of x)) 5 entry.old }
{
    entry[0] = (x % 256) as u8;
    entry[1] = (x / 256 % 256) as u8;
    entry[2] = (x / 65536 % 256) as u8;
    entry[3] = (x / 16777216 % 256) as u8;
    entry[4] = (x / 4294967296 % 256) as u8;
}

// The writing, of a record of n bytes by its numbers.
fn write_numbers(bandwidth: u32, n: usize, numbers: &[u32], entry: &mut [u8]) -> Answer
    requires { length numbers.now ≡ 8 }
    ensures value { result ≡ answer_at (numbers_outcome bandwidth n numbers.now (length entry.old)) 5 }
    ensures entry_after { entry.new
        ≡ after (numbers_outcome bandwidth n numbers.now (length entry.old))
        (filled (at (entry_of (info_with numbers.now))) 5 entry.old) entry.old }
{
    let v = value_for(numbers[1], numbers[2]);
    let judged = record_refusals::judge_write(bandwidth, n, numbers, v, entry.len());
    if let Err(refusal) = judged {
        return refusal.into();
    }
    put_entry(entry, info_with(numbers, v));
    Answer::accepted(5)
}

// How many of a record's eight numbers its bytes have.
fn eight_at_most(bytes: usize) -> usize
    ensures { (result ≤ 8) × (4 * result ≤ bytes) × (result ≡ min (bytes / 4) 8) }
{
    (bytes / 4).min(8)
}

// A record written as an entry. Of one that has not eight numbers those that it has are taken: its first may be 2007.
pub fn write(bandwidth: u32, given: &[u8], entry: &mut [u8]) -> Answer
    ensures value { result ≡ record_answer bandwidth given.now (length entry.old) }
    ensures entry_after { entry.new ≡ entry_written bandwidth given.now entry.old }
{
    let mut numbers = [0u32; 8];
    let n = eight_at_most(given.len());
    word_bytes::get_words(&mut numbers, given, n);
    write_numbers(bandwidth, given.len(), &numbers, entry)
}
