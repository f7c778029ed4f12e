// The pairs of entries of a Trigger frame that share a subcarrier (02, T-02): those whose masks meet (`masks`).
#![tactic(auto)]

ghost use Rattle.std.specs.Prelude.{◌≡◌, ◌++◌, ◌+◌, ◌*◌, ◌/◌, ◌≤◌, ◌<◌, ltb, length, take, drop};
ghost use Rattle.answer.specs.Answer.{no, refuse_if, ◌or◌, answer_at, after, passes};
ghost use Rattle.answer.specs.Lists.{at, filled};
ghost use Rattle.answer.specs.Tally.{tally};
ghost use Rattle.trigger.specs.Reading.{above2};
ghost use Rattle.masks.specs.Engine.{hit, pairs_to};
ghost use Rattle.overlaps.specs.Engine.{mask_at};
ghost use Rattle.overlaps.specs.Result.{not_whole, over32, entries_outcome, overlaps_answer, pairs_after};

use answer::{Answer, Refusal};

// The masks of the first n entries, and whether each entry is read. Nothing branches on an entry here: which is refused first is asked only
// where one is.
fn fill_masks(bandwidth: u32, entries: &[u8], n: usize, masks: &mut [u64; 32]) -> bool
    requires { (n ≤ 32) × (length masks.old ≡ 32) }
    ensures value { result ≡ passes (entries_outcome bandwidth entries.now n) }
    ensures masks_after { masks.new ≡ filled (mask_at entries.now) n masks.old }
{
    let mut read = true;
    for i in 0..n {
        let x = trigger::info_at(entries, i);
        read = read & trigger::is_read(bandwidth, x);
        masks[i] = masks::mask_of(trigger_values::part_of(x, 2));
    }
    read
}

// "the first refused entry's number with its place from 1" (02, T-02), of the first n.
fn first_refused(bandwidth: u32, entries: &[u8], n: usize) -> Answer
    requires { n ≤ 32 }
    ensures { result ≡ answer_at (entries_outcome bandwidth entries.now n) 0 }
{
    for i in 0..n {
        let x = trigger::info_at(entries, i);
        let judged = trigger::judge(bandwidth, x);
        if let Err(refused) = judged {
            return refused.of_entry(i + 1).into();
        }
    }
    Answer::accepted(0)
}

// The first n bytes found become the lent ones' front.
fn copy_front(pairs: &mut [u8], found: &[u8; 1024], n: usize)
    requires { (n ≤ length pairs.old) × (n ≤ 1024) × (length found.now ≡ 1024) }
    ensures { pairs.new ≡ take n found.now ++ drop n pairs.old }
{
    pairs[..n].copy_from_slice(&found[..n]);
}

// 26, or the pairs written. They are found in bytes of its own first, since a refusal writes nothing; 496 pairs, each two of 32, are the most.
fn report(masks: &[u64; 32], n: usize, pairs: &mut [u8]) -> Answer
    requires { n ≤ 32 }
    ensures value { result
        ≡ answer_at (refuse_if (ltb (length pairs.old / 2) (tally (hit (at masks.now) n) (32 * n))) Refusal.TooFewPairs)
        (tally (hit (at masks.now) n) (32 * n)) }
    ensures pairs_after { pairs.new ≡ after (refuse_if (ltb (length pairs.old / 2) (tally (hit (at masks.now) n) (32 * n))) Refusal.TooFewPairs)
        (pairs_to (at masks.now) n (32 * n) ++ drop (2 * tally (hit (at masks.now) n) (32 * n)) pairs.old)
        pairs.old }
{
    if masks::all_apart(masks, n) {
        return Answer::accepted(0);
    }
    let mut found = [0u8; 1024];
    let end = masks::find_pairs(&mut found, masks, n);
    if pairs.len() / 2 < end / 2 {
        return Refusal::TooFewPairs.into();
    }
    copy_front(pairs, &found, end);
    Answer::accepted(end / 2)
}

// ---- the whole

// 1, 15 and 25. A list that passes has no more entries than there are masks.
fn judge_length(bandwidth: u32, entries: &[u8]) -> Result<(), Refusal>
    ensures { result ≡ (above2 bandwidth or not_whole entries.now or over32 entries.now) }
{
    answer::refuse_if(2 < bandwidth, Refusal::UnknownBandwidth)?;
    answer::refuse_if(entries.len() % 5 != 0, Refusal::NotWholeEntries)?;
    answer::refuse_if(32 < entries.len() / 5, Refusal::TooManyEntries)
}

// "every pair that shares a subcarrier is reported once" (02, T-02), two bytes each.
pub fn overlaps(bandwidth: u32, entries: &[u8], pairs: &mut [u8]) -> Answer
    ensures value { result ≡ overlaps_answer bandwidth entries.now (length pairs.old) }
    ensures pairs_after { pairs.new ≡ pairs_after bandwidth entries.now pairs.old }
{
    let judged = judge_length(bandwidth, entries);
    if let Err(refused) = judged {
        return refused.into();
    }
    let n = entries.len() / 5;
    let mut masks = [0u64; 32];
    if !fill_masks(bandwidth, entries, n, &mut masks) {
        return first_refused(bandwidth, entries, n);
    }
    report(&masks, n, pairs)
}
