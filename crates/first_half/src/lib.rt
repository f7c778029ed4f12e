// The first half of a reading: 1 to 8, and the plan of a frame that passes them. Each check is run only where the earlier ones pass.
// What each says of a frame that passes is seen without a place: from the lengths, and from the common fields as numbers, each read once. A place is
// looked for only where there is one.
#![tactic(auto)]

ghost use Rattle.std.specs.Prelude.{◌≡◌, ◌≤◌, ◌<◌, length, take, replicate, Ok, Err};
ghost use Rattle.answer.specs.Answer.{no, ◌or◌};
ghost use Rattle.resource.specs.Values.{carried};
ghost use Rattle.plan.specs.Engine.{Tells, over_in, plan_outcome};
ghost use Rattle.channel.specs.Layout.{row_in16};
ghost use Rattle.channel.specs.Engine.{parts_of};
ghost use Rattle.halves.specs.Table.{check1, check2, check3, check4, check5, check6};
ghost use Rattle.halves.specs.Engine.{AtMost512, Whole, outcome3, outcome5, all_carried, no_plan, planned_of, Plans};

use answer::Refusal;
use channel::Parts;
use halves::Planned;
use plan::Rest;

fn first_checks(bw: u32, a: &[u8], b: &[u8]) -> Result<(), Refusal>
    ensures { result ≡ (check1 bw or check2 bw a.now b.now) }
{
    answer::refuse_if(4 < bw, Refusal::UnknownBandwidth)?;
    lengths::too_long(bw, 1, a)?;
    lengths::too_long(bw, 2, b)
}

fn cut_common(bw: u32, a: &[u8], b: &[u8]) -> Result<(), Refusal>
    requires { AtMost512 a.now b.now }
    ensures { result ≡ check3 bw a.now b.now }
{
    lengths::cut_common(bw, 1, a)?;
    lengths::cut_common(bw, 2, b)
}

// 1 to 3.
fn first_three(bw: u32, a: &[u8], b: &[u8]) -> Result<(), Refusal>
    ensures { result ≡ outcome3 bw a.now b.now }
{
    if lengths::is_lent(bw, a, b) {
        return Ok(());
    }
    first_checks(bw, a, b)?;
    cut_common(bw, a, b)
}

// 4, of a frame whose common fields are these.
fn wrong_common(bw: u32, a: &[u8], b: &[u8], parts: Parts) -> Result<(), Refusal>
    requires { (bw ≤ 4) × (parts ≡ parts_of bw a.now b.now) }
    ensures { result ≡ check4 bw a.now b.now }
{
    wrong_blocks::wrong_parts(bw, parts)
}

fn wrong_overflow(bw: u32, a: &[u8], b: &[u8], parts: Parts) -> Result<(), Refusal>
    requires { parts ≡ parts_of bw a.now b.now }
    ensures { result ≡ check5 bw a.now b.now }
{
    common_field::overflow_differs(bw, parts)
}

// Whether a value is carried, as a sum of comparisons: eight values are tested at once.
#[tactic(auto, unfolding(resource::specs::Values::carried))]
fn is_listed(v: u16) -> bool
    ensures { result ≡ carried v }
{
    (v <= 30) | (v == 48) | (v == 50) | ((64 <= v) & (v <= 303))
}

// Whether every value of the sixteen is carried; 0, which stands past the row, is. It looks at all of them, so that the loop has one way out.
fn all_carried(row: &[u16; 16]) -> bool
    requires { length row.now ≡ 16 }
    ensures { result ≡ all_carried row.now }
{
    let mut all = true;
    for p in 0..16 {
        all &= is_listed(row[p]);
    }
    all
}

// 6, of a frame that has this row.
fn not_carried(bw: u32, a: &[u8], b: &[u8], row: &[u16; 16]) -> Result<(), Refusal>
    requires { (bw ≤ 4) × (row.now ≡ row_in16 bw a.now b.now) }
    ensures { result ≡ check6 bw a.now b.now }
{
    if all_carried(row) {
        return Ok(());
    }
    common_field::not_carried(bw, 1, a)?;
    common_field::not_carried(bw, 2, b)
}

// 4 and 5, of a frame that passes 1 to 3; and its row.
fn next_two(row: &mut [u16; 16], bw: u32, a: &[u8], b: &[u8]) -> Result<(), Refusal>
    requires { Whole bw a.now b.now × (row.old ≡ replicate 16 0) }
    ensures value { result ≡ (check4 bw a.now b.now or check5 bw a.now b.now) }
    ensures row_after { result ≡ Ok tt → row.new ≡ row_in16 bw a.now b.now }
{
    let parts = channel::parts_of(bw, a, b);
    wrong_common(bw, a, b, parts)?;
    wrong_overflow(bw, a, b, parts)?;
    channel::put_row(row, bw, parts);
    Ok(())
}

// 1 to 5, and the row of a frame that passes them.
fn first_five(row: &mut [u16; 16], bw: u32, a: &[u8], b: &[u8]) -> Result<(), Refusal>
    requires { row.old ≡ replicate 16 0 }
    ensures value { result ≡ outcome5 bw a.now b.now }
    ensures row_after { result ≡ Ok tt → row.new ≡ row_in16 bw a.now b.now }
{
    first_three(bw, a, b)?;
    next_two(row, bw, a, b)
}

// A refusal, with no plan.
fn stopped(outcome: Result<(), Refusal>) -> Rest
    ensures { result.outcome ≡ outcome }
{
    Rest {
        outcome,
        shared: 0,
        fields1: 0,
        fields2: 0,
    }
}

// What the roles of the first n values tell; and what is sought of these.
fn tell_front(kinds: &mut [u16; 16], row: &[u16], n: usize) -> Rest
    requires { (n ≤ 16) × (n ≤ length row.now) × (kinds.old ≡ replicate 16 0) }
    ensures { (result.outcome ≡ Ok tt) × (result.shared < 65536 → Tells (take n row.now) result kinds.new)
        × (over_in result.shared < 4 → plan_outcome (take n row.now) ≡ Err (Refusal.OverEightFields (over_in result.shared))) }
{
    plan::tell(kinds, &row[..n])
}

fn seek_front(kinds: &mut [u16; 16], row: &[u16], n: usize) -> Rest
    requires { (n ≤ 16) × (n ≤ length row.now) }
    ensures { Tells (take n row.now) result kinds.new }
{
    plan::seek(kinds, &row[..n])
}

// 6 to 8 of a frame that passes 1 to 5, and its plan, where the roles of its values do not tell it.
fn seek_plan(kinds: &mut [u16; 16], bw: u32, a: &[u8], b: &[u8], row: &[u16; 16]) -> Rest
    requires { (outcome5 bw a.now b.now ≡ Ok tt) × (row.now ≡ row_in16 bw a.now b.now) }
    ensures { Plans bw a.now b.now result row.now kinds.new }
{
    let six = not_carried(bw, a, b, row);
    if let Err(_) = six {
        return stopped(six);
    }
    seek_front(kinds, row, channel::positions_of(bw))
}

// 1 to 8, the row, filled once, and its plan, made once. A value that has a role is carried, so that 6 is asked only where the roles tell neither
// the plan nor 8.
pub fn plan_row(row: &mut [u16; 16], kinds: &mut [u16; 16], bw: u32, a: &[u8], b: &[u8]) -> Rest
    requires { (row.old ≡ replicate 16 0) × (kinds.old ≡ replicate 16 0) }
    ensures { Plans bw a.now b.now result row.new kinds.new }
{
    let five = first_five(row, bw, a, b);
    if let Err(_) = five {
        return stopped(five);
    }
    let told = tell_front(kinds, row, channel::positions_of(bw));
    if told.shared < 65536 {
        return Rest {
            fields1: told.fields1,
            outcome: Ok(()),
            fields2: told.fields2,
            shared: told.shared,
        };
    }
    let s = plan::over_in(told.shared);
    if s < 4 {
        return stopped(Err(Refusal::OverEightFields { segment: s }));
    }
    seek_plan(kinds, bw, a, b, row)
}

fn refused(outcome: Result<(), Refusal>) -> Planned
    ensures { result ≡ no_plan outcome }
{
    Planned {
        outcome,
        row: [0u16; 16],
        kinds: [0u16; 16],
        shared: 0,
        fields1: 0,
        fields2: 0,
    }
}

// The same as a value.
pub fn plan_frame(bw: u32, a: &[u8], b: &[u8]) -> Planned
    ensures { result ≡ planned_of bw a.now b.now }
{
    let mut row = [0u16; 16];
    let mut kinds = [0u16; 16];
    let plan = plan_row(&mut row, &mut kinds, bw, a, b);
    let outcome = plan.outcome;
    if let Err(_) = outcome {
        return refused(outcome);
    }
    Planned {
        outcome,
        row,
        kinds,
        shared: plan.shared,
        fields1: plan.fields1,
        fields2: plan.fields2,
    }
}
