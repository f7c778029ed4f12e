// What the program `ehtsig` writes for its text (01, "Listing"): the listing of a frame, or a refusal.
#![tactic(auto)]

ghost use Rattle.std.specs.Prelude.{◌≡◌, ◌≤◌};
ghost use Rattle.text.specs.Text.{Wrote};
ghost use Rattle.both_halves.specs.Engine.{Handed};
ghost use Rattle.input.specs.Engine.{bytes_at, second_at};
ghost use Rattle.listed.specs.Listing.{frame_text, program_text};

use answer::Answer;
use lines::put_refusal;
use listing_lines::put_listing;

// The listing of a frame that passes 1 to 8 and has m and k User fields, or its refusal.
fn put_planned(
    out: &mut [u8],
    bw: u32,
    a: &[u8],
    b: &[u8],
    row: &[u16],
    kinds: &[u16; 16],
    m: usize,
    k: usize,
) -> usize
    requires { Handed bw a.now b.now row.now kinds.now m k }
    ensures { Wrote out.old 0 (frame_text bw a.now b.now) out.new result }
{
    let mut fields = [0u32; 144];
    let seen = second_half::check_users(&mut fields, bw, a, b, m, k);
    if let Err(y) = seen {
        let y = Answer::from(y);
        return put_refusal(out, y.number, y.channel, y.place);
    }
    put_listing(out, bw, &fields, row, kinds, m, k)
}

// The listing of a frame, or its refusal.
fn put_outcome(out: &mut [u8], bw: u32, a: &[u8], b: &[u8]) -> usize
    ensures { Wrote out.old 0 (frame_text bw a.now b.now) out.new result }
{
    let mut row = [0u16; 16];
    let mut kinds = [0u16; 16];
    let plan = first_half::plan_row(&mut row, &mut kinds, bw, a, b);
    let planned = plan.outcome;
    if let Err(x) = planned {
        let x = Answer::from(x);
        return put_refusal(out, x.number, x.channel, x.place);
    }
    let n = channel::positions_of(bw);
    put_planned(out, bw, a, b, &row[..n], &kinds, plan.fields1, plan.fields2)
}

// The same of the three lines of a text, with n and m pairs of hex digits.
fn put_lines(out: &mut [u8], text: &[u8], bw: u32, n: usize, m: usize) -> usize
    requires { (n ≤ 4096) × (m ≤ 4096) }
    ensures { Wrote out.old 0
        (frame_text bw (bytes_at text.now 9 n) (bytes_at text.now (second_at n) m)) out.new result }
{
    let mut cc1 = [0u8; 4096];
    let mut cc2 = [0u8; 4096];
    input::unhex(text, 9, n, &mut cc1);
    input::unhex(text, 14 + 2 * n, m, &mut cc2);
    put_outcome(out, bw, &cc1[..n], &cc2[..m])
}

// What the program writes for a text: stored where the buffer reaches; how many bytes it is.
#[tactic(auto, using(input::proofs::Worked::few_said), unfolding(listed::specs::Listing::program_text))]
pub fn respond(text: &[u8], out: &mut [u8]) -> usize
    ensures { Wrote out.old 0 (program_text text.now) out.new result }
{
    let parsed = input::parse(text);
    match parsed {
        Err(wrong) => put_refusal(out, 22, 0, wrong.line),
        Ok(lines) => put_lines(out, text, lines.bw, lines.first, lines.second),
    }
}
