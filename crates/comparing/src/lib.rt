// What the program writes for the text of two captures (02, T-06).
#![tactic(auto)]

ghost use Rattle.std.specs.Prelude.{◌≤◌};
ghost use Rattle.text.specs.Text.{Wrote};
ghost use Rattle.captures.specs.Engine.{first_bytes, second_bytes};
ghost use Rattle.compared.specs.Text.{comparison_text};
ghost use Rattle.compared.specs.Program.{compared_text};

use captures::Capture;

// The comparison of the frames whose captures stand in the text. No channel has more bytes than the text has pairs of hex digits.
fn put_captures(out: &mut [u8], text: &[u8], c: Capture, d: Capture) -> usize
    requires first_bound { (c.at ≤ 16384) × (c.first ≤ 8192) × (c.second ≤ 8192) }
    requires second_bound { (d.at ≤ 16384) × (d.first ≤ 8192) × (d.second ≤ 8192) }
    ensures { Wrote out.old 0
        (comparison_text c.bw (first_bytes text.now c) (second_bytes text.now c)
        d.bw (first_bytes text.now d) (second_bytes text.now d)) out.new result }
{
    let mut cc1 = [0u8; 8192];
    let mut cc2 = [0u8; 8192];
    let mut other1 = [0u8; 8192];
    let mut other2 = [0u8; 8192];
    captures::unhex_both(text, c, &mut cc1, &mut cc2);
    captures::unhex_both(text, d, &mut other1, &mut other2);
    compare::put_comparison(
        out,
        c.bw,
        &cc1[..c.first],
        &cc2[..c.second],
        d.bw,
        &other1[..d.first],
        &other2[..d.second],
    )
}

// Stored where the buffer reaches; how many bytes it is.
#[tactic(auto, unfolding(compared::specs::Program::compared_text, captures::specs::Worked::said_two))]
pub fn respond(text: &[u8], out: &mut [u8]) -> usize
    ensures { Wrote out.old 0 (compared_text text.now) out.new result }
{
    let parsed = captures::parse(text);
    match parsed {
        Err(wrong) => lines::put_refusal(out, 22, 0, wrong.line),
        #[tactic(auto, using(captures::proofs::Found::fits_first, captures::proofs::Found::fits_second))]
        Ok((c, d)) => put_captures(out, text, c, d),
    }
}
