// What can be refused of a text of words, as bytes, before the words are looked at.
#![tactic(auto)]

ghost use Rattle.std.specs.Prelude.{◌≡◌};
ghost use Rattle.whole_words.specs.Engine.{early};

use answer::Refusal;

// 1, and the 13 of a text that is not whole words or has more than any frame.
#[tactic(auto, unfolding(crate::specs::Engine::early))]
pub fn refused_early(bandwidth: u32, bytes: usize, n: usize) -> Result<(), Refusal>
    ensures { result ≡ early bandwidth bytes n }
{
    answer::refuse_if(4 < bandwidth, Refusal::UnknownBandwidth)?;
    answer::refuse_if(bytes % 4 != 0, Refusal::NoFrameReads)?;
    answer::refuse_if(154 < n, Refusal::NoFrameReads)
}
