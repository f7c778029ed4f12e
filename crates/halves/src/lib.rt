// No code but what the first half hands on: 01's table up to 11, in the two halves of a reading (specs/), and what passing them says
// (proofs/).
#![tactic(auto)]

use answer::Refusal;

// What the first half tells of a frame: the outcome of 1 to 8 and, where it passes, its row, 0 past it, and the row's plan.
#[derive(Clone, Copy)]
pub struct Planned {
    pub outcome: Result<(), Refusal>,
    pub row: [u16; 16],
    pub kinds: [u16; 16],
    pub shared: u32,
    pub fields1: usize,
    pub fields2: usize,
}
