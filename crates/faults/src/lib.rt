// No code: the answers 2 to 6, 9 and 10, each of one channel but 5 (specs/), and what passing them says (proofs/).
#![tactic(auto)]
