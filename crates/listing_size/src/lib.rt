// No code: how many bytes the longest listing of each bandwidth has (specs/), which is the program's buffer and the header's constant, and
// that a frame has it (proofs/). `listing` rests on it.
#![tactic(auto)]
