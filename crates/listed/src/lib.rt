// No code: what the listing of a frame is, byte for byte, with what `list` answers and what the program writes (specs/), and what its
// lines say of the frame (proofs/). `listing_size` and `listing` rest on it.
#![tactic(auto)]
