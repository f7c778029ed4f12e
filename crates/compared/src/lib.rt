// No code: what the differences of two frames are (02, T-06), as a list and as text.
#![tactic(auto)]
