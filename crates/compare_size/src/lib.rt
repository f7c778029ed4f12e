// No code: how many bytes always suffice for the text of a comparison (02, T-06).
#![tactic(auto)]
