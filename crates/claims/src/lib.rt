// No code: what Brachymel claims is in specs/, in the user's order, and proved from the crates' contracts and theorems.
#![tactic(auto)]
