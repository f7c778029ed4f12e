// No code: 01's bench checks, and T-07's, as one list under one claim.
#![tactic(auto)]
