//! Worked rows: small shelves, computed by the definitions of `vol_model`. The lemmas in `proofs/` are all that it holds.
#![tactic(auto)]
