//! What a change of a VTOC's slots leaves as it was: the rules that they keep, the volume, and the index. Lemmas, without code.
#![tactic(auto)]
