//! What a stop may leave of a disk, or of a layer above one: definitions and their lemmas, without code.
#![tactic(auto)]
