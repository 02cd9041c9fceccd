//! Additions for which memory was taken before.
ghost use Rattle.std.specs.Prelude.{◌≡◌, ◌+◌, ◌<◌, ◌≤◌, ◌∷◌, ◌++◌, [], length, if◌then◌else◌, vec_len, vec_capacity};

use super::step::{Call, Step};

// Adds the bytes, and gives the place of the first of them.
pub(super) fn append(pool: &mut Vec<u8>, bytes: &[u8]) -> usize
    requires { vec_len pool.old + length bytes.now ≤ vec_capacity pool.old }
    ensures added { pool.new.items ≡ pool.old.items ++ bytes.now }
    ensures start { result ≡ length pool.old.items }
    ensures capacity { vec_capacity pool.old ≤ vec_capacity pool.new }
{
    let start = pool.len();
    pool.extend_from_slice(bytes).unwrap();
    start
}

// Adds a call, and what it did.
pub(super) fn note(calls: &mut Vec<Call>, steps: &mut Vec<Step>, call: Call, step: Step)
    requires calls_room { vec_len calls.old < vec_capacity calls.old }
    requires steps_room { vec_len steps.old < vec_capacity steps.old }
    ensures calls { calls.new.items ≡ calls.old.items ++ call ∷ [] }
    ensures steps { steps.new.items ≡ steps.old.items ++ step ∷ [] }
    ensures calls_capacity { vec_capacity calls.old ≤ vec_capacity calls.new }
    ensures steps_capacity { vec_capacity steps.old ≤ vec_capacity steps.new }
{
    calls.push(call).unwrap();
    steps.push(step).unwrap();
}

// The step of a sync, or of a call that did nothing that stays.
pub(super) fn plain_step(is_sync: bool) -> Step
    ensures { result ≡ (if is_sync then Step.Sync else Step.Pass) }
{
    if is_sync { Step::Sync } else { Step::Pass }
}
