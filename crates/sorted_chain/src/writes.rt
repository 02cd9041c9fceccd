// What a plan is. A module can't hold `Plan` and `plan` both.

/// The writes of the blocks that hold a new list, in their safe order, and how many blocks the list takes.
#[derive(Drop)]
pub struct Plan<E> {
    /// How many blocks the chain is to have.
    pub blocks: u32,
    /// Each block with its place in the chain, from 0. The block at the place `blocks - 1` is the last.
    pub writes: Vec<(u32, Vec<E>)>,
}
