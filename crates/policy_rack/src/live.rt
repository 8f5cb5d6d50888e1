// One use of a policy.

/// A generation: one use of a policy, from the result that brings it to its retirement.
#[derive(Clone, Copy, Debug, PartialEq, Eq)]
pub struct Live {
    /// The number of the generation, from 1.
    pub generation: u32,
    /// The place of its policy in the rack, from 0.
    pub place: usize,
}
