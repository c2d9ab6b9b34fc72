// The words of the calls: why one is refused, a vector, a block, a plane of samples.
#![tactic(auto)]

pub mod block;
pub mod plane;
pub mod refusal;
