// The mapping of an accepted nest's iterations to processors (document 01: cards), and the counts
// of processors and of messages.
#![tactic(auto)]

mod block_groups;
mod counts;
mod dealing;
mod directions;
mod gray;
mod processors;

pub use crate::block_groups::BlockGroups;
pub use crate::counts::{message_count, processor_count};
pub use crate::processors::processors_into;
