// What is lent and answered as numbers in a row, for callers in other languages: a
// nest, a move and what it did.
#![tactic(auto)]

mod moves;
mod nests;

pub use crate::moves::{COMPUTE, DELIVER, made_in, make_move_in, move_in, number_of};
pub use crate::nests::{NUMBERS, nest_in, numbers_of};
