//! Mic-3: the datapath of Mic-2 with latches on its operand buses and on its C bus. A statement issues in one cycle,
//! computes in the next and retires in the third.
#![tactic(auto)]

mod accesses;
mod hazards;
mod mic3;
mod pipeline;
mod slots;

pub use mic3::Mic3;
