//! The store of goals: the goal of each operation on an object, and the ports of the authorities.
#![tactic(auto)]

mod goals;

pub use goals::GoalStore;
