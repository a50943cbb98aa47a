// Strategies: what one is, and which rule a row of legs breaks.

#![tactic(auto)]

mod leg;
mod legs;
mod limits;
mod row;
mod strategies;
mod strategy;
mod worked;

pub use leg::Leg;
pub use limits::{FEWEST_LEGS, HIGHEST_RATIO, LEG_PLACES, MOST_LEGS, RATIO_SPREAD};
pub use row::StrategyRow;
pub use strategy::Strategy;
pub use worked::worked_rows;
