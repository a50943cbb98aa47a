// Prices of strategies: net markets, admissible prices and their legs, the price of a pair, what can be legged and what is displayed.

#![tactic(auto)]

mod display;
mod legging;
mod legs;
mod limits;
mod market;
mod nets;
mod pair;
mod reading;
mod strategy_market;
mod worked;

pub use display::displayed_price;
pub use market::{LegMarket, NetPrice};
pub use reading::{market_of, net_market};
pub use strategy_market::StrategyMarket;
pub use worked::worked_prices;
