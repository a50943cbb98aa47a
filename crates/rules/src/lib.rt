// What the strategy book does: orders and their rank, executions, answers, the rules of every call and the law over every list of calls.

#![tactic(auto)]

mod answer;
mod execution;
mod order;
mod theorem;
mod worked;

pub use answer::{Evaluated, Intake, IntakeFault, Outcome, Placed};
pub use execution::Execution;
pub use order::{FURTHEST_LIMIT, NewOrder, Order};
pub use theorem::law_stands;
pub use worked::worked_cases;
