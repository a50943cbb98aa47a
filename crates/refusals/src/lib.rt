// Why a call is refused: where, for what reason, under which number.

#![tactic(auto)]

mod reason;
mod refusal;
mod station;

pub use reason::Reason;
pub use refusal::Refusal;
pub use station::Station;
