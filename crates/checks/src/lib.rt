// The tests that are many, in a crate of their own, so that no library is proved again for them.

#![tactic(auto)]

#[cfg(test)]
mod books;
mod clients;
#[cfg(test)]
mod engines;
#[cfg(test)]
mod fillers;
#[cfg(test)]
mod messages_read;
#[cfg(test)]
mod messages_written;
mod piles;
#[cfg(test)]
mod prices;
#[cfg(test)]
mod program_lines;
#[cfg(test)]
mod ranks;
#[cfg(test)]
mod refusal_table;
#[cfg(test)]
mod texts;

pub use clients::day;
