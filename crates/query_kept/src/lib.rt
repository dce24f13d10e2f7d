//! Of the rides of a direct query the one that is kept for each minute of arrival, and the rows written from these.
#![tactic(auto)]

mod rides;
mod rows;

pub use rides::{KEPT_WORDS, find_rides};
pub use rows::{ROW_WORDS, write_rows};
