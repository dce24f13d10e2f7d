//! The pattern store of a source: which sequences it holds, its words, what is read from words, and question 13.
#![tactic(auto)]

// The most nodes, and the most arcs, of a store.
pub const ENTRIES_MOST: usize = 16383;
