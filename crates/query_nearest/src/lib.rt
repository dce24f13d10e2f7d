//! The rides that are found along the lists of two stations are the direct rides, and those to the nearest places have
//! the result of all.
#![tactic(auto)]
