//! What the listing program prints: for a timetable's text, for a line of its input, and for all of its bytes.
#![tactic(auto)]
