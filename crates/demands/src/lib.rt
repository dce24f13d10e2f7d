//! The demands at the level of definitions, for every accepted timetable, and document 01's worked cases.
#![tactic(auto)]
