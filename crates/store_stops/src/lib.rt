//! The timetable stop by stop, as the store call goes through it: stops count from 0 over all trips. Definitions only.
#![tactic(auto)]
