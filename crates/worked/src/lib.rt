//! The worked cases of document 01, and those of a second timetable, as replies and words of the calls, from text to
//! answer. Definitions only.
#![tactic(auto)]
