//! Rides, changes, connections, what they cost, which are optimal, and the planner's list: worked out from the abstract
//! timetable alone, with no line table, no store and no row.
#![tactic(auto)]
