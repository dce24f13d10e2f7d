//! Costs, domination, and the result of a list of candidates: what a planner reads off a list, whatever the list is of.
#![tactic(auto)]

// A number of minutes. Minutes and points are of different kinds, so that no code adds or compares the two by mistake.
#[derive(Clone, Copy, PartialEq, Eq, PartialOrd, Ord)]
pub struct Minutes(pub u32);

// A number of penalty points.
#[derive(Clone, Copy, PartialEq, Eq, PartialOrd, Ord)]
pub struct Points(pub u32);

// What a connection costs: duration in minutes and penalty in points are compared separately and never added.
#[derive(Clone, Copy, PartialEq, Eq)]
pub struct Cost {
    pub minutes: Minutes,
    pub points: Points,
}
