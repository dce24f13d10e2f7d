//! Lines: which trips share one, where they call, and the direct rides that they answer for.
#![tactic(auto)]
