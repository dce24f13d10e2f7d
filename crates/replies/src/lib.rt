//! What a call returns: a count, or the question that has the first no. Definitions only: the code returns a Result.
#![tactic(auto)]
