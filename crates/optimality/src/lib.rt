//! What the code of the store call and of the query rests on: least penalties, frontiers, and the connections of one
//! sequence change by change, each tied to the definitions by a theorem.
#![tactic(auto)]
