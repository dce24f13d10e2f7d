//! Question 9: the words that have its yes are those that an accepted text, and changes after it, lead to. There is no
//! code here: specs/ proves it about the definitions of the crates below.
#![tactic(auto)]
