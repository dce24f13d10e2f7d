//! Lists, what they hold and how they are ordered: the words in which all later definitions are put, with their laws.
#![tactic(auto)]
