//! What the direct query, the store call and the query answer and write, and the customer's demands 2 and 3 for the
//! calls as they are. Definitions only.
#![tactic(auto)]
