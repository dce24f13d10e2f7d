//! Times as plain minutes, the form of texts before document 02, Four, and that it led to the same tables. There is no
//! code here: no text is read in this form any more.
#![tactic(auto)]
