//! Words and laws on lists of bytes, for the crates above. There is no code here.
#![tactic(auto)]
