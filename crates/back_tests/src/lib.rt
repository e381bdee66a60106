//! Tests of the crates from the meaning of a program to its code, by what these crates show.
#![tactic(auto)]

#[cfg(test)]
mod tests;
