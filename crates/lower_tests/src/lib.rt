//! Tests of the crates that make code: low_labels.
#![tactic(auto)]

#[cfg(test)]
mod tests;
