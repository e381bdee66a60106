//! Tests of the crates that stand on none of C: bop_bits and bop_ends.
#![tactic(auto)]

#[cfg(test)]
mod tests;
