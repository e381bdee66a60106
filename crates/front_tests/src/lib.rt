//! Tests of the crates from the trees of C to the layout of a text: `trees` of c_tree, `tokens` of c_token, and so on.
#![tactic(auto)]

#[cfg(test)]
mod tests;
