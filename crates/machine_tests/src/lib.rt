//! Tests of the machine: bop_bits, rv_code, page_image, rv_step and rv_run.
#![tactic(auto)]

#[cfg(test)]
mod tests;
