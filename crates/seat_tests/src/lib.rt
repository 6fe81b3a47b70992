//! Tests of many seats over the office that they share: what each call answers, and what no schedule of the threads may change.
#![tactic(auto)]

#[cfg(test)]
mod tests;
