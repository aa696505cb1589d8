//! How a caller uses the stages of an auction: a sample of lawful calls. The gate edits copies of it into unlawful ones,
//! which must not compile (`.ci/misuse`).

#![tactic(auto)]

pub mod crossing;
pub mod entering;
#[cfg(test)]
mod tests;
