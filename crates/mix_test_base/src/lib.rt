//! Nothing but tests: plain data, and the outside.
#![tactic(auto)]

#[cfg(test)]
mod tests;
