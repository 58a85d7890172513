//! Nothing but tests: who is told what, and the engine.
#![tactic(auto)]

#[cfg(test)]
mod tests;
