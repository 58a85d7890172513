//! Nothing but tests: the lock that knows its history.
#![tactic(auto)]

#[cfg(test)]
mod tests;
