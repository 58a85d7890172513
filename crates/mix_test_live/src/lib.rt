//! Nothing but tests: links, doors and paces, in memory and over sockets, and the shared core.
#![tactic(auto)]

#[cfg(test)]
mod tests;
