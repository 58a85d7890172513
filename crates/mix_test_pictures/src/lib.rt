//! Nothing but tests: plans of a small tree of sources.
#![tactic(auto)]

#[cfg(test)]
mod plans;
#[cfg(test)]
mod small;
#[cfg(test)]
mod trouble;
