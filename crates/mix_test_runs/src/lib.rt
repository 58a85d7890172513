//! Nothing but tests: whole runs that are no case of `mix_cases`, since something fails in them, or
//! since their texts are made here.
#![tactic(auto)]

#[cfg(test)]
mod tests;
