//! Tests of the learning core and of the propagation below it, over guides of their own. Nothing stands on it.
#![tactic(auto)]

#[cfg(test)]
mod core_tests;
#[cfg(test)]
mod watch_tests;
