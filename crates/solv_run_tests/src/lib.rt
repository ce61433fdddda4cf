//! Tests of runs, and of reading and writing over files and sinks in memory, that no script shows. Nothing stands on it.
#![tactic(auto)]

#[cfg(test)]
mod adapter_tests;
#[cfg(test)]
mod breaking;
#[cfg(test)]
mod grow_tests;
#[cfg(test)]
mod outside_tests;
#[cfg(test)]
mod reported_tests;
#[cfg(test)]
mod run_tests;
#[cfg(test)]
mod script_tests;
#[cfg(test)]
mod stage;
#[cfg(test)]
mod writing_tests;
