//! What the hard rules of a task, its changes and their order come to, said in a few lines each.
//!
//! Each law is the contract of a function of [`laws`] that does nothing, over the definitions that the answers' contracts cite.
//!
//! - `Asked`: what goes was asked for, and the jobs are done.
//! - `Unbroken`: what packages ask of each other is so in each set that meets the hard rules.
//! - `Before`: what is there when a package is installed.
//! - `Seeds`: the task of a seed passes no limit.
#![tactic(auto)]

pub mod laws;
