//! What the runs for the problems of one task share.
use solv_decide::Phases;
use solv_rules::Book;
use std::alloc::Global;

/// What all runs for the problems of one task share: where they take memory, its questions, its book, and for each of its rules whether it may not be dropped.
#[derive(Drop)]
pub struct Setting<'a> {
    pub alloc: Global,
    pub phases: &'a Phases,
    pub book: &'a Book,
    pub fixed: &'a [bool],
}
