//! A task that is built by calls.
use solv_draft::Draft;
use solv_list::Bytes;

/// A task that calls build, and the line on what is wrong, where the last call was refused.
#[derive(Drop)]
pub struct Opened {
    pub draft: Draft,
    pub said: Bytes,
}
