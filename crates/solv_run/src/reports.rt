//! What the top call answers.
use solv_answers::Answer;
use solv_core::Ledger;
use solv_io::Status;
use solv_list::Items;

/// How a run ended, and the answers that it reached: one for each round that was begun, each with what was learnt for it.
#[derive(Drop)]
pub struct Report {
    pub status: Status,
    pub answers: Items<Answer>,
    pub ledgers: Items<Ledger>,
}

/// The answers that a run reached, each with what was learnt for it.
#[derive(Drop)]
pub struct Reached {
    pub answers: Items<Answer>,
    pub ledgers: Items<Ledger>,
}
