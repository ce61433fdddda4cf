//! The proofs of an answer's problems.
ghost use Rattle.std.specs.Prelude.{Ok as is_ok, ◌≡◌, ◌∷◌, [], true, slice_get, IfOk, IfSome};
ghost use Rattle.std.specs.Option.{option_copied};
ghost use Rattle.solv_answers.specs.Answers.{IsAnswered};
ghost use Rattle.solv_proof.specs.Reading.{proof_read};
ghost use Rattle.solv_proof.specs.Texts.{are_listed, proof_text};
ghost use Rattle.solv_verdicts.specs.Laws.{proof_of};
ghost use Rattle.solv_solved.specs.Inner.Proving.{are_proved};
ghost use Rattle.solv_solved.specs.Proofs.{IsGoodProof, problems_in, proof_text_in};
ghost use Rattle.solv_solved.specs.Texts.{IsGoodProofOf, proof_text_of};

use crate::outcomes::Held;
use crate::reading::problems_in;
use crate::with_answer::Solved;
use solv_answers::{Answer, Answered};
use solv_derive::{Log, Step};
use solv_list::{Bytes, Items};
use solv_pool::Task;
use solv_proof::{Proof, write_proof};
use solv_remedy::Problem;
use solv_verdicts::laws::{problems_are_proved, problems_may_be_written};
use std::alloc::{AllocError, Global};

/// That the proof of each problem of an answer may be written by itself, and that yes is said of it.
pub(crate) fn answer_is_proved(task: &Task, answered: &Answered, budget: u32)
    requires good { IsAnswered task.now budget answered.now.answer answered.now.ledger }
    ensures { are_proved task.now (problems_in answered.now.answer) ≡ true }
{
    problems_may_be_written();
    problems_are_proved();
    let _ = task;
    let _ = answered;
    let _ = budget;
}

/// A copy of a step.
fn copy_of_step(alloc: Global, step: &Step) -> Result<Step, AllocError>
    ensures { IfOk result (λ copy. copy ≡ step.now) }
{
    let clause = step.clause.held().to_vec(alloc)?;
    let hints = step.hints.held().to_vec(alloc)?;
    Ok(Step {
        clause: Items::wrap(clause),
        hints: Items::wrap(hints),
    })
}

/// Copies of steps.
fn copies_of(alloc: Global, steps: &[Step]) -> Result<Vec<Step>, AllocError>
    ensures { IfOk result (λ copies. copies.items ≡ steps.now) }
{
    let mut copies = Vec::new(alloc);
    for step in steps {
        copies.push(copy_of_step(alloc, step)?)?;
    }
    Ok(copies)
}

/// The proof of the problem of this number of the first round, from 1 on.
fn proof_of(alloc: Global, number: usize, problem: &Problem) -> Result<Proof, AllocError>
    ensures { IfOk result (λ proof. proof ≡ proof_of 1 number problem.now) }
{
    let rules = problem.rules.held().to_vec(alloc)?;
    let steps = copies_of(alloc, problem.log.steps.held())?;
    Ok(Proof {
        round: 1,
        number,
        rules: Items::wrap(rules),
        log: Log {
            steps: Items::wrap(steps),
        },
    })
}

/// The text of the proof of this problem.
fn proof_text(alloc: Global, number: usize, problem: &Problem) -> Result<Bytes, AllocError>
    requires { are_listed (proof_of 1 number problem.now ∷ []) ≡ true }
    ensures text { IfOk result (λ text. text ≡ proof_text (proof_of 1 number problem.now ∷ [])) }
    ensures readable { IfOk result (λ text. proof_read text ≡ is_ok (proof_of 1 number problem.now ∷ [])) }
{
    let proof = proof_of(alloc, number, problem)?;
    let mut proofs = Vec::new(alloc);
    proofs.push(proof)?;
    write_proof(alloc, &proofs)
}

/// The problem of this number of an answer, from 0 on.
fn problem_in(answer: &Answer, problem: usize) -> Option<&Problem>
    ensures { option_copied result ≡ slice_get (problems_in answer.now) problem }
{
    problems_in(answer).get(problem)
}

impl Solved {
    /// The text of the proof of the problem of this number, from 0 on.
    fn proof_text(&self, alloc: Global, problem: usize) -> Result<Option<Bytes>, AllocError>
        ensures text { IfOk result (λ text. text ≡ proof_text_in self.now.answer problem) }
        ensures good { IfOk result (λ text. IfSome text (IsGoodProof self.now.script.task)) }
    {
        if problem >= problems_in(&self.answer).len() {
            return Ok(None);
        }
        match problem_in(&self.answer, problem) {
            Some(found) => {
                let text = proof_text(alloc, problem + 1, found)?;
                Ok(Some(text))
            }
            None => Ok(None),
        }
    }
}

impl Held {
    /// The text of the proof of the problem of this number, from 0 on, where there is such. It is read as a proof, and yes is said of it.
    pub fn proof_text(&self, alloc: Global, problem: usize) -> Result<Option<Bytes>, AllocError>
        ensures text { IfOk result (λ text. text ≡ proof_text_of self.now problem) }
        ensures good { IfOk result (λ text. IfSome text (IsGoodProofOf self.now)) }
    {
        match self {
            Held::Answered(solved) => solved.proof_text(alloc, problem),
            Held::Refused(_) | Held::Open(_) => Ok(None),
        }
    }
}
