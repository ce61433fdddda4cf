//! The lines of proof text, one by one.
ghost use Rattle.std.specs.Prelude.{◌≡◌, Ok as is_ok, Err as is_err, Some, None, IfOk, OnOk, IfSome, IfNone};
ghost use Rattle.std.specs.Option.{option_map};
ghost use Rattle.solv_proof.specs.Words.{words_between};
ghost use Rattle.solv_proof.specs.Inner.Words.{words_left};
ghost use Rattle.solv_proof.specs.Texts.{rising, comes_after};
ghost use Rattle.solv_proof.specs.Reading.{start, taken, problem_taken, rules_taken, steps_taken, listed, stepped, closed, number_cause};
ghost use Rattle.solv_proof.specs.Inner.Readers.{state_of};

use crate::cutting::{are_words, cut_word, has_words, three_words};
use crate::faults::ProofCause;
use crate::kinds::{NextLine, Proof};
use crate::numbers::read_count;
use crate::step_lines::{is_step_form, read_places, read_step};
use solv_derive::{Log, Step};
use solv_list::Items;
use std::alloc::{AllocError, Global};

/// What was read of a text: the proofs that ended, and the one that has not.
#[derive(Drop)]
pub struct Reader {
    pub done: Items<Proof>,
    pub due: NextLine,
    pub round: usize,
    pub number: usize,
    pub rules: Items<usize>,
    pub steps: Items<Step>,
}

/// Before the first proof.
pub(crate) fn start(alloc: Global) -> Reader
    ensures { state_of result ≡ start }
{
    Reader {
        done: Items::wrap(Vec::new(alloc)),
        due: NextLine::Problem,
        round: 0,
        number: 0,
        rules: Items::wrap(Vec::new(alloc)),
        steps: Items::wrap(Vec::new(alloc)),
    }
}

/// Whether each number is greater than the one before.
fn rising(numbers: &[usize]) -> bool
    ensures { result ≡ rising numbers.now }
{
    let mut rest = numbers;
    while let [first, others @ ..] = rest {
        if let [second, ..] = others {
            if first >= second {
                return false;
            }
        }
        rest = others;
    }
    true
}

/// Takes a `problem` line.
fn take_problem(reader: &mut Reader, line: &[u8]) -> Option<ProofCause>
    ensures ok { IfNone result (problem_taken (state_of reader.old) (words_between line.now) ≡ is_ok (state_of reader.new)) }
    ensures bad { IfSome result (λ cause. problem_taken (state_of reader.old) (words_between line.now) ≡ is_err cause) }
{
    let Some((word, round, number)) = three_words(line) else {
        return Some(ProofCause::BadLine);
    };
    if word != b"problem".as_slice() || round.is_empty() || number.is_empty() {
        return Some(ProofCause::BadLine);
    }
    let Some(round) = read_count(round) else {
        return Some(ProofCause::BadNumber);
    };
    let Some(number) = read_count(number) else {
        return Some(ProofCause::BadNumber);
    };
    if reader.round < round || (reader.round == round && reader.number < number) {
        reader.due = NextLine::Rules;
        reader.round = round;
        reader.number = number;
        None
    } else {
        Some(ProofCause::BadOrder)
    }
}

/// The cause at a line of numbers that are not all spelt or in range.
fn number_cause(is_formed: bool) -> ProofCause
    ensures { result ≡ number_cause is_formed }
{
    if is_formed {
        ProofCause::BadNumber
    } else {
        ProofCause::BadLine
    }
}

/// Takes a `rules` line.
fn take_rules(
    alloc: Global,
    reader: &mut Reader,
    line: &[u8],
) -> Result<Option<ProofCause>, AllocError>
    ensures ok { IfOk result (λ bad. IfNone bad (rules_taken (state_of reader.old) (words_between line.now) ≡ is_ok (state_of reader.new))) }
    ensures bad { IfOk result (λ bad. IfSome bad (λ cause. rules_taken (state_of reader.old) (words_between line.now) ≡ is_err cause)) }
{
    let (word, words) = cut_word(line);
    if word != b"rules".as_slice() {
        return Ok(Some(ProofCause::BadLine));
    }
    let Some(rules) = read_places(alloc, words)? else {
        return Ok(Some(number_cause(are_words(words))));
    };
    if rules.as_slice().is_empty() {
        return Ok(Some(ProofCause::BadLine));
    }
    if !rising(&rules) {
        return Ok(Some(ProofCause::BadOrder));
    }
    reader.due = NextLine::Steps;
    reader.rules = Items::wrap(rules);
    Ok(None)
}

/// Ends the proof.
fn close(alloc: Global, reader: &mut Reader) -> Result<(), AllocError>
    ensures { OnOk result (state_of reader.new ≡ closed (state_of reader.old)) }
{
    let rules = std::mem::replace(&mut reader.rules, Items::wrap(Vec::new(alloc)));
    let steps = std::mem::replace(&mut reader.steps, Items::wrap(Vec::new(alloc)));
    reader.due = NextLine::Problem;
    reader.done.push(Proof {
        round: reader.round,
        number: reader.number,
        rules,
        log: Log { steps },
    })
}

/// Takes a `step` line or an `end` line.
fn take_steps(
    alloc: Global,
    reader: &mut Reader,
    line: &[u8],
) -> Result<Option<ProofCause>, AllocError>
    ensures ok { IfOk result (λ bad. IfNone bad (steps_taken (state_of reader.old) (words_between line.now) ≡ is_ok (state_of reader.new))) }
    ensures bad { IfOk result (λ bad. IfSome bad (λ cause. steps_taken (state_of reader.old) (words_between line.now) ≡ is_err cause)) }
{
    let (word, words) = cut_word(line);
    if word == b"step".as_slice() {
        let Some(step) = read_step(alloc, words)? else {
            return Ok(Some(number_cause(is_step_form(words))));
        };
        reader.steps.push(step)?;
        return Ok(None);
    }
    if word != b"end".as_slice() {
        return Ok(Some(ProofCause::BadLine));
    }
    if has_words(words) {
        return Ok(Some(ProofCause::BadLine));
    }
    close(alloc, reader)?;
    Ok(None)
}

/// Takes a line.
pub(crate) fn take_line(
    alloc: Global,
    reader: &mut Reader,
    line: &[u8],
) -> Result<Option<ProofCause>, AllocError>
    ensures ok { IfOk result (λ bad. IfNone bad (taken (state_of reader.old) (words_between line.now) ≡ is_ok (state_of reader.new))) }
    ensures bad { IfOk result (λ bad. IfSome bad (λ cause. taken (state_of reader.old) (words_between line.now) ≡ is_err cause)) }
{
    match reader.due {
        NextLine::Problem => Ok(take_problem(reader, line)),
        NextLine::Rules => take_rules(alloc, reader, line),
        NextLine::Steps => take_steps(alloc, reader, line),
    }
}
