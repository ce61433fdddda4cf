//! Proof text, read.
ghost use Rattle.std.specs.Prelude.{◌≡◌, ◌∷◌, [], Ok as is_ok, Err as is_err, Some, IfOk, IfErr, IfSome, IfNone, map, length};
ghost use Rattle.solv_io.specs.Lines.{lines_of};
ghost use Rattle.solv_proof.specs.Reading.{ending, read_on, is_fed, proof_read, start};
ghost use Rattle.solv_proof.specs.Inner.Readers.{IsTextOf, IsNoText, state_of, IsBadLine};

use crate::faults::{ProofCause, ProofFault};
use crate::kinds::{NextLine, Proof};
use crate::laws::{read_is_written, written_is_read};
use crate::reader::{Reader, start, take_line};
use solv_io::split_line;
use std::alloc::{AllocError, Global};

/// The cause at the end of a text, if there is one.
fn end_cause(reader: &Reader, fed: bool) -> Option<ProofCause>
    ensures ok { IfNone result (ending (state_of reader.now) fed ≡ is_ok reader.now.done) }
    ensures bad { IfSome result (λ cause. ending (state_of reader.now) fed ≡ is_err cause) }
{
    match reader.due {
        NextLine::Problem => {
            if reader.done.held().is_empty() {
                Some(ProofCause::NoProblem)
            } else if fed {
                None
            } else {
                Some(ProofCause::Unfinished)
            }
        }
        NextLine::Rules => Some(ProofCause::Unfinished),
        NextLine::Steps => Some(ProofCause::Unfinished),
    }
}

/// Whether the last byte is a line feed.
fn is_fed(text: &[u8]) -> bool
    ensures { result ≡ is_fed text.now }
{
    match text.last() {
        Some(byte) => *byte == b'\n',
        None => false,
    }
}

/// Reads the lines after the first one. Where one is bad, its number and its cause.
fn read_after(
    alloc: Global,
    reader: &mut Reader,
    text: &[u8],
    fed: bool,
) -> Result<Option<(u64, ProofCause)>, AllocError>
    ensures ok { IfOk result (λ bad. IfNone bad (read_on (state_of reader.old) 1 (lines_of text.now) fed ≡ is_ok reader.new.done)) }
    ensures bad { IfOk result (λ bad. IfSome bad (λ at. read_on (state_of reader.old) 1 (lines_of text.now) fed ≡ is_err (at.0, at.1))) }
{
    let mut number = 1;
    let mut rest = text;
    while !rest.is_empty() {
        let (line, behind) = split_line(rest);
        number += 1;
        match take_line(alloc, reader, line)? {
            None => {}
            Some(cause) => return Ok(Some((number, cause))),
        }
        rest = behind;
    }
    match end_cause(reader, fed) {
        None => Ok(None),
        Some(cause) => Ok(Some((number, cause))),
    }
}

/// Reads a text into a reader that has read nothing.
fn read_all(
    alloc: Global,
    reader: &mut Reader,
    text: &[u8],
) -> Result<Option<(u64, ProofCause)>, AllocError>
    requires { state_of reader.old ≡ start }
    ensures ok { IfOk result (λ bad. IfNone bad (proof_read text.now ≡ is_ok reader.new.done)) }
    ensures bad { IfOk result (λ bad. IfSome bad (λ at. proof_read text.now ≡ is_err (at.0, at.1))) }
{
    if text.is_empty() {
        return Ok(Some((1, ProofCause::BadHeader)));
    }
    let (line, behind) = split_line(text);
    if line != b"proof 1".as_slice() {
        return Ok(Some((1, ProofCause::BadHeader)));
    }
    read_after(alloc, reader, behind, is_fed(text))
}

/// The proofs whose text this is. `Bad` says that the text is none of any list of proofs: it has the first bad line and
/// the first of its causes.
pub fn read_proof(alloc: Global, text: &[u8]) -> Result<Vec<Proof>, ProofFault>
    ensures ok { IfOk result (λ proofs. proof_read text.now ≡ is_ok proofs.items) }
    ensures bad { IfErr result (λ fault. IsBadLine (proof_read text.now) fault) }
    ensures whole { IfOk result (λ proofs. IsTextOf proofs.items text.now) }
    ensures none { IfErr result (λ fault. IsNoText text.now fault) }
{
    written_is_read();
    read_is_written();
    let mut reader = start(alloc);
    match read_all(alloc, &mut reader, text) {
        Ok(None) => Ok(reader.done.into_vec()),
        Ok(Some((line, cause))) => Err(ProofFault::Bad { line, cause }),
        Err(_) => Err(ProofFault::Memory),
    }
}
