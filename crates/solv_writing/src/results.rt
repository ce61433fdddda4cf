//! What is expected of a round as lines.
ghost use Rattle.std.specs.Prelude.{◌≡◌, ◌++◌, codes, IfOk, OnOk, if◌then◌else◌};
ghost use Rattle.solv_io.specs.Lines.{ended_lines};
ghost use Rattle.solv_writing.specs.Inner.KindWords.{behind_comma};
ghost use Rattle.solv_writing.specs.ScriptTexts.{inlined};
ghost use Rattle.solv_writing.specs.Inner.ScriptParts.{kind_names, result_lines, with_commas};

use crate::line_words::put_block;
use solv_list::{Bytes, Items};
use solv_script::Kinds;
use std::alloc::{AllocError, Global};

/// Appends a kind, with a comma before it unless it is the first.
fn add_kind(text: &mut Vec<u8>, on: bool, name: &[u8]) -> Result<(), AllocError>
    ensures { OnOk result (text.new.items ≡ (if on then behind_comma text.old.items name.now else text.old.items)) }
{
    if !on {
        return Ok(());
    }
    if !text.is_empty() {
        text.push(b',')?;
    }
    text.extend_from_slice(name)
}

/// The kinds that are asked for, with commas between them.
fn kinds_text(alloc: Global, kinds: &Kinds) -> Result<Vec<u8>, AllocError>
    ensures { IfOk result (λ text. text.items ≡ with_commas (kind_names kinds.now)) }
{
    let mut text = Vec::new(alloc);
    add_kind(&mut text, kinds.transaction, b"transaction")?;
    add_kind(&mut text, kinds.problems, b"problems")?;
    add_kind(&mut text, kinds.order, b"order")?;
    add_kind(&mut text, kinds.reason, b"reason")?;
    add_kind(&mut text, kinds.userinstalled, b"userinstalled")?;
    add_kind(&mut text, kinds.unneeded, b"unneeded")?;
    Ok(text)
}

/// Appends the line of a result, and the lines that are expected.
fn put_expected(
    alloc: Global,
    kinds: &Kinds,
    lines: &[Bytes],
    into: &mut Vec<u8>,
) -> Result<(), AllocError>
    ensures { OnOk result (into.new.items ≡ into.old.items ++ (codes "result " ++ (with_commas (kind_names kinds.now) ++ (codes " <inline>\n" ++ ended_lines (inlined lines.now))))) }
{
    let text = kinds_text(alloc, kinds)?;
    into.extend_from_slice(b"result ")?;
    into.extend_from_slice(&text)?;
    into.extend_from_slice(b" <inline>\n")?;
    put_block(into, lines)
}

/// Appends what is expected, if anything.
#[tactic(auto, using(crate::proofs::KindWords::expected_are))]
pub(crate) fn put_results(
    alloc: Global,
    kinds: &Kinds,
    wanted: &Option<Items<Bytes>>,
    into: &mut Vec<u8>,
) -> Result<(), AllocError>
    ensures { OnOk result (into.new.items ≡ into.old.items ++ ended_lines (result_lines kinds.now wanted.now)) }
{
    match wanted {
        Some(lines) => put_expected(alloc, kinds, lines.held(), into),
        None => Ok(()),
    }
}
