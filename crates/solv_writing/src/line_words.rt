//! Lines of words.
ghost use Rattle.std.specs.Prelude.{◌≡◌, ◌++◌, ◌∷◌, [], codes, OnOk};
ghost use Rattle.solv_io.specs.Lines.{ended_lines};
ghost use Rattle.solv_writing.specs.ScriptTexts.{inlined};

use solv_list::Bytes;
use std::alloc::AllocError;

/// Appends a space and a word.
pub(crate) fn add_word(line: &mut Vec<u8>, word: &[u8]) -> Result<(), AllocError>
    ensures { OnOk result (line.new.items ≡ line.old.items ++ 32 ∷ word.now) }
{
    line.push(b' ')?;
    line.extend_from_slice(word)
}

/// Appends a line.
pub(crate) fn put_line(into: &mut Vec<u8>, line: &[u8]) -> Result<(), AllocError>
    ensures { OnOk result (into.new.items ≡ into.old.items ++ (line.now ++ 10 ∷ [])) }
{
    into.extend_from_slice(line)?;
    into.push(b'\n')?;
    Ok(())
}

/// Appends a line of a block.
fn put_inlined(into: &mut Vec<u8>, line: &[u8]) -> Result<(), AllocError>
    ensures { OnOk result (into.new.items ≡ into.old.items ++ ((codes "#>" ++ line.now) ++ 10 ∷ [])) }
{
    into.extend_from_slice(b"#>")?;
    put_line(into, line)
}

/// Appends the lines of a block.
pub(crate) fn put_block(into: &mut Vec<u8>, lines: &[Bytes]) -> Result<(), AllocError>
    ensures { OnOk result (into.new.items ≡ into.old.items ++ ended_lines (inlined lines.now)) }
{
    for line in lines {
        put_inlined(into, line.held())?;
    }
    Ok(())
}
