//! Comparisons as lines.
ghost use Rattle.std.specs.Prelude.{◌≡◌, ◌++◌, ◌∷◌, [], codes, map, OnOk};
ghost use Rattle.solv_deps.specs.Canonical.{comparison_text};
ghost use Rattle.solv_io.specs.JoinedWords.{joined};
ghost use Rattle.solv_io.specs.Lines.{ended_lines};

use crate::line_words::add_word;
use solv_deps::comparison_sign;
use solv_script::EvrCheck;
use std::alloc::AllocError;

/// Appends the line of a comparison.
fn put_check(into: &mut Vec<u8>, check: &EvrCheck) -> Result<(), AllocError>
    ensures { OnOk result (into.new.items ≡ into.old.items ++ (joined (codes "evrcmp" ∷ check.now.left ∷ comparison_text check.now.op ∷ check.now.right ∷ []) ++ 10 ∷ [])) }
{
    into.extend_from_slice(b"evrcmp")?;
    add_word(into, check.left.held())?;
    add_word(into, comparison_sign(check.op))?;
    add_word(into, check.right.held())?;
    into.push(b'\n')?;
    Ok(())
}

/// Appends the lines of comparisons.
pub(crate) fn put_checks(into: &mut Vec<u8>, checks: &[EvrCheck]) -> Result<(), AllocError>
    ensures { OnOk result (into.new.items ≡ into.old.items ++ ended_lines (map (λ check. joined (codes "evrcmp" ∷ check.left ∷ comparison_text check.op ∷ check.right ∷ [])) checks.now)) }
{
    for check in checks {
        put_check(into, check)?;
    }
    Ok(())
}
