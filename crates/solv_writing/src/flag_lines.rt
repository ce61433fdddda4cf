//! The flags of a solver as a line.
ghost use Rattle.std.specs.Prelude.{◌≡◌, ◌++◌, ◌∷◌, codes, IfOk, OnOk};
ghost use Rattle.solv_writing.specs.Inner.ScriptParts.{flag_word, flag_words};
ghost use Rattle.solv_io.specs.JoinedWords.{joined};

use crate::line_words::add_word;
use solv_pool::Flags;
use std::alloc::{AllocError, Global};

/// Appends a space and a flag, with `!` before the flag where it is off.
fn add_flag(line: &mut Vec<u8>, on: bool, name: &[u8]) -> Result<(), AllocError>
    ensures { OnOk result (line.new.items ≡ line.old.items ++ 32 ∷ flag_word on name.now) }
{
    if on {
        return add_word(line, name);
    }
    add_word(line, b"!")?;
    line.extend_from_slice(name)
}

/// `solverflags` and all seven flags.
pub(crate) fn flags_line(alloc: Global, flags: &Flags) -> Result<Vec<u8>, AllocError>
    ensures { IfOk result (λ line. line.items ≡ joined (codes "solverflags" ∷ flag_words flags.now)) }
{
    let mut line = Vec::from_slice(alloc, b"solverflags")?;
    add_flag(&mut line, flags.allow_downgrade, b"allowdowngrade")?;
    add_flag(&mut line, flags.allow_name_change, b"allownamechange")?;
    add_flag(&mut line, flags.allow_arch_change, b"allowarchchange")?;
    add_flag(&mut line, flags.allow_vendor_change, b"allowvendorchange")?;
    add_flag(&mut line, flags.allow_uninstall, b"allowuninstall")?;
    add_flag(&mut line, flags.ignore_recommended, b"ignorerecommended")?;
    add_flag(&mut line, flags.no_infarch_check, b"noinfarchcheck")?;
    Ok(line)
}
