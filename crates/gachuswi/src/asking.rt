//! What a run is asked for.
ghost use Rattle.std.specs.Prelude.{◌≡◌, ◌&&◌, IfOk};
ghost use Rattle.gachuswi.specs.Asked.{asked, asked_output};

use solv_list::Text;
use solv_words::{Command, Output, Source};
use std::alloc::{AllocError, Global};

/// What a run is asked for, besides its script.
#[repr(C)]
pub struct Options {
    /// How many rules may be learnt, at most 1,000,000.
    pub budget: u32,
    /// Whether result lines are printed also where the script says which it expects.
    pub shows: bool,
    /// Whether proofs of the problems are printed in place of all lines.
    pub proves: bool,
    /// Whether the script itself is printed, as one text, in place of all lines. Nothing is solved then.
    pub writes: bool,
}

/// Whether both proofs and the script are asked for.
pub(crate) fn asks_for_both(options: &Options) -> bool
    ensures { result ≡ (options.now.proves && options.now.writes) }
{
    options.proves && options.writes
}

/// What is printed.
fn asked_output(options: &Options) -> Output
    ensures { result ≡ asked_output options.now }
{
    if options.proves {
        Output::Proofs
    } else if options.writes {
        Output::Script
    } else {
        Output::Lines
    }
}

/// The command that asks for a run of the script of this name.
pub(crate) fn asked(alloc: Global, script: &str, options: &Options) -> Result<Command, AllocError>
    ensures { IfOk result (λ command. command ≡ asked script.now options.now) }
{
    let name = String::from_str(alloc, script)?;
    Ok(Command {
        shows: options.shows,
        budget: options.budget,
        output: asked_output(options),
        source: Source::File(Text::wrap(name)),
    })
}
