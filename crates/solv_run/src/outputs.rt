//! What is asked for.
ghost use Rattle.std.specs.Prelude.{◌≡◌};
ghost use Rattle.solv_run.specs.Inner.ByOutput.{asks_answers};
ghost use Rattle.solv_run.specs.Inner.Rounds.{prints_lines};

use solv_words::Output;

/// Whether lines are asked for.
pub(crate) fn prints_lines(output: Output) -> bool
    ensures { result ≡ prints_lines output }
{
    matches!(output, Output::Lines)
}

/// Whether answers are asked for, and not the script itself.
pub(crate) fn asks_answers(output: Output) -> bool
    ensures { result ≡ asks_answers output }
{
    !matches!(output, Output::Script)
}
