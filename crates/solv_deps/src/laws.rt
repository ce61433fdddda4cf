//! Laws of dependency text.
ghost use Rattle.solv_deps.specs.Laws.{WrittenIsRead, ReadIsWritten, ReadHasFewOperators, PrintedIsReadAgain, PrintedIsReadAgainByAnyTable, PrintedIsOneLine, HeldIsEntered, PrintedIsTheSame};
ghost use Rattle.solv_deps.specs.Parts.{TextsOfTheWholeAreEntered, TreesOfTheWholeAreEntered};

/// What is written by the grammar, with at most 64 operators and 64 open parentheses, is read as what it means.
pub fn written_is_read()
    ensures { WrittenIsRead }
{}

/// What is read is written by the grammar, and stands for what it means.
pub fn read_is_written()
    ensures { ReadIsWritten }
{}

/// What is read has at most 64 operators.
pub fn read_has_few_operators()
    ensures { ReadHasFewOperators }
{}

/// The canonical text of what was read is read again, at the same place, as the same.
pub fn printed_is_read_again()
    ensures here { PrintedIsReadAgain }
    ensures anywhere { PrintedIsReadAgainByAnyTable }
{}

/// The canonical text of what was read of one line is one line.
pub fn printed_is_one_line()
    ensures { PrintedIsOneLine }
{}

/// What was read at a place, printed and read there again, is the same relation of the pool, which may have grown.
pub fn printed_is_the_same()
    ensures { PrintedIsTheSame }
{}

/// A relation that a pool holds is entered there under its own id, whether or not there is room, and adds nothing. So the
/// canonical text of what was read is read, in the pool that holds it, as the same id.
pub fn held_is_entered()
    ensures { HeldIsEntered }
{}

/// What a pool holds can be entered in a part of it, which stays a part, and no limit is passed.
pub fn parts_are_entered()
    ensures texts { TextsOfTheWholeAreEntered }
    ensures trees { TreesOfTheWholeAreEntered }
{}
