//! Laws.
ghost use Rattle.solv_writing.specs.WrittenBack.{ScriptsAreReadBack};

/// Each script that was read, written as one text, is read as the same, where the text is no longer than a file may be.
pub fn each_script_is_read_back()
    ensures { ScriptsAreReadBack }
{}
