//! Laws of the entries of packages.
ghost use Rattle.solv_tags.specs.Entries.{SameIsEqual};
ghost use Rattle.solv_tags.specs.EntryForms.{EntriesHaveForms};

/// Entries of a package are equal where they are the same tree with the same texts.
pub fn same_is_equal()
    ensures { SameIsEqual }
{}

/// Each dependency of the packages that lines give has a form that may stand at its place.
pub fn entries_have_forms()
    ensures { EntriesHaveForms }
{}
