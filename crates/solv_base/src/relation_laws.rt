//! Laws of relations and their trees.
ghost use Rattle.solv_base.specs.RelationLaws.{ReadingEnds};

/// The tree of an id that is there is read to its end.
pub fn reading_ends()
    ensures { ReadingEnds }
{}
