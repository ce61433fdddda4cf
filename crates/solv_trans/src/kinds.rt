//! The kinds of changes.
use solv_pool::PackNo;

/// What becomes of packages. Of two the first one is installed; the second comes, or for `Obsolete` is in the set.
#[derive(Clone, Copy, PartialEq, Eq, Debug)]
pub enum Change {
    /// The package comes.
    Install(PackNo),
    /// The package goes.
    Erase(PackNo),
    /// A package of the same name with a greater EVR comes for the first.
    Upgrade(PackNo, PackNo),
    /// One with a lower EVR comes for it.
    Downgrade(PackNo, PackNo),
    /// One with an equal EVR and another architecture or vendor comes for it.
    Alter(PackNo, PackNo),
    /// One with an equal EVR, the same architecture and the same vendor comes for it.
    Reinstall(PackNo, PackNo),
    /// The first goes, and the second obsoletes it. If the second comes, it has an install line besides, or one that
    /// brings it for a package of its own name.
    Obsolete(PackNo, PackNo),
}
