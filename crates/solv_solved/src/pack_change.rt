//! A change, as C lays it out.

/// A change, as C lays it out: its kind, the package that comes or goes, and the package that comes for it or obsoletes it. Where
/// there is no second package, its number is 0.
#[repr(C)]
#[derive(Clone, Copy)]
pub struct PackChange {
    /// 0 where the package comes, 1 where it goes, and where another package comes for it 2 for an upgrade, 3 for a downgrade, 4 for a
    /// change of architecture or vendor, and 5 for the same again; 6 where it goes and the other obsoletes it.
    pub kind: u32,
    pub pack: u32,
    pub by: u32,
}
