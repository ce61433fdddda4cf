//! A job, as C lays it out.

/// A job, as C lays it out: the number of its action, the packages that it selects by their numbers, or all, and what it is called where a
/// solution leaves it out.
#[repr(C)]
pub struct JobRow<'a> {
    /// 0 to 11, in the order of the actions of `solv_pool`.
    pub action: u32,
    /// Whether all packages are selected, whatever is listed.
    pub all: bool,
    /// Is the best candidate asked for?
    pub forcebest: bool,
    /// Does what nobody needs any more go with the selection?
    pub cleandeps: bool,
    pub packs: &'a [u32],
    pub text: &'a [u8],
}
