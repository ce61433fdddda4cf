//! A rule, as C lays it out.

/// A rule, as C lays it out: its kind, the package that it is about, that package's dependency, the other package, and the job that asks for
/// it. What its kind lacks is 0.
#[repr(C)]
#[derive(Clone, Copy)]
pub struct RuleRow {
    /// 0 to 14, in the order of the kinds of `solv_pool`.
    pub kind: u32,
    pub pack: u32,
    pub dep: u32,
    pub other: u32,
    /// The place of the job, from 0.
    pub job: u32,
}
