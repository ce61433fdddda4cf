/// Where a dependency stands.
#[derive(Clone, Copy, PartialEq, Eq, Debug)]
pub enum Place {
    /// A requirement, or what is recommended, suggested, supplemented or enhanced.
    Requires,
    /// A conflict.
    Conflicts,
    /// What is provided or obsoleted, or what a job selects.
    Plain,
}
