//! What a task is given by one call.
ghost use Rattle.std.specs.Prelude.{◌≡◌};
ghost use Rattle.solv_draft.specs.Inner.Calls.{enters_texts};

use crate::flag_row::FlagRow;
use crate::job_row::JobRow;

/// What a task is given by one call.
#[derive(Clone, Copy)]
pub enum Call<'a> {
    /// A repository after the others.
    Repo {
        name: &'a [u8],
        priority: i32,
    },
    /// The packages of a repository, by its number from 0, after those that are there: a text of testtags.
    Packages {
        repo: usize,
        testtags: &'a [u8],
    },
    /// The architecture of the system: 0 is x86_64, 1 is i686 and 2 is aarch64; and the repository that is installed, if there is one.
    System {
        arch: u32,
        has_installed: bool,
        installed: usize,
    },
    /// That this package is not installed anew.
    Disable(u32),
    /// That these packages have a namespace, `namespace:NAME(ARG)`, besides those that have it already.
    Namespace {
        name: &'a [u8],
        packs: &'a [u32],
    },
    /// Flags, in place of those that are there.
    Flags(&'a FlagRow),
    /// A job after the others.
    Job(&'a JobRow<'a>),
    /// A job after the others that selects what has the name of a dependency, or what provides it; what the row itself selects does not
    /// count.
    JobBy {
        provides: bool,
        dep: &'a [u8],
        row: &'a JobRow<'a>,
    },
    /// No jobs, in place of those that are there.
    NoJobs,
}

impl Call<'_> {
    /// Whether the texts of a call go into the task's pool.
    pub(crate) fn enters_texts(&self) -> bool
        ensures { result ≡ enters_texts self.now }
    {
        match self {
            Call::Repo { .. } | Call::Packages { .. } => true,
            Call::Namespace { .. } | Call::JobBy { .. } => true,
            Call::System { .. } | Call::Disable(_) | Call::Flags(_) => false,
            Call::Job(_) | Call::NoJobs => false,
        }
    }
}
