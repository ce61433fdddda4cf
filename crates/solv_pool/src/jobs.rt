//! Jobs.
use crate::numbers::PackNo;
use solv_base::DepId;
use solv_list::{Bytes, Items};

/// What a job asks of its selection.
#[derive(Clone, Copy, PartialEq, Eq, Debug)]
pub enum Action {
    /// The resulting set holds one of the selection.
    Install,
    /// It holds none of it.
    Erase,
    /// Its installed packages are marked for update.
    Update,
    /// Its installed packages are marked for a distribution upgrade.
    Distupgrade,
    /// On the selection, the resulting set is as installed.
    Lock,
    /// Its installed packages are verified: what is broken among them counts.
    Verify,
    /// Its packages may be installed beside others of their name.
    Multiversion,
    /// Its installed packages may go.
    AllowUninstall,
    /// Its packages come first among alternatives.
    Favor,
    /// Its packages come last among alternatives.
    Disfavor,
    /// Its packages are what the user asked for.
    UserInstalled,
    /// Nothing.
    Noop,
}

/// How a job selects packages.
#[derive(Drop)]
pub enum Choice {
    /// One package.
    Pkg(PackNo),
    /// The packages of a name whose own EVR meets the dependency.
    Name(DepId),
    /// The packages that meet the dependency.
    Provides(DepId),
    /// These packages.
    OneOf(Items<PackNo>),
    /// Every package.
    All,
    /// No package.
    Nothing,
}

/// A job.
#[derive(Drop)]
pub struct Job {
    pub action: Action,
    pub choice: Choice,
    /// Is the best candidate asked for?
    pub forcebest: bool,
    /// Does what nobody needs any more go with the selection?
    pub cleandeps: bool,
    /// The words of the job's line after `job`, joined by one space.
    pub text: Bytes,
}
