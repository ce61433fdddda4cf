/// What an entry of a testtags file gives.
#[derive(Clone, Copy, PartialEq, Eq, Debug)]
pub enum Tag {
    /// A package, to which the entries after it belong.
    Pkg,
    /// What it provides.
    Prv,
    /// A requirement.
    Req,
    /// A pre-requirement: it is due before the package is installed.
    Prq,
    /// A conflict.
    Con,
    /// What it obsoletes.
    Obs,
    /// A recommendation.
    Rec,
    /// A suggestion.
    Sug,
    /// What it supplements.
    Sup,
    /// What it enhances.
    Enh,
    /// Its vendor.
    Vnd,
    /// A file's path.
    Fls,
}
