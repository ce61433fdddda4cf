//! Scripts and packages as they are written.
ghost use Rattle.std.specs.Prelude.{◌≡◌, ◌∷◌, ◌++◌, [], codes, Some, None};
ghost use Rattle.solv_writing.specs.TagLines.{evr_words};
ghost use Rattle.solv_worked.specs.Scripts.{flags_line, written};

/// A script as one text: dependencies are canonical, jobs have one space between their words, and every flag stands. Nothing else
/// of a script is needed, not even a line.
pub fn whole_scripts()
    ensures row { written (codes "repo system 0 empty\nrepo available 0 testtags <inline>\n#>=Ver: 3.0\n#>=Pkg: A 1 1 noarch\n#>=Req: (B and C) & D\nsystem x86_64 rpm system\njob  install name A\n") ≡ Some (codes "repo system 0 empty\nrepo available 0 testtags <inline>\n#>=Pkg: A 1 1 noarch\n#>=Req: B & C & D\nsystem x86_64 rpm system\n" ++ (flags_line ++ codes "job install name A\n")) }
    ensures nothing { written [] ≡ Some flags_line }
    ensures refused { written (codes "repo a") ≡ None }
{}

/// A requirement that is a pre-requirement in any entry stands as `=Prq:`, and equal ones once.
pub fn requirements_of_packages()
    ensures { written (codes "repo a 0 testtags <inline>\n#>=Pkg: A 1 1 noarch\n#>=Req: B\n#>=Req: C\n#>=Prq: B\n#>=Req: C") ≡ Some (codes "repo a 0 testtags <inline>\n#>=Pkg: A 1 1 noarch\n#>=Prq: B\n#>=Req: C\n" ++ flags_line) }
{}

/// Rounds, with the lines that are expected of each.
pub fn rounds_of_texts()
    ensures { written (codes "nextjob\nresult order,transaction <inline>\n#> install A \n#>nextjob\nsolverflags allowuninstall") ≡ Some (flags_line ++ codes "nextjob\nsolverflags !allowdowngrade allownamechange !allowarchchange !allowvendorchange allowuninstall !ignorerecommended !noinfarchcheck\nresult transaction,order <inline>\n#>install A\n#>nextjob\n") }
{}

/// The version and the release of an EVR, which is parted at its last `-` where something stands on both sides.
pub fn parted_versions()
    ensures both { evr_words (codes "1-2-3") ≡ codes "1-2" ∷ codes "3" ∷ [] }
    ensures epoch { evr_words (codes "2:1-1") ≡ codes "2:1" ∷ codes "1" ∷ [] }
    ensures whole { evr_words (codes "1") ≡ codes "1" ∷ codes "-" ∷ [] }
    ensures nothing_behind { evr_words (codes "1-") ≡ codes "1-" ∷ codes "-" ∷ [] }
    ensures nothing_before { evr_words (codes "-1") ≡ codes "-1" ∷ codes "-" ∷ [] }
    ensures dash { evr_words (codes "-") ≡ codes "-" ∷ codes "-" ∷ [] }
{}
