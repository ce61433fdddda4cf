//! Examples on which the grammar of scripts is evaluated.
ghost use Rattle.std.specs.Prelude.{◌≡◌, ◌∷◌, ◌++◌, [], ◌-◌, codes, length, map, true, false, Some, None, Ok, Err};
ghost use Rattle.solv_base.specs.Dependency.{one, plain};
ghost use Rattle.solv_base.specs.Pool.{Held};
ghost use Rattle.solv_pool.specs.Written as written;
ghost use Rattle.solv_pool.specs.declared.universes.Arch.TheVariants.{X86_64, I686, Aarch64};
ghost use Rattle.solv_commands.specs.declared.causes.Cause.TheVariants.{BadWords, BadNumber, BadRepoType, DuplicateRepo, DuplicateSystem, BadArch, BadDisttype, UnknownRepo, UnknownFlag, BadNamespace, UnknownPackage, BadOperator, DuplicateResult, UnknownKind, UnknownJob, UnknownJobFlag, FlagNotHere, UnknownSelection, SystemInJob, UnknownLine, Compressed, BadFileName, FileTooLong, ScriptTooLong, MissingOperand, OperatorNotHere, BadPackageLine, TagBeforePackage, UnclosedBlock, AfterNextjob};
ghost use Rattle.solv_script.specs.Reads.{default_kinds, first_flags};
ghost use Rattle.solv_script.specs.Grammar.{counted};
ghost use Rattle.solv_script.specs.Results.{no_kinds};
ghost use Rattle.solv_script.specs.States.{no_line, rounds_given, script_given};
ghost use Rattle.solv_worked.specs.Scripts.{map_counted, at, bad_line, due_in_folder, file_a, file_b, file_c, given, given_in_folder, map_given, refused, two_rounds, with_packages};

/// Comments, blank lines and inline lines that belong to no repository say nothing, and numbers go on over them. A block that
/// is open at the end of a repository's lines is bad at the last of them.
pub fn lines_of_scripts()
    ensures unclosed { refused (codes "repo system 0 empty\nrepo available 0 testtags <inline>\n#>=Pkg: A 1 1 noarch\n#>+Req:\n#>B\nsystem x86_64 rpm system\n") ≡ at 5 UnclosedBlock }
    ensures unknown_job { refused (codes "repo system 0 empty\nrepo available 0 testtags <inline>\n#>=Pkg: A 1 1 noarch\nsystem x86_64 rpm system\n\n# a comment\njob instal name A\n") ≡ at 7 UnknownJob }
    ensures nothing { refused (codes "# a comment\n \t\r\n#>=Req: (\n\n") ≡ None }
    ensures blank_before { refused (codes "\n # a comment") ≡ at 2 UnknownLine }
    ensures first_word { refused (codes "repo a 0 empty\nRepo b 0 empty") ≡ at 2 UnknownLine }
{}

/// Repositories.
pub fn repositories()
    ensures words { refused (codes "repo a x foo b c") ≡ at 1 BadWords }
    ensures number { refused (codes "repo a x foo") ≡ at 1 BadNumber }
    ensures kind { refused (codes "repo a 0 empty\nrepo a 0 foo") ≡ at 2 BadRepoType }
    ensures duplicate { refused (codes "repo a 0 empty\nrepo b 0 empty\nrepo a 1 testtags b.gz") ≡ at 3 DuplicateRepo }
    ensures before_block { refused (codes "repo a 0 empty\nrepo a 0 testtags <inline>\n#>=Req: b") ≡ at 2 DuplicateRepo }
    ensures block { refused (codes "repo a 0 testtags <inline>\n#>=Req: b") ≡ at 2 TagBeforePackage }
    ensures behind_a_gap { refused (codes "repo a 0 testtags <inline>\n\n#>=Req: b") ≡ None }
    ensures second { refused (codes "repo a 0 testtags <inline>\n#>=Pkg: A\nrepo a 0 empty") ≡ at 2 BadPackageLine }
    ensures repos { map_given (λ s. map (λ r. r.name) s.task.repos) (given (codes "repo b 0 empty\nrepo a -1 testtags <inline>")) ≡ Some (codes "b" ∷ codes "a" ∷ []) }
    ensures packages { map_given (λ s. map (λ a. a.evr) s.task.packages) (given (with_packages [])) ≡ Some (codes "1-1" ∷ codes "2" ∷ []) }
    ensures of_repo { map_given (λ s. map (λ a. a.repo) s.task.packages) (given (codes "repo b 0 empty\n" ++ with_packages (codes "repo c 0 testtags <inline>\n#>=Pkg: C 1 1 noarch"))) ≡ Some (1 ∷ 1 ∷ 2 ∷ []) }
    ensures names { map_given (λ s. s.held.names) (given (with_packages [])) ≡ Some (codes "a" ∷ codes "A" ∷ codes "1-1" ∷ codes "noarch" ∷ codes "B" ∷ codes "2" ∷ []) }
{}

/// The system's line: its causes in their order, and what it sets.
pub fn systems()
    ensures words { refused (codes "system x86_64 rpm\nsystem x86_64") ≡ at 2 BadWords }
    ensures twice { refused (codes "system x86_64 rpm\nsystem foo deb b") ≡ at 2 DuplicateSystem }
    ensures arch { refused (codes "system foo deb b") ≡ at 1 BadArch }
    ensures noarch { refused (codes "system noarch rpm") ≡ at 1 BadArch }
    ensures distribution { refused (codes "system i686 deb b") ≡ at 1 BadDisttype }
    ensures repo { refused (codes "repo a 0 empty\nsystem i686 rpm b") ≡ at 2 UnknownRepo }
    ensures installed { map_given (λ s. s.task.installed) (given (codes "repo a 0 empty\nrepo b 0 empty\nsystem x86_64 rpm b")) ≡ Some (Some 1) }
    ensures none { map_given (λ s. s.task.installed) (given (codes "system i686 rpm")) ≡ Some None }
    ensures arch_set { map_given (λ s. s.task.arch) (given (codes "system i686 rpm")) ≡ Some (Some I686) }
    ensures other_arch_set { map_given (λ s. s.task.arch) (given (codes "system aarch64 rpm")) ≡ Some (Some Aarch64) }
    ensures no_system { map_given (λ s. s.task.arch) (given []) ≡ Some None }
{}

/// Flags are set and cleared in order; only a change of name is allowed at the start.
pub fn flags_of_scripts()
    ensures start { map_given (λ s. s.task.flags) (given []) ≡ Some first_flags }
    ensures set { map_given (λ s. s.task.flags) (given (codes "solverflags allowdowngrade,,!allownamechange\nsolverflags allowuninstall")) ≡ Some (record first_flags { allow_downgrade = true; allow_name_change = false; allow_uninstall = true }) }
    ensures last { map_given (λ s. s.task.flags) (given (codes "solverflags allowdowngrade !allowdowngrade")) ≡ Some first_flags }
    ensures unknown { refused (codes "solverflags allowdowngrade\nsolverflags allowdowngrade nosuch") ≡ at 2 UnknownFlag }
{}

/// Lines that name packages: namespaces, and packages that are disabled.
pub fn packages_of_scripts()
    ensures namespace_words { refused (codes "namespace language(de)") ≡ at 1 BadWords }
    ensures namespace_name { refused (codes "namespace language(de) nosuch") ≡ at 1 BadNamespace }
    ensures namespace_package { refused (with_packages (codes "namespace namespace:x(y) A-1-1.noarch@a nosuch")) ≡ at 4 UnknownPackage }
    ensures namespaces { map_given (λ s. s.task.namespaces) (given (with_packages (codes "namespace namespace:x(y) B-2.noarch@a @SYSTEM\nnamespace namespace:z() @SYSTEM\nnamespace namespace:x(y) B-2.noarch@a"))) ≡ Some ((codes "namespace:x(y)", 2 ∷ 0 ∷ 2 ∷ []) ∷ (codes "namespace:z()", 0 ∷ []) ∷ []) }
    ensures disable_words { refused (with_packages (codes "disable name A")) ≡ at 4 BadWords }
    ensures disable_package { refused (codes "disable pkg A-1-1.noarch@a\n" ++ with_packages []) ≡ at 1 UnknownPackage }
    ensures disable_system { refused (with_packages (codes "disable pkg @SYSTEM")) ≡ at 4 UnknownPackage }
    ensures disabled { map_given (λ s. s.task.disabled) (given (with_packages (codes "disable pkg B-2.noarch@a"))) ≡ Some (false ∷ true ∷ []) }
    ensures lowest { map_given (λ s. s.task.disabled) (given (codes "repo a 0 testtags <inline>\n#>=Pkg: A 1 1 noarch\n#>=Pkg: A 1 1 noarch\ndisable pkg A-1-1.noarch@a")) ≡ Some (true ∷ false ∷ []) }
{}

/// Comparisons.
pub fn comparisons_of_scripts()
    ensures words { refused (codes "evrcmp 1 <") ≡ at 1 BadWords }
    ensures operator { refused (codes "evrcmp 1 == 1") ≡ at 1 BadOperator }
    ensures left { map_given (λ s. map (λ check. check.left) s.checks) (given (codes "evrcmp 1.0 < 2\nevrcmp 2 <> 1")) ≡ Some (codes "1.0" ∷ codes "2" ∷ []) }
    ensures right { map_given (λ s. map (λ check. check.right) s.checks) (given (codes "evrcmp 1.0 < 2\nevrcmp 2 <> 1")) ≡ Some (codes "2" ∷ codes "1" ∷ []) }
    ensures no_names { map_given (λ s. s.held.names) (given (codes "evrcmp 1.0 < 2")) ≡ Some [] }
{}

/// Results: their causes in their order, the kinds that are named, and the lines that are expected, which keep their order and
/// their repeats, but no blanks round them.
pub fn results_of_scripts()
    ensures words { refused (codes "result order <inline>\nresult nosuch") ≡ at 2 BadWords }
    ensures twice { refused (codes "result order <inline>\nresult nosuch a.gz") ≡ at 2 DuplicateResult }
    ensures twice_without_lines { refused (codes "result order <inline>\nresult order <inline>") ≡ at 2 DuplicateResult }
    ensures unknown { refused (codes "result nosuch a.gz") ≡ at 1 UnknownKind }
    ensures unknown_among_known { refused (codes "result order,nosuch,reason <inline>") ≡ at 1 UnknownKind }
    ensures empty { refused (codes "result order,,reason <inline>") ≡ at 1 UnknownKind }
    ensures empty_behind { refused (codes "result order, <inline>") ≡ at 1 UnknownKind }
    ensures unknown_behind { refused (codes "result unneeded,nosuch <inline>") ≡ at 1 UnknownKind }
    ensures needs { map_given (λ s. s.kinds) (given (codes "result userinstalled,unneeded <inline>")) ≡ Some (record no_kinds { userinstalled = true; unneeded = true }) }
    ensures file { refused (codes "result order a.gz") ≡ at 1 Compressed }
    ensures kinds_without { map_given (λ s. s.kinds) (given (codes "job noop")) ≡ Some default_kinds }
    ensures all_kinds { map_given (λ s. s.kinds) (given (codes "result reason,order,problems,transaction <inline>")) ≡ Some (record no_kinds { transaction = true; problems = true; order = true; reason = true }) }
    ensures kind_twice { map_given (λ s. s.kinds) (given (codes "result order,order <inline>")) ≡ Some (record no_kinds { order = true }) }
    ensures wanted_without { map_given (λ s. s.wanted) (given (codes "job noop")) ≡ Some None }
    ensures no_line { map_given (λ s. s.wanted) (given (codes "result order <inline>\n\n#>a")) ≡ Some (Some []) }
    ensures wanted { map_given (λ s. s.wanted) (given (codes "result order <inline>\n#> \tb  c\t\r\n#>\n#># d\n#> \r\n#>a\n#>a\njob noop")) ≡ Some (Some (codes "b  c" ∷ codes "# d" ∷ codes "a" ∷ codes "a" ∷ [])) }
    ensures no_names { map_given (λ s. s.held.names) (given (codes "result order <inline>\n#>=Pkg: A 1 1 noarch")) ≡ Some [] }
{}

/// Jobs: their causes in their order, and what they select.
pub fn jobs_of_scripts()
    ensures words { refused (codes "job instal") ≡ at 1 BadWords }
    ensures unknown { refused (codes "job instal foo [bar]") ≡ at 1 UnknownJob }
    ensures flag { refused (codes "job erase foo [bar,forcebest]") ≡ at 1 UnknownJobFlag }
    ensures not_here { refused (codes "job erase foo [forcebest]") ≡ at 1 FlagNotHere }
    ensures selection { refused (codes "job install foo nosuch [forcebest]") ≡ at 1 UnknownSelection }
    ensures selection_words { refused (codes "job install pkg nosuch nosuch") ≡ at 1 BadWords }
    ensures package { refused (codes "job install pkg nosuch") ≡ at 1 UnknownPackage }
    ensures the_system { refused (codes "job install pkg @SYSTEM") ≡ at 1 SystemInJob }
    ensures system_last { refused (codes "job install oneof @SYSTEM nosuch") ≡ at 1 UnknownPackage }
    ensures the_system_among { refused (with_packages (codes "job install oneof A-1-1.noarch@a @SYSTEM")) ≡ at 4 SystemInJob }
    ensures dependency { refused (codes "job install name A >=") ≡ at 1 MissingOperand }
    ensures rich { refused (codes "job install provides A & B") ≡ at 1 OperatorNotHere }
    ensures one { map_given (λ s. map (λ j. j.choice) s.task.jobs) (given (with_packages (codes "job install pkg B-2.noarch@a"))) ≡ Some (written.pkg 2 ∷ []) }
    ensures several { map_given (λ s. map (λ j. j.choice) s.task.jobs) (given (with_packages (codes "job erase oneof B-2.noarch@a A-1-1.noarch@a B-2.noarch@a"))) ≡ Some (written.one_of (2 ∷ 1 ∷ 2 ∷ []) ∷ []) }
    ensures names { map_given (λ s. map (λ j. j.choice) s.task.jobs) (given (codes "job lock name A\njob update provides B [forcebest]")) ≡ Some (written.name (one (plain (codes "A"))) ∷ written.provides (one (plain (codes "B"))) ∷ []) }
    ensures all { map_given (λ s. map (λ j. j.choice) s.task.jobs) (given (codes "job verify all packages\njob noop")) ≡ Some (written.all ∷ written.nothing ∷ []) }
    ensures forcebest { map_given (λ s. map (λ j. j.forcebest) s.task.jobs) (given (codes "job install name A [forcebest]\njob install name A")) ≡ Some (true ∷ false ∷ []) }
    ensures cleandeps { map_given (λ s. map (λ j. j.cleandeps) s.task.jobs) (given (codes "job erase name A [cleandeps]\njob erase name A")) ≡ Some (true ∷ false ∷ []) }
    ensures text { map_given (λ s. map (λ j. j.text) s.task.jobs) (given (codes "job \tinstall  name A\t>= 1 [forcebest] \r")) ≡ Some (codes "install name A >= 1 [forcebest]" ∷ []) }
    ensures entered { map_given (λ s. s.held.names) (given (codes "job install name A >= 1\njob erase provides A")) ≡ Some (codes "A" ∷ codes "1" ∷ []) }
{}

/// What may come after a `nextjob` line: that a line of packages may not is tried before its words.
pub fn lines_behind_nextjob()
    ensures late { refused (codes "repo a 0 empty\nnextjob\nrepo a 0 empty") ≡ at 3 AfterNextjob }
    ensures late_before_words { refused (codes "nextjob\nrepo a") ≡ at 2 AfterNextjob }
    ensures late_system { refused (codes "nextjob\nsystem foo") ≡ at 2 AfterNextjob }
    ensures late_namespace { refused (codes "nextjob\n#>x\nnamespace") ≡ at 3 AfterNextjob }
    ensures late_disable { refused (codes "nextjob\ndisable pkg") ≡ at 2 AfterNextjob }
    ensures words { refused (codes "nextjob x") ≡ at 1 BadWords }
    ensures unknown { refused (codes "nextjob\nRepo") ≡ at 2 UnknownLine }
    ensures checks { map_given (λ s. length s.checks) (given (codes "evrcmp 1 < 2\nnextjob\nevrcmp 1 < 2")) ≡ Some 2 }
    ensures results_each { refused (codes "result order <inline>\nnextjob\nresult order <inline>") ≡ None }
    ensures result_twice { refused (codes "nextjob\nresult order <inline>\nresult order <inline>") ≡ at 3 DuplicateResult }
{}

/// What rounds have: the flags stay, and the jobs, the kinds and the lines that are expected begin anew.
pub fn rounds_of_scripts()
    ensures count { map_given (λ s. length s.earlier) (given (codes "nextjob\n\nnextjob\n")) ≡ Some 2 }
    ensures jobs { map_given (λ s. map (λ r. map (λ j. j.text) r.jobs) (rounds_given s)) (given two_rounds) ≡ Some ((codes "install name A" ∷ []) ∷ (codes "install name nosuch" ∷ []) ∷ []) }
    ensures first { map_given (λ s. map (λ j. j.text) (script_given s).task.jobs) (given two_rounds) ≡ Some (codes "install name A" ∷ []) }
    ensures later { map_given (λ s. length (script_given s).later) (given two_rounds) ≡ Some 1 }
    ensures flags_stay { map_given (λ s. s.task.flags) (given (codes "solverflags allowuninstall\nnextjob")) ≡ Some (record first_flags { allow_uninstall = true }) }
    ensures flags_of_first { map_given (λ s. (script_given s).task.flags) (given (codes "solverflags allowuninstall\nnextjob\nsolverflags !allowuninstall")) ≡ Some (record first_flags { allow_uninstall = true }) }
    ensures kinds_anew { map_given (λ s. s.kinds) (given (codes "result order <inline>\nnextjob")) ≡ Some default_kinds }
    ensures kinds_of_first { map_given (λ s. (script_given s).kinds) (given (codes "result order <inline>\nnextjob")) ≡ Some (record no_kinds { order = true }) }
    ensures wanted_anew { map_given (λ s. s.wanted) (given (codes "result order <inline>\n#>a\nnextjob")) ≡ Some None }
{}

/// The bytes of a file, and of a script and its files together.
pub fn sizes_of_files()
    ensures longest { map_counted (counted no_line 67108864) ≡ Ok 67108864 }
    ensures too_long { map_counted (counted no_line 67108865) ≡ Err FileTooLong }
    ensures together { map_counted (counted (record no_line { bytes = 268435456 - 67108864 }) 67108864) ≡ Ok 268435456 }
    ensures too_long_together { map_counted (counted (record no_line { bytes = 268435456 }) 1) ≡ Err ScriptTooLong }
    ensures file_first { map_counted (counted (record no_line { bytes = 268435456 }) 67108865) ≡ Err FileTooLong }
{}

/// Names of files that are not fetched: each ending of a compressed file, and a name that is not UTF-8.
pub fn names_of_files()
    ensures gz { refused (codes "repo a 0 testtags a.repo.gz") ≡ at 1 Compressed }
    ensures bz2 { refused (codes "repo a 0 testtags a.bz2") ≡ at 1 Compressed }
    ensures xz { refused (codes "repo a 0 testtags a.xz") ≡ at 1 Compressed }
    ensures zst { refused (codes "repo a 0 testtags a.zst") ≡ at 1 Compressed }
    ensures lzma { refused (codes "repo a 0 testtags a.lzma") ≡ at 1 Compressed }
    ensures not_at_the_end { due_in_folder (file_a ∷ []) (codes "repo a 0 testtags a.gz.repo") ≡ codes "d/a.gz.repo" ∷ [] }
    ensures no_text { refused (codes "repo a 0 testtags a" ++ 255 ∷ []) ≡ at 1 BadFileName }
    ensures compressed_first { refused (codes "repo a 0 testtags " ++ (255 ∷ codes ".xz")) ≡ at 1 Compressed }
    ensures no_text_not_due { due_in_folder [] (codes "repo a 0 testtags a" ++ 255 ∷ []) ≡ [] }
{}

/// Files: which are due, and by which names; a bad line of a file has the file's name and its own number.
pub fn files_of_scripts()
    ensures due { due_in_folder (file_a ∷ []) (codes "repo available 0 testtags a.repo") ≡ codes "d/a.repo" ∷ [] }
    ensures compressed { bad_line (given_in_folder [] (codes "repo available 0 testtags a.repo.gz")) ≡ Some (codes "d/case.t", 1, Compressed) }
    ensures not_due { due_in_folder [] (codes "repo available 0 testtags a.repo.gz") ≡ [] }
    ensures duplicate { due_in_folder [] (codes "repo a 0 empty\nrepo a 0 testtags a.repo") ≡ [] }
    ensures twice { due_in_folder (file_a ∷ file_a ∷ []) (codes "repo a 0 testtags a.repo\n\nrepo b 0 testtags a.repo") ≡ codes "d/a.repo" ∷ codes "d/a.repo" ∷ [] }
    ensures read { map_given (λ s. map (λ a. a.name) s.task.packages) (given_in_folder (file_a ∷ file_a ∷ []) (codes "repo a 0 empty\nrepo b 0 testtags a.repo\nrepo c 0 testtags a.repo")) ≡ Some (codes "A" ∷ codes "A" ∷ []) }
    ensures repos { map_given (λ s. map (λ a. a.repo) s.task.packages) (given_in_folder (file_a ∷ file_a ∷ []) (codes "repo a 0 empty\nrepo b 0 testtags a.repo\nrepo c 0 testtags a.repo")) ≡ Some (1 ∷ 2 ∷ []) }
    ensures changed { map_given (λ s. map (λ a. a.name) s.task.packages) (given_in_folder (file_a ∷ file_c ∷ []) (codes "repo a 0 empty\nrepo b 0 testtags a.repo\nrepo c 0 testtags a.repo")) ≡ Some (codes "A" ∷ codes "C" ∷ []) }
    ensures counted { map_given (λ s. s.bytes) (given_in_folder (file_a ∷ []) (codes "repo b 0 testtags a.repo")) ≡ Some 43 }
    ensures of_file { bad_line (given_in_folder (file_b ∷ []) (codes "repo b 0 testtags /b.repo\nfoo")) ≡ Some (codes "/b.repo", 2, MissingOperand) }
    ensures last_due { due_in_folder (file_a ∷ file_b ∷ []) (codes "repo a 0 testtags a.repo\nrepo b 0 testtags /b.repo\nrepo c 0 testtags a.repo") ≡ codes "d/a.repo" ∷ codes "/b.repo" ∷ [] }
    ensures bad_line_before { due_in_folder [] (codes "foo\nrepo c 0 testtags a.repo") ≡ [] }
    ensures inline { due_in_folder [] (codes "repo a 0 testtags <inline>") ≡ [] }
{}

/// Files of results: they are due as those of repositories are, count as these do, and no line of theirs is bad.
pub fn files_of_results()
    ensures due { due_in_folder (file_b ∷ file_a ∷ []) (codes "result order a.repo\nrepo a 0 testtags /b.repo") ≡ codes "d/a.repo" ∷ codes "/b.repo" ∷ [] }
    ensures not_due { due_in_folder [] (codes "result nosuch a.repo") ≡ [] }
    ensures second_not_due { due_in_folder (file_b ∷ []) (codes "result order a.repo\nresult order /b.repo") ≡ codes "d/a.repo" ∷ [] }
    ensures inline { due_in_folder [] (codes "result order <inline>") ≡ [] }
    ensures wanted { map_given (λ s. s.wanted) (given_in_folder (codes " b \n\n\ta" ∷ []) (codes "result order a.repo\n#>c")) ≡ Some (Some (codes "b" ∷ codes "a" ∷ [])) }
    ensures counted { map_given (λ s. s.bytes) (given_in_folder (file_b ∷ []) (codes "result order a.repo")) ≡ Some 44 }
{}
