//! Examples on which the definitions are evaluated.
ghost use Rattle.std.specs.Prelude.{◌≡◌, ◌∷◌, [], codes, pos, negsuc, true, false, Some, None, Ok, Err};
ghost use Rattle.solv_base.specs.declared.comparison.Cmp.{Cmp};
ghost use Rattle.solv_pool.specs.declared.jobs.Action.TheVariants.{Install, Erase, Update, Distupgrade, Lock, Verify, Multiversion, AllowUninstall, Noop, Favor, Disfavor, UserInstalled};
ghost use Rattle.solv_pool.specs.declared.tasks.Flags.{Flags};
ghost use Rattle.solv_commands.specs.Commas.{between_commas};
ghost use Rattle.solv_commands.specs.Commands.{repo, system, solverflags, namespace, disable, evrcmp, results, job, next_round, pkg, by_name, by_provides, one_of, all, nothing, no_job_flags};
ghost use Rattle.solv_worked.specs.Commands.{said, set_by, best_flag, cleaning_flag};
ghost use Rattle.solv_commands.specs.Numbers.{priority};
ghost use Rattle.solv_commands.specs.declared.causes.Cause.TheVariants.{BadWords, BadNumber, BadRepoType, BadNamespace, BadOperator, UnknownJob, UnknownJobFlag, FlagNotHere, UnknownSelection, UnknownLine};

/// Repositories, with files and empty.
pub fn repo_lines()
    ensures testtags { said (codes "repo a -1 testtags d/a.repo") ≡ Ok (repo (codes "a") (negsuc 0) (Some (codes "d/a.repo"))) }
    ensures empty { said (codes " repo\ta 99\tempty\r") ≡ Ok (repo (codes "a") (pos 99) None) }
    ensures no_type { said (codes "repo a 1") ≡ Err BadWords }
    ensures empty_with_file { said (codes "repo a x empty f") ≡ Err BadWords }
    ensures testtags_alone { said (codes "repo a x testtags") ≡ Err BadWords }
    ensures number_first { said (codes "repo a x other f") ≡ Err BadNumber }
    ensures other_type { said (codes "repo a 1 other") ≡ Err BadRepoType }
    ensures other_with_file { said (codes "repo a 1 other f") ≡ Err BadRepoType }
    ensures other_with_two { said (codes "repo a 1 other f g") ≡ Err BadWords }
{}

/// Systems, whose architecture and type are tried where the state is known.
pub fn system_lines()
    ensures with_repo { said (codes "system x86_64 rpm s") ≡ Ok (system (codes "x86_64") (codes "rpm") (Some (codes "s"))) }
    ensures without_repo { said (codes "system other deb") ≡ Ok (system (codes "other") (codes "deb") None) }
    ensures too_few { said (codes "system x86_64") ≡ Err BadWords }
    ensures too_many { said (codes "system x86_64 rpm s t") ≡ Err BadWords }
{}

/// Namespaces, what is disabled, and comparisons.
pub fn other_lines()
    ensures namespace { said (codes "namespace namespace:language(de) @SYSTEM A-1-1.noarch@s") ≡ Ok (namespace (codes "namespace:language(de)") (codes "@SYSTEM" ∷ codes "A-1-1.noarch@s" ∷ [])) }
    ensures no_package { said (codes "namespace namespace:language(de)") ≡ Err BadWords }
    ensures no_namespace { said (codes "namespace language(de) A") ≡ Err BadNamespace }
    ensures disable { said (codes "disable pkg A-1-1.noarch@s") ≡ Ok (disable (codes "A-1-1.noarch@s")) }
    ensures disable_name { said (codes "disable name A") ≡ Err BadWords }
    ensures evrcmp { said (codes "evrcmp 1.0~rc1 < 1.0") ≡ Ok (evrcmp (codes "1.0~rc1") (record { less = true; equal = false; greater = false }) (codes "1.0")) }
    ensures evrcmp_sign { said (codes "evrcmp 1 == 1") ≡ Err BadOperator }
    ensures evrcmp_words { said (codes "evrcmp 1 == 1 1") ≡ Err BadWords }
{}

/// Results, whose kinds are tried where the state is known: what they are is no matter here, nor what the file's name is.
pub fn result_lines()
    ensures file { said (codes "result transaction,order d/a.res") ≡ Ok (results (codes "transaction,order") (codes "d/a.res")) }
    ensures inline { said (codes "result\tproblems  <inline>\r") ≡ Ok (results (codes "problems") (codes "<inline>")) }
    ensures any_kind { said (codes "result ,nosuch a.gz") ≡ Ok (results (codes ",nosuch") (codes "a.gz")) }
    ensures no_file { said (codes "result transaction") ≡ Err BadWords }
    ensures no_word { said (codes "result") ≡ Err BadWords }
    ensures blank_between { said (codes "result transaction, problems a") ≡ Err BadWords }
{}

/// The line that begins a round is one word.
pub fn next_lines()
    ensures alone { said (codes "nextjob \r") ≡ Ok next_round }
    ensures another_word { said (codes "nextjob x") ≡ Err BadWords }
{}

/// Jobs, with their own texts.
pub fn job_lines()
    ensures install { said (codes "job install  name\tA >= 1 [forcebest]") ≡ Ok (job Install (by_name (codes "A" ∷ codes ">=" ∷ codes "1" ∷ [])) best_flag (codes "install name A >= 1 [forcebest]")) }
    ensures erase { said (codes "job erase pkg A-1-1.noarch@s") ≡ Ok (job Erase (pkg (codes "A-1-1.noarch@s")) no_job_flags (codes "erase pkg A-1-1.noarch@s")) }
    ensures noop { said (codes "job noop") ≡ Ok (job Noop nothing no_job_flags (codes "noop")) }
    ensures noop_of_all { said (codes "job noop all packages") ≡ Ok (job Noop all no_job_flags (codes "noop all packages")) }
    ensures one_word { said (codes "job install") ≡ Err BadWords }
    ensures no_word { said (codes "job") ≡ Err BadWords }
    ensures unknown { said (codes "job weakendeps name A [x]") ≡ Err UnknownJob }
    ensures flag_of_distupgrade { said (codes "job distupgrade all packages [x]") ≡ Err UnknownJobFlag }
    ensures best_of_distupgrade { said (codes "job distupgrade all packages [forcebest]") ≡ Err FlagNotHere }
    ensures distupgrade { said (codes "job distupgrade name A") ≡ Ok (job Distupgrade (by_name (codes "A" ∷ [])) no_job_flags (codes "distupgrade name A")) }
    ensures userinstalled { said (codes "job userinstalled name A") ≡ Ok (job UserInstalled (by_name (codes "A" ∷ [])) no_job_flags (codes "userinstalled name A")) }
{}

/// The other actions, and that `noop` may have a selection and no flag.
pub fn other_actions()
    ensures lock { said (codes "job lock name A") ≡ Ok (job Lock (by_name (codes "A" ∷ [])) no_job_flags (codes "lock name A")) }
    ensures verify { said (codes "job verify all packages") ≡ Ok (job Verify all no_job_flags (codes "verify all packages")) }
    ensures multiversion { said (codes "job multiversion provides a") ≡ Ok (job Multiversion (by_provides (codes "a" ∷ [])) no_job_flags (codes "multiversion provides a")) }
    ensures allowuninstall { said (codes "job allowuninstall pkg A-1.noarch@s") ≡ Ok (job AllowUninstall (pkg (codes "A-1.noarch@s")) no_job_flags (codes "allowuninstall pkg A-1.noarch@s")) }
    ensures disfavor { said (codes "job disfavor oneof A B") ≡ Ok (job Disfavor (one_of (codes "A" ∷ codes "B" ∷ [])) no_job_flags (codes "disfavor oneof A B")) }
    ensures flag_of_lock { said (codes "job lock name A [forcebest]") ≡ Err FlagNotHere }
    ensures flag_of_noop { said (codes "job noop [forcebest]") ≡ Err FlagNotHere }
{}

/// The flags of jobs, and that they come before the selection.
pub fn job_flags()
    ensures two { said (codes "job update all packages [forcebest,forcebest]") ≡ Ok (job Update all best_flag (codes "update all packages [forcebest,forcebest]")) }
    ensures empty { said (codes "job install all packages []") ≡ Err UnknownJobFlag }
    ensures empty_behind { said (codes "job install all packages [forcebest,]") ≡ Err UnknownJobFlag }
    ensures cleaning { said (codes "job erase name A [cleandeps]") ≡ Ok (job Erase (by_name (codes "A" ∷ [])) cleaning_flag (codes "erase name A [cleandeps]")) }
    ensures cleaning_twice { said (codes "job erase name A [cleandeps,cleandeps]") ≡ Ok (job Erase (by_name (codes "A" ∷ [])) cleaning_flag (codes "erase name A [cleandeps,cleandeps]")) }
    ensures cleaning_elsewhere { said (codes "job install all packages [forcebest,cleandeps]") ≡ Err FlagNotHere }
    ensures cleaning_what_is_named { said (codes "job userinstalled name A [cleandeps]") ≡ Err FlagNotHere }
    ensures best_of_erase { said (codes "job erase name A [forcebest,cleandeps]") ≡ Err FlagNotHere }
    ensures unknown_behind { said (codes "job install name A [cleandeps,x]") ≡ Err UnknownJobFlag }
    ensures first_counts { said (codes "job install all packages [x,cleandeps]") ≡ Err UnknownJobFlag }
    ensures elsewhere { said (codes "job erase other [forcebest]") ≡ Err FlagNotHere }
    ensures alone { said (codes "job install [forcebest]") ≡ Err UnknownSelection }
    ensures not_last { said (codes "job install oneof [forcebest] A") ≡ Ok (job Install (one_of (codes "[forcebest]" ∷ codes "A" ∷ [])) no_job_flags (codes "install oneof [forcebest] A")) }
    ensures one_bracket { said (codes "job install name [") ≡ Ok (job Install (by_name (codes "[" ∷ [])) no_job_flags (codes "install name [")) }
    ensures commas { between_commas (codes ",a,") ≡ [] ∷ codes "a" ∷ [] ∷ [] }
{}

/// Selections, and the words that they must have.
pub fn selections()
    ensures provides { said (codes "job favor provides a") ≡ Ok (job Favor (by_provides (codes "a" ∷ [])) no_job_flags (codes "favor provides a")) }
    ensures unknown { said (codes "job install repo a") ≡ Err UnknownSelection }
    ensures unknown_of_noop { said (codes "job noop other") ≡ Err UnknownSelection }
    ensures missing { said (codes "job install name [forcebest]") ≡ Err BadWords }
    ensures two_packages { said (codes "job install pkg A B") ≡ Err BadWords }
    ensures none_of_one { said (codes "job install oneof") ≡ Err BadWords }
    ensures all_of_what { said (codes "job install all") ≡ Err BadWords }
    ensures all_others { said (codes "job install all others") ≡ Err BadWords }
{}

/// Flags of the solver, which separators may stand between in any number.
pub fn solver_flags(flags: solv_pool::Flags)
    ensures line { said (codes "solverflags a ,b") ≡ Ok (solverflags (codes "a" ∷ codes ",b" ∷ [])) }
    ensures none { said (codes "solverflags") ≡ Ok (solverflags []) }
    ensures nothing { set_by (codes ", ,,") flags ≡ Some flags }
    ensures set { set_by (codes "allowdowngrade,,noinfarchcheck") flags ≡ Some (record flags { allow_downgrade = true; no_infarch_check = true }) }
    ensures cleared { set_by (codes "!allownamechange allowarchchange !allowarchchange") flags ≡ Some (record flags { allow_name_change = false; allow_arch_change = false }) }
    ensures others { set_by (codes "allowvendorchange allowuninstall,ignorerecommended") flags ≡ Some (record flags { allow_vendor_change = true; allow_uninstall = true; ignore_recommended = true }) }
    ensures unknown { set_by (codes "allowdowngrade focusbest") flags ≡ None }
    ensures sign_alone { set_by (codes "!") flags ≡ None }
    ensures two_signs { set_by (codes "!!allowdowngrade") flags ≡ None }
{}

/// Lines that are unknown.
pub fn unknown_lines()
    ensures unknown { said (codes "poolflags implicitobsoleteusesprovides") ≡ Err UnknownLine }
    ensures case_counts { said (codes "Repo a 1 empty") ≡ Err UnknownLine }
{}

/// Priorities.
pub fn priorities_of_words()
    ensures below { priority (codes "-99") ≡ Some (negsuc 98) }
    ensures least { priority (codes "-2147483648") ≡ Some (negsuc 2147483647) }
    ensures too_great { priority (codes "2147483648") ≡ None }
    ensures sign { priority (codes "+1") ≡ None }
    ensures fraction { priority (codes "0.5") ≡ None }
    ensures only_sign { priority (codes "-") ≡ None }
    ensures leading_zero { priority (codes "-007") ≡ Some (negsuc 6) }
{}
