//! Texts and lines of a task that is written out: each clause is computed from the definitions.
ghost use Rattle.std.specs.Prelude.{◌≡◌, ◌∷◌, [], map, codes};
ghost use Rattle.std.specs.List.{range_with_len};
ghost use Rattle.solv_trail.specs.declared.questions.Question.TheVariants as question;
ghost use Rattle.solv_pool.specs.Prelude.{catalog_of};
ghost use Rattle.solv_lines.specs.Inner.RuleTexts.{rule_text_at};
ghost use Rattle.solv_lines.specs.Comparing.{missing_lines};
ghost use Rattle.solv_lines.specs.LineSets.{line_set};
ghost use Rattle.solv_lines.specs.Inner.LineSets.{rises};
ghost use Rattle.solv_lines.specs.Inner.ResultLines.{outcome_lines, problems_lines};
ghost use Rattle.solv_lines.specs.ResultLines.{seven_digits, question_word, solved_lines};
ghost use Rattle.solv_worked.specs.Lines.{spoken, told, made, placed, happened, listing, solved_by, way, said_of, both_kinds, no_kinds, problems_alone, order_alone, reason_alone};
ghost use Rattle.solv_lines.specs.declared.outcomes.Outcome.TheVariants.{Spent};

/// The texts of rules of every kind, what is said of a requirement that nothing meets, and of a job that selects nothing, by
/// a name and by all packages.
pub fn rows_of_rule_texts()
    ensures of_packages { map (rule_text_at spoken told) (range_with_len 0 8) ≡ codes "package P-1-1.i686@available is not installable" ∷ codes "package B-1-1.noarch@system requires A, but none of the providers can be installed" ∷ codes "nothing provides missing needed by A-2-1.noarch@available" ∷ codes "package C-1-1.noarch@available conflicts with A < 2-1 provided by A-1-1.noarch@system" ∷ codes "package C-1-1.noarch@available conflicts with A & B" ∷ codes "package C-1-1.noarch@available obsoletes A provided by A-1-1.noarch@system" ∷ codes "cannot install both A-1-1.noarch@system and A-2-1.noarch@available" ∷ codes "P-1-1.i686@available has inferior architecture" ∷ [] }
    ensures of_a_distribution_upgrade { rule_text_at spoken told 22 ≡ codes "problem with installed package B-1-1.noarch@system" }
    ensures of_jobs { map (rule_text_at spoken told) (range_with_len 8 9) ≡ codes "problem with installed package B-1-1.noarch@system" ∷ codes "problem with installed package B-1-1.noarch@system" ∷ codes "nothing provides requested nosuch" ∷ codes "conflicting requests" ∷ codes "conflicting requests" ∷ codes "conflicting requests" ∷ codes "conflicting requests" ∷ codes "cannot install the best candidate for the job" ∷ codes "cannot install the best update candidate for package B-1-1.noarch@system" ∷ [] }
{}

/// The lines of an outcome are sorted by bytes, and a line that two rules give is there once; the tenth problem comes
/// before the second.
pub fn rows_of_result_lines()
    ensures changes { line_set (solved_lines (catalog_of spoken) spoken.jobs both_kinds made placed happened (0 ∷ 1 ∷ 3 ∷ [])) ≡ codes "change B-1-1.noarch@system C-1-1.noarch@available" ∷ codes "downgrade A-2-1.noarch@available A-1-1.noarch@system" ∷ codes "erase B-1-1.noarch@system" ∷ codes "install P-1-1.i686@available" ∷ codes "obsolete A-1-1.noarch@system C-1-1.noarch@available" ∷ codes "reinstall B-1-1.noarch@system B-1-1.noarch@system" ∷ codes "upgrade A-1-1.noarch@system A-2-1.noarch@available" ∷ [] }
    ensures problem { line_set (problems_lines spoken told both_kinds (listing (1 ∷ 8 ∷ 9 ∷ 13 ∷ []) ∷ [])) ≡ codes "problem 1 info conflicting requests" ∷ codes "problem 1 info package B-1-1.noarch@system requires A, but none of the providers can be installed" ∷ codes "problem 1 info problem with installed package B-1-1.noarch@system" ∷ [] }
    ensures problems { line_set (problems_lines spoken told both_kinds (listing [] ∷ listing (10 ∷ []) ∷ listing [] ∷ listing [] ∷ listing [] ∷ listing [] ∷ listing [] ∷ listing [] ∷ listing [] ∷ listing (10 ∷ []) ∷ [])) ≡ codes "problem 10 info nothing provides requested nosuch" ∷ codes "problem 2 info nothing provides requested nosuch" ∷ [] }
    ensures no_changes { solved_lines (catalog_of spoken) spoken.jobs problems_alone made placed happened (0 ∷ 1 ∷ 3 ∷ []) ≡ [] }
    ensures no_problems { problems_lines spoken told no_kinds (listing (1 ∷ []) ∷ []) ≡ [] }
    ensures spent { outcome_lines spoken told both_kinds Spent ≡ [] }
    ensures sorted { line_set (codes "b" ∷ codes "a" ∷ codes "ab" ∷ codes "b" ∷ []) ≡ codes "a" ∷ codes "ab" ∷ codes "b" ∷ [] }
{}

/// The lines of an order, of parts and cycles; and of reasons, of each package that comes and of no other one, by its event.
pub fn rows_of_orders_and_reasons()
    ensures order { line_set (solved_lines (catalog_of spoken) spoken.jobs order_alone made placed happened (0 ∷ 1 ∷ 3 ∷ 4 ∷ [])) ≡ codes "cycle B-1-1.noarch@system C-1-1.noarch@available A-2-1.noarch@available" ∷ codes "order 0000001 install C-1-1.noarch@available" ∷ codes "order 0000002 install A-2-1.noarch@available" ∷ codes "order 0000003 erase B-1-1.noarch@system" ∷ codes "precycle C-1-1.noarch@available A-2-1.noarch@available" ∷ [] }
    ensures reasons { line_set (solved_lines (catalog_of spoken) spoken.jobs reason_alone made placed happened (0 ∷ 1 ∷ 3 ∷ 4 ∷ 5 ∷ 6 ∷ [])) ≡ codes "reason A-1-1.i686@available recommended" ∷ codes "reason A-2-1.noarch@available follows" ∷ codes "reason C-1-1.noarch@available job" ∷ codes "reason P-1-1.i686@available requires" ∷ [] }
    ensures words { map question_word (question.BestJob 0 ∷ question.Keep 1 ∷ question.BestUpdate 0 1 ∷ question.Conflicts 1 0 ∷ question.Supplements 0 ∷ []) ≡ codes "job" ∷ codes "update" ∷ codes "update" ∷ codes "conflicts" ∷ codes "supplemented" ∷ [] }
    ensures digits { map seven_digits (1 ∷ 1234567 ∷ 12345678 ∷ []) ≡ codes "0000001" ∷ codes "1234567" ∷ codes "12345678" ∷ [] }
{}

/// The lines that are wanted and not given, in byte order; with the two exchanged, those that are given and not wanted; a
/// line that begins another one is another line.
pub fn rows_of_compared_lines()
    ensures missing { missing_lines (codes "a" ∷ codes "ab" ∷ codes "c" ∷ codes "d" ∷ []) (codes "ab" ∷ codes "abc" ∷ codes "b" ∷ codes "d" ∷ []) ≡ codes "a" ∷ codes "c" ∷ [] }
    ensures extra { missing_lines (codes "ab" ∷ codes "abc" ∷ codes "b" ∷ codes "d" ∷ []) (codes "a" ∷ codes "ab" ∷ codes "c" ∷ codes "d" ∷ []) ≡ codes "abc" ∷ codes "b" ∷ [] }
    ensures none_given { missing_lines (codes "a" ∷ codes "b" ∷ []) [] ≡ codes "a" ∷ codes "b" ∷ [] }
    ensures the_same { missing_lines (codes "a" ∷ codes "b" ∷ []) (codes "a" ∷ codes "b" ∷ []) ≡ [] }
{}

/// The texts of solutions, one for each kind of rule that may be dropped: an update rule alone names what may take the
/// package's place, if the set has it, and beside the package's feature rule it is printed with that; so it is with the rule on
/// its distribution upgrade, which says that the package stays, or goes. A rule that may not be
/// dropped, and a number after the last one, have no text.
pub fn rows_of_solution_texts()
    ensures inferior { said_of (7 ∷ []) (0 ∷ []) ≡ codes "allow P-1-1.i686@available" ∷ [] }
    ensures erased { said_of (9 ∷ []) (0 ∷ 1 ∷ []) ≡ codes "erase B-1-1.noarch@system" ∷ [] }
    ensures erased_once { said_of (8 ∷ 9 ∷ []) (0 ∷ 1 ∷ []) ≡ codes "erase B-1-1.noarch@system" ∷ [] }
    ensures replaced { said_of (20 ∷ []) (0 ∷ 1 ∷ 2 ∷ 3 ∷ 4 ∷ []) ≡ codes "replace A-1-1.noarch@system C-1-1.noarch@available" ∷ [] }
    ensures replaced_by_none { said_of (20 ∷ []) (0 ∷ 1 ∷ 2 ∷ []) ≡ codes "erase A-1-1.noarch@system" ∷ [] }
    ensures jobs { said_of (10 ∷ 13 ∷ 14 ∷ []) (0 ∷ []) ≡ codes "deljob install name nosuch" ∷ codes "deljob erase name A" ∷ codes "deljob erase name A" ∷ [] }
    ensures best_job { said_of (19 ∷ []) (0 ∷ []) ≡ codes "dropbest install name A [forcebest]" ∷ [] }
    ensures best_update { said_of (16 ∷ []) (0 ∷ []) ≡ codes "keepold B-1-1.noarch@system" ∷ [] }
    ensures kept { said_of (range_with_len 0 7) (0 ∷ []) ≡ [] }
    ensures stays { said_of (22 ∷ []) (0 ∷ 2 ∷ []) ≡ codes "keep B-1-1.noarch@system" ∷ [] }
    ensures goes { said_of (22 ∷ []) (0 ∷ 1 ∷ []) ≡ codes "erase B-1-1.noarch@system" ∷ [] }
    ensures goes_once { said_of (9 ∷ 22 ∷ []) (0 ∷ 2 ∷ []) ≡ codes "erase B-1-1.noarch@system" ∷ [] }
    ensures behind { said_of (23 ∷ 100 ∷ []) (0 ∷ []) ≡ [] }
{}

/// The lines of problems with their solutions: an erase job of what an installed package requires, an install job of a
/// package of an inferior architecture, and one that asks for the best.
pub fn rows_of_problems()
    ensures needed { line_set (problems_lines spoken told both_kinds (solved_by (1 ∷ 8 ∷ 9 ∷ 13 ∷ []) (way (8 ∷ 9 ∷ []) (0 ∷ []) ∷ way (13 ∷ []) (0 ∷ 1 ∷ 2 ∷ []) ∷ []) ∷ [])) ≡ codes "problem 1 info conflicting requests" ∷ codes "problem 1 info package B-1-1.noarch@system requires A, but none of the providers can be installed" ∷ codes "problem 1 info problem with installed package B-1-1.noarch@system" ∷ codes "problem 1 solution 1 erase B-1-1.noarch@system" ∷ codes "problem 1 solution 2 deljob erase name A" ∷ [] }
    ensures inferior { line_set (problems_lines spoken told both_kinds (solved_by (17 ∷ 18 ∷ []) (way (17 ∷ []) (0 ∷ 6 ∷ []) ∷ way (18 ∷ []) (0 ∷ []) ∷ []) ∷ [])) ≡ codes "problem 1 info A-1-1.i686@available has inferior architecture" ∷ codes "problem 1 info conflicting requests" ∷ codes "problem 1 solution 1 allow A-1-1.i686@available" ∷ codes "problem 1 solution 2 deljob install pkg A-1-1.i686@available" ∷ [] }
    ensures best { line_set (problems_lines spoken told both_kinds (listing [] ∷ solved_by (19 ∷ []) (way (19 ∷ []) (0 ∷ []) ∷ []) ∷ [])) ≡ codes "problem 2 info cannot install the best candidate for the job" ∷ codes "problem 2 solution 1 dropbest install name A [forcebest]" ∷ [] }
    ensures no_problems { problems_lines spoken told no_kinds (solved_by (19 ∷ []) (way (19 ∷ []) (0 ∷ []) ∷ []) ∷ []) ≡ [] }
{}
