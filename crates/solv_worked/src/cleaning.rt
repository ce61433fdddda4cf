//! What is cleaned with what is erased, and what nobody needs.
ghost use Rattle.std.specs.Prelude.{◌≡◌, ◌∷◌, [], true, false, codes};
ghost use Rattle.solv_pool.specs.Prelude.{catalog_of, installed_set, marks_of};
ghost use Rattle.solv_pool.specs.Cleaning.{touched, kept};
ghost use Rattle.solv_pool.specs.Needs.{needs};
ghost use Rattle.solv_pool.specs.declared.jobs.Choice.TheVariants.{Name, OneOf};
ghost use Rattle.solv_pool.specs.declared.jobs.Action.TheVariants.{Install, Erase, UserInstalled};
ghost use Rattle.solv_clean.specs.Unneeded.{users, unneeded};
ghost use Rattle.solv_lines.specs.LineSets.{line_set};
ghost use Rattle.solv_lines.specs.ResultLines.{solved_lines};
ghost use Rattle.solv_worked.specs.Lines.{placed, needs_alone};
ghost use Rattle.solv_worked.specs.Making.{job};
ghost use Rattle.solv_worked.specs.Cleaning.{three, recommended, supplemented, ring, of_the_system, cleaning};

/// Who needs whom among what is installed: by a requirement, by a recommendation, by a supplement that holds and not by one that does
/// not, and the system by a supplement.
pub fn who_needs_whom()
    ensures required { needs (catalog_of (three [])) (installed_set (catalog_of (three []))) 2 1 ≡ true }
    ensures not_the_other_way { needs (catalog_of (three [])) (installed_set (catalog_of (three []))) 1 2 ≡ false }
    ensures recommended { needs (catalog_of (recommended [])) (installed_set (catalog_of (recommended []))) 3 1 ≡ true }
    ensures supplemented { needs (catalog_of (supplemented [])) (installed_set (catalog_of (supplemented []))) 1 2 ≡ true }
    ensures not_supplemented { needs (catalog_of (supplemented [])) (installed_set (catalog_of (supplemented []))) 1 3 ≡ false }
    ensures by_the_system { needs (catalog_of (of_the_system [])) (installed_set (catalog_of (of_the_system []))) 0 1 ≡ true }
{}

/// What only an erased package needs goes with it, unless the user asked for it.
pub fn an_erased_package()
    ensures cleaned { (marks_of (three (cleaning (Name 1) ∷ []))).erased ≡ false ∷ true ∷ true ∷ false ∷ [] }
    ensures without { (marks_of (three (job Erase (Name 1) ∷ []))).erased ≡ false ∷ false ∷ true ∷ false ∷ [] }
    ensures asked { (marks_of (three (cleaning (Name 1) ∷ job UserInstalled (Name 0) ∷ []))).erased ≡ false ∷ false ∷ true ∷ false ∷ [] }
    ensures given_up_though_asked { (marks_of (three (cleaning (Name 1) ∷ job UserInstalled (Name 1) ∷ []))).erased ≡ false ∷ true ∷ true ∷ false ∷ [] }
    ensures touched { touched (catalog_of (three (cleaning (Name 1) ∷ []))) (three (cleaning (Name 1) ∷ [])).jobs ≡ 1 ∷ 2 ∷ [] }
    ensures kept { kept (catalog_of (three (cleaning (Name 1) ∷ []))) (three (cleaning (Name 1) ∷ [])).jobs (1 ∷ 2 ∷ []) ≡ 0 ∷ 3 ∷ [] }
{}

/// What is recommended is needed, and so stays.
pub fn a_recommended_package()
    ensures { (marks_of (recommended (cleaning (Name 1) ∷ []))).erased ≡ false ∷ false ∷ true ∷ false ∷ [] }
{}

/// What supplements an erased package goes with it; a supplement that does not hold is none.
pub fn a_supplement()
    ensures { (marks_of (supplemented (cleaning (Name 0) ∷ []))).erased ≡ false ∷ true ∷ true ∷ false ∷ [] }
{}

/// A ring that only what is erased needs goes whole.
pub fn a_ring()
    ensures { (marks_of (ring (cleaning (Name 2) ∷ []))).erased ≡ false ∷ true ∷ true ∷ true ∷ [] }
{}

/// What the system needs stays.
pub fn what_the_system_needs()
    ensures { (marks_of (of_the_system (cleaning (Name 1) ∷ []))).erased ≡ false ∷ false ∷ true ∷ [] }
{}

/// Of the installed packages those that the user asked for, and those that nobody needs.
pub fn nobody_needs()
    ensures users { users (catalog_of (three (job UserInstalled (Name 1) ∷ []))) (three (job UserInstalled (Name 1) ∷ [])).jobs (installed_set (catalog_of (three []))) ≡ 2 ∷ [] }
    ensures unneeded { unneeded (catalog_of (three (job UserInstalled (Name 1) ∷ []))) (three (job UserInstalled (Name 1) ∷ [])).jobs (installed_set (catalog_of (three []))) ≡ 3 ∷ [] }
    ensures by_install { users (catalog_of (three (job Install (Name 2) ∷ []))) (three (job Install (Name 2) ∷ [])).jobs (installed_set (catalog_of (three []))) ≡ 3 ∷ [] }
    ensures without_users { unneeded (catalog_of (ring [])) [] (installed_set (catalog_of (ring []))) ≡ 1 ∷ 2 ∷ 3 ∷ [] }
    ensures lines { line_set (solved_lines (catalog_of (three [])) (job UserInstalled (Name 1) ∷ []) needs_alone [] placed [] (0 ∷ 1 ∷ 2 ∷ 3 ∷ [])) ≡ codes "unneeded C-1-1.noarch@system" ∷ codes "userinstalled B-1-1.noarch@system" ∷ [] }
{}
