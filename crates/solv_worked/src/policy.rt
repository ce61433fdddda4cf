//! The order of candidates.
ghost use Rattle.std.specs.Prelude.{◌≡◌, ◌∷◌, []};
ghost use Rattle.std.specs.declared.cmp.Ordering.TheVariants.{Less, Equal, Greater};
ghost use Rattle.solv_policy.specs.declared.policy.Asked.TheVariants.{Kept, Other};
ghost use Rattle.solv_worked.specs.Reading.{ordered_in, policy_in};
ghost use Rattle.solv_worked.specs.Tasks.{every_difference};

/// Each difference decides against the one after it, and against all further ones that can say otherwise: what stays installed,
/// then what is favoured, priority, architecture, whom no candidate obsoletes, the name that comes first, the greater EVR, what
/// is installed, and last the number.
pub fn each_difference_before_the_next()
    ensures stays { policy_in every_difference Other (3 ∷ 4 ∷ []) 4 3 ≡ Less }
    ensures favour { policy_in every_difference Other (2 ∷ 3 ∷ 5 ∷ []) 5 3 ≡ Less }
    ensures priority { policy_in every_difference Other (2 ∷ 6 ∷ []) 6 2 ≡ Less }
    ensures architecture { policy_in every_difference Other (3 ∷ 7 ∷ []) 7 3 ≡ Less }
    ensures not_obsoleted { policy_in every_difference Other (3 ∷ 8 ∷ []) 8 3 ≡ Less }
    ensures name { policy_in every_difference Other (1 ∷ 3 ∷ 9 ∷ []) 9 3 ≡ Less }
    ensures evr { policy_in every_difference Other (3 ∷ 10 ∷ []) 10 3 ≡ Less }
    ensures installed { policy_in every_difference Other (2 ∷ 3 ∷ []) 3 2 ≡ Less }
    ensures number { policy_in every_difference Other (2 ∷ 11 ∷ []) 2 11 ≡ Less }
    ensures itself { policy_in every_difference Other (2 ∷ []) 2 2 ≡ Equal }
{}

/// All of them in their order. Among all, 8 obsoletes 2, 10 and 11, and the installed 3 has the greatest priority.
pub fn all_in_their_order()
    ensures { ordered_in every_difference (1 ∷ 2 ∷ 3 ∷ 4 ∷ 5 ∷ 6 ∷ 7 ∷ 8 ∷ 9 ∷ 10 ∷ 11 ∷ []) ≡ 4 ∷ 5 ∷ 3 ∷ 6 ∷ 7 ∷ 1 ∷ 9 ∷ 8 ∷ 10 ∷ 2 ∷ 11 ∷ [] }
{}

/// Where a package is to be kept, its own name comes before one whose lowest candidate is lower.
pub fn the_kept_name_first()
    ensures kept { policy_in every_difference (Kept 3) (1 ∷ 2 ∷ []) 2 1 ≡ Less }
    ensures other { policy_in every_difference Other (1 ∷ 2 ∷ []) 2 1 ≡ Greater }
{}
