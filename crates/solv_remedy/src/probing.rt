//! What rules refute by unit propagation alone.
ghost use Rattle.std.specs.Prelude.{◌≡◌, length, IfOk};
ghost use Rattle.solv_trail.specs.Asked.{is_enabled};
ghost use Rattle.solv_questions.specs.Questions.{Request};
ghost use Rattle.solv_remedy.specs.Inner.Correcting.{AreRefutedBy};
ghost use Rattle.solv_remedy.specs.Inner.Runs.{IsOf};

use crate::laws::good_logs_refute_their_rules;
use crate::setting::Setting;
use solv_core::{Contradiction, Core, RefutedRule};
use solv_list::Items;
use solv_pack::RuleNo;
use std::alloc::AllocError;

/// The rules of these clauses that enabled ones refute without a decision, each with its derivation. Where those refute each other, there is none.
pub fn refuted_others(
    setting: &Setting<'_>,
    core: &mut Core<'_>,
    enabled: &[bool],
    clauses: &[RuleNo],
) -> Result<Items<RefutedRule>, AllocError>
    requires set_up { (r : Request) × IsOf r setting.now core.old.made }
    requires size { length enabled.now ≡ length setting.now.fixed.now }
    ensures same { core.new ≡ core.old }
    ensures refuted { (r : Request) → IsOf r setting.now core.old.made → IfOk result (AreRefutedBy r core.old.made (is_enabled enabled.now)) }
{
    good_logs_refute_their_rules();
    match core.refuted_by(enabled, clauses)? {
        Contradiction::Themselves(_) => Ok(Items::wrap(Vec::new(setting.alloc))),
        Contradiction::Others(found) => Ok(found),
    }
}
