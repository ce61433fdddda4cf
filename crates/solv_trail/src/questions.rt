//! What a guide asks.
ghost use Rattle.std.specs.Prelude.{◌≡◌, ◌≤◌, ◌<◌, ◌++◌, ◌∷◌, [], pos, length, vec_capacity, vec_len};

use solv_pack::Lit;
use solv_pool::{DepId, JobNo, NameId, PackNo};

/// Why a package is asked for.
#[derive(Clone, Copy, PartialEq, Eq, Debug)]
pub enum Question {
    Job(JobNo),
    BestJob(JobNo),
    Keep(PackNo),
    BestUpdate(JobNo, PackNo),
    Requires(PackNo, DepId),
    Conflicts(PackNo, DepId),
    Recommends(PackNo, DepId),
    Supplements(NameId),
}

/// A package that is to be taken, and the question that it answers.
#[derive(Clone, Copy, PartialEq, Eq, Debug)]
pub struct Ask {
    pub pack: PackNo,
    pub question: Question,
}

/// The literal that a package is in.
pub fn taken(pack: PackNo) -> Lit
    requires some { 0 < pack }
    requires few { pack ≤ 1048575 }
    ensures { result ≡ pos pack }
{
    Lit::new(pack.0 as i32)
}

/// Appends a question where there is room.
pub fn keep_question(questions: &mut Vec<Question>, question: Question)
    requires { vec_len questions.old < vec_capacity questions.old }
    ensures items { questions.new.items ≡ questions.old.items ++ question ∷ [] }
    ensures room { vec_capacity questions.old ≤ vec_capacity questions.new }
{
    let _ = questions.push(question);
}
