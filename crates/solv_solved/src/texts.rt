//! Texts of what an answer names.
ghost use Rattle.std.specs.Prelude.{◌≡◌, ◌++◌, length, map, IfOk, OnOk};
ghost use Rattle.solv_io.specs.Lines.{ended_lines};
ghost use Rattle.solv_pool.specs.Prelude.{IsOver};
ghost use Rattle.solv_solved.specs.Texts.{package_count_of, repo_count_of, package_found, dep_text_in, dep_text_of, package_text_in, package_text_of, rule_text_in, rule_text_of, solution_text_in, solution_text_of};

use crate::outcomes::Held;
use crate::with_answer::Solved;
use solv_base::DepId;
use solv_deps::dep_text;
use solv_lines::{rule_text, solution_lines};
use solv_list::Bytes;
use solv_pool::{PackNo, Task};
use solv_remedy::Solution;
use std::alloc::{AllocError, Global};

/// The text of a package, where there is such.
fn package_text_in(alloc: Global, task: &Task, pack: u32) -> Result<Option<Bytes>, AllocError>
    requires { IsOver task.now.pool task.now.universe }
    ensures { IfOk result (λ text. text ≡ package_text_in task.now pack) }
{
    if pack > task.universe.count() {
        return Ok(None);
    }
    let mut text = Vec::new(alloc);
    task.universe
        .package_text(&task.pool, PackNo(pack), &mut text)?;
    Ok(Some(Bytes::wrap(text)))
}

/// The text of a dependency, where there is such.
fn dep_text_in(alloc: Global, task: &Task, dep: u32) -> Result<Option<Bytes>, AllocError>
    ensures { IfOk result (λ text. text ≡ dep_text_in task.now dep) }
{
    if dep as usize >= task.pool.relation_count() {
        return Ok(None);
    }
    let mut text = Vec::new(alloc);
    dep_text(&task.pool, DepId(dep), &mut text)?;
    Ok(Some(Bytes::wrap(text)))
}

/// Lines in one text, each ended by a line feed.
fn text_of_lines(alloc: Global, lines: &[Bytes]) -> Result<Bytes, AllocError>
    ensures { IfOk result (λ text. text ≡ ended_lines lines.now) }
{
    let mut text = Vec::new(alloc);
    for line in lines {
        text.extend_from_slice(line.held())?;
        text.push(b'\n')?;
    }
    Ok(Bytes::wrap(text))
}

impl Solved {
    /// The text of a hard rule, where there is such.
    fn rule_text(&self, alloc: Global, rule: usize) -> Result<Option<Bytes>, AllocError>
        ensures { IfOk result (λ text. text ≡ rule_text_in self.now.script.task rule) }
    {
        if rule >= self.rules.list.len() {
            return Ok(None);
        }
        let text = rule_text(alloc, &self.script.task, &self.prov, &self.rules, rule)?;
        Ok(Some(text))
    }

    /// The text of a solution.
    fn solution_text(&self, alloc: Global, solution: &Solution) -> Result<Bytes, AllocError>
        ensures { IfOk result (λ text. text ≡ solution_text_in self.now.script.task solution.now) }
    {
        let (dropped, set) = (solution.dropped.held(), solution.set.held());
        let lines = solution_lines(alloc, &self.script.task, &self.rules, dropped, set)?;
        text_of_lines(alloc, &lines)
    }
}

impl Held {
    /// How many packages there are besides the system. A refusal has none.
    pub fn package_count(&self) -> u32
        ensures { result ≡ package_count_of self.now }
    {
        match self {
            Held::Answered(solved) => solved.script.task.universe.count(),
            Held::Refused(_) => 0,
            Held::Open(opened) => opened.draft.task.universe.count(),
        }
    }

    /// How many repositories there are. A refusal has none.
    pub fn repo_count(&self) -> usize
        ensures { result ≡ repo_count_of self.now }
    {
        match self {
            Held::Answered(solved) => solved.script.task.universe.repos(),
            Held::Refused(_) => 0,
            Held::Open(opened) => opened.draft.task.universe.repos(),
        }
    }

    /// The number of the package with this text, the lowest of several; of the system 0.
    pub fn find_package(&self, text: &[u8]) -> Option<PackNo>
        ensures { result ≡ package_found self.now text.now }
    {
        match self {
            Held::Answered(solved) => {
                let task = &solved.script.task;
                task.universe.find(&task.pool, text)
            }
            Held::Refused(_) => None,
            Held::Open(opened) => {
                let task = &opened.draft.task;
                task.universe.find(&task.pool, text)
            }
        }
    }

    /// The text of a package, `name-evr.arch@repository`; of number 0 it is `@SYSTEM`. A number that no package has has none, nor has a refusal.
    pub fn package_text(&self, alloc: Global, pack: u32) -> Result<Option<Bytes>, AllocError>
        ensures { IfOk result (λ text. text ≡ package_text_of self.now pack) }
    {
        match self {
            Held::Answered(solved) => package_text_in(alloc, &solved.script.task, pack),
            Held::Refused(_) => Ok(None),
            Held::Open(opened) => package_text_in(alloc, &opened.draft.task, pack),
        }
    }

    /// The text of a dependency, where the number is one. A refusal has none.
    pub fn dep_text(&self, alloc: Global, dep: u32) -> Result<Option<Bytes>, AllocError>
        ensures { IfOk result (λ text. text ≡ dep_text_of self.now dep) }
    {
        match self {
            Held::Answered(solved) => dep_text_in(alloc, &solved.script.task, dep),
            Held::Refused(_) => Ok(None),
            Held::Open(opened) => dep_text_in(alloc, &opened.draft.task, dep),
        }
    }

    /// What is said of the hard rule of this number, where there is such.
    pub fn rule_text(&self, alloc: Global, rule: usize) -> Result<Option<Bytes>, AllocError>
        ensures { IfOk result (λ text. text ≡ rule_text_of self.now rule) }
    {
        match self {
            Held::Answered(solved) => solved.rule_text(alloc, rule),
            Held::Refused(_) | Held::Open(_) => Ok(None),
        }
    }

    /// What is said of a solution, a line for each thing that it does.
    pub fn solution_text(
        &self,
        alloc: Global,
        problem: usize,
        solution: usize,
    ) -> Result<Option<Bytes>, AllocError>
        ensures { IfOk result (λ text. text ≡ solution_text_of self.now problem solution) }
    {
        match (self, self.solution(problem, solution)) {
            (Held::Answered(solved), Some(solution)) => {
                let text = solved.solution_text(alloc, solution)?;
                Ok(Some(text))
            }
            _ => Ok(None),
        }
    }
}
