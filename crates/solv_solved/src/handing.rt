//! What numbers name, copied into a caller's room.
ghost use Rattle.std.specs.Prelude.{◌≡◌, is_some};
ghost use Rattle.solv_solved.specs.Fillings.{filled_where, length_where, number_where};
ghost use Rattle.solv_solved.specs.Readings.{cycle_of, problem_rules, solution_count, solution_rules, solution_set};

use crate::filling::{fill, fill_packs};
use crate::outcomes::Held;

impl Held {
    /// Copies the first packages of the cycle of this number, as many as there is room for, and reports how many it has. Where the number names
    /// names none, nothing is written.
    pub fn read_cycle(&self, pre: bool, cycle: usize, into: &mut [u32], count: &mut usize) -> bool
        ensures named { result ≡ is_some (cycle_of pre self.now cycle) }
        ensures copied { into.new ≡ filled_where (cycle_of pre self.now cycle) into.old }
        ensures told { count.new ≡ length_where (cycle_of pre self.now cycle) count.old }
    {
        match self.cycles(pre).get(cycle) {
            Some(packs) => {
                fill_packs(into, packs.held());
                *count = packs.len();
                true
            }
            None => false,
        }
    }

    /// Copies the first rules of the problem of this number, as many as there is room for, and reports how many it has. Where the number
    /// names none, nothing is written.
    pub fn read_problem_rules(&self, problem: usize, into: &mut [usize], count: &mut usize) -> bool
        ensures named { result ≡ is_some (problem_rules self.now problem) }
        ensures copied { into.new ≡ filled_where (problem_rules self.now problem) into.old }
        ensures told { count.new ≡ length_where (problem_rules self.now problem) count.old }
    {
        match self.problem(problem) {
            Some(problem) => {
                fill(into, problem.rules.held());
                *count = problem.rules.len();
                true
            }
            None => false,
        }
    }

    /// Reports how many solutions the problem of this number has.
    pub fn read_solution_count(&self, problem: usize, count: &mut usize) -> bool
        ensures named { result ≡ is_some (solution_count self.now problem) }
        ensures told { count.new ≡ number_where (solution_count self.now problem) count.old }
    {
        match self.problem(problem) {
            Some(problem) => {
                *count = problem.solutions.len();
                true
            }
            None => false,
        }
    }

    /// Copies the first of the rules that a solution drops, likewise.
    pub fn read_solution_rules(
        &self,
        problem: usize,
        solution: usize,
        into: &mut [usize],
        count: &mut usize,
    ) -> bool
        ensures named { result ≡ is_some (solution_rules self.now problem solution) }
        ensures copied { into.new ≡ filled_where (solution_rules self.now problem solution) into.old }
        ensures told { count.new ≡ length_where (solution_rules self.now problem solution) count.old }
    {
        match self.solution(problem, solution) {
            Some(solution) => {
                fill(into, solution.dropped.held());
                *count = solution.dropped.len();
                true
            }
            None => false,
        }
    }

    /// Copies the first packages of the set of a solution, likewise.
    pub fn read_solution_set(
        &self,
        problem: usize,
        solution: usize,
        into: &mut [u32],
        count: &mut usize,
    ) -> bool
        ensures named { result ≡ is_some (solution_set self.now problem solution) }
        ensures copied { into.new ≡ filled_where (solution_set self.now problem solution) into.old }
        ensures told { count.new ≡ length_where (solution_set self.now problem solution) count.old }
    {
        match self.solution(problem, solution) {
            Some(solution) => {
                fill_packs(into, solution.set.held());
                *count = solution.set.len();
                true
            }
            None => false,
        }
    }
}
