// The rows of the fit and the solution of its system (document 01, "The fit").
// Inner functions: for the crates above, not for users. Where one has a `requires`, each caller proves it.
#![tactic(auto)]

ghost use Rattle.std.specs.Prelude.{◌≡◌, cond, ℕ, ℤ, ◌+◌, ◌*◌, ◌<◌, ◌≤◌, length, IfSome};
ghost use Rattle.std.specs.Float.{binary64};
ghost use Rattle.std.specs.Float.Ieee.{sub, neg};
ghost use Rattle.floats.specs.Floats.{one, exact_whole, from_int};
ghost use Rattle.model.specs.Status.{is_calibrated};
ghost use Rattle.fit_marking.specs.Marks.{observations, mark_of};
ghost use Rattle.fit_linear.specs.Inner.{float_at, Becomes, Filled};
ghost use Rattle.fit_series.specs.Inner.{Scratch, width};
ghost use Rattle.fit_system.specs.Rows.{system_of, total_of};
ghost use Rattle.fit_system.specs.Inner.{Exact, AllExact, observed_in, part_by, fallback_by, stay_part, moved_part, Marks, SolvedIn};
ghost use Rattle.fit_system.specs.Solution.{solution_of};

use fit_marking::PairTables;
use fit_rounds::Rounds;
use model::StateStatus;
use refusals::Refusal;

// A number of a row by its observations; zero for a fallback state, which has none. That the observations are exact is a clause here and
// below: as a float, each function would be given of which number it is one.
fn part_of(number: f64, observed: Option<u64>) -> f64
    requires { IfSome observed (λ o. o ≤ exact_whole) }
    ensures { (z : ℤ) → number ≡ from_int z → result ≡ part_by observed z }
{
    match observed {
        Some(observed) => number / floats::inner::from_u64(observed),
        None => 0.0,
    }
}

// A cell of 1 − Q.
fn less_stay(on_diagonal: bool, q: f64) -> f64
    ensures { result ≡ cond on_diagonal (sub binary64 one q) (neg q) }
{
    if on_diagonal {
        return 1.0 - q;
    }
    -q
}

// 1 for a fallback state, else 0.
fn fallback_of(observed: Option<u64>) -> f64
    ensures { result ≡ fallback_by observed }
{
    match observed {
        Some(_) => 0.0,
        None => 1.0,
    }
}

// 1 − Q of row x, by its stay cells. They are read by index: of what a `zip` over `iter_mut` writes, no clause of the library says anything.
fn fill_stay(cells: &[u64], x: usize, observed: Option<u64>, out: &mut [f64])
    requires { AllExact cells.now × IfSome observed (λ o. o ≤ exact_whole) × (length out.old ≡ length cells.now) }
    ensures { (k : ℕ) → k < length out.old → float_at out.new k ≡ stay_part cells.now x observed k }
{
    for (k, place) in out.iter_mut().enumerate() {
        let q = part_of(floats::inner::from_u64(cells[k]), observed);
        *place = less_stay(x == k, q);
    }
}

// T of a row, by its moved cells. Apart from `fill_stay`: with a closure for a cell, one function's clause would name what the closure promises of each k.
fn fill_moved(cells: &[u64], observed: Option<u64>, out: &mut [f64])
    requires { AllExact cells.now × IfSome observed (λ o. o ≤ exact_whole) × (length out.old ≡ length cells.now) }
    ensures { (k : ℕ) → k < length out.old → float_at out.new k ≡ moved_part cells.now observed k }
{
    for (k, place) in out.iter_mut().enumerate() {
        *place = part_of(floats::inner::from_u64(cells[k]), observed);
    }
}

// The tables of a fit: at most 256 states, each number exact as a float.
#[derive(Clone, Copy)]
pub struct FitTables<'a> {
    pub pairs: PairTables<'a>,
    pub move_half_ticks: &'a [i64],
    pub ghost exact: { Exact pairs.states pairs.stay.now pairs.moved.now move_half_ticks.now },
}

impl FitTables<'_> {
    ghost use Rattle.fit_marking.specs.Tables.{cells_in};

    // The observations of state x, if its mark is Calibrated; its row is used then.
    fn used_observations(&self, mark: StateStatus, x: usize) -> Option<u64>
        requires { x < self.now.pairs.states }
        ensures { result ≡ observed_in (is_calibrated mark) (observations (cells_in self.now.pairs 0) x) }
    {
        if mark == StateStatus::Calibrated {
            return Some(self.pairs.observations_of(x));
        }
        None
    }

    // The move total of state x.
    fn total_of(&self, x: usize) -> f64
        requires { x < self.now.pairs.states }
        ensures { result ≡ from_int (total_of self.now.move_half_ticks.now x) }
    {
        floats::inner::from_i64(self.move_half_ticks[x])
    }

    // Row x of the system, by its mark.
    fn fill_row(&self, mark: StateStatus, x: usize, scratch: &mut [f64])
        requires { let n = self.now.pairs.states in (x < n) × (n * width n ≤ length scratch.old) }
        ensures { (least : ℕ) → let C = cells_in self.now.pairs least in mark ≡ mark_of C x
            → Filled (x * width C.states) (width C.states) (system_of C (total_of self.now.move_half_ticks.now) x) scratch.old scratch.new }
    {
        let n = self.pairs.states;
        let observed = self.used_observations(mark, x);
        let total = self.total_of(x);
        let start = x * (2 * n + 2);
        let stay = fit_marking::row(self.pairs.stay, n, x);
        let moved = fit_marking::row(self.pairs.moved, n, x);
        fill_stay(stay, x, observed, &mut scratch[start..start + n]);
        scratch[start + n] = part_of(total, observed);
        scratch[start + (n + 1)] = fallback_of(observed);
        let after = start + (n + 2);
        fill_moved(moved, observed, &mut scratch[after..after + n]);
    }

    // The system, in n rows of 2 n + 2.
    fn fill_system(&self, marks: &[StateStatus], scratch: &mut [f64])
        requires { let n = self.now.pairs.states in n * width n ≤ length scratch.old }
        ensures { (least : ℕ) → let C = cells_in self.now.pairs least in Marks C marks.now
            → Becomes C.states (width C.states) (system_of C (total_of self.now.move_half_ticks.now)) scratch.old scratch.new }
    {
        for (x, mark) in marks.iter().enumerate().take(self.pairs.states) {
            self.fill_row(*mark, x, scratch);
        }
    }

    // Fills the system, solves it, sums the series and takes the share, in scratch.
    // That the marks are those of the cells stands in what is ensured, here and in `fill_system`: in a struct it would be asked of each caller.
    pub fn solve_system(
        &self,
        marks: &[StateStatus],
        rounds: Rounds,
        scratch: &mut [f64],
    ) -> Result<(), Refusal>
        requires { Scratch self.now.pairs.states scratch.old }
        ensures { (least : ℕ) → let C = cells_in self.now.pairs least in Marks C marks.now
            → SolvedIn C.states (solution_of rounds.series rounds.fallback C (total_of self.now.move_half_ticks.now)) result scratch.new }
    {
        let n = self.pairs.states;
        self.fill_system(marks, scratch);
        // By `else`, and no `map_err`: the proof would take each answer apart once more.
        let Ok(()) = fit_linear::inner::gauss_jordan(scratch, n, 2 * n + 2) else {
            return Err(Refusal::SingularTransitions);
        };
        let Ok(()) = fit_series::inner::sum_series(scratch, n, rounds.series as usize) else {
            return Err(Refusal::NotConverged);
        };
        fit_series::inner::fallback_within_moves(scratch, n, rounds.fallback as usize);
        Ok(())
    }
}
