// Which states the fit uses (document 01, "The fit"). Inner functions: for the crates above, not for users. Where one has a `requires`, each caller proves it.
// While paths are looked for, `NoPriceMove` is the mark of a state from which none is found yet.
#![tactic(auto)]

ghost use Rattle.std.specs.Prelude.{◌≡◌, true, false, ◌+◌, ◌*◌, ◌<◌, ◌≤◌, length};
ghost use Rattle.fit_marking.specs.Below.{sum_to};
ghost use Rattle.basics.specs.Lists.{cell_at};
ghost use Rattle.basics.specs.Domain.{counter_limit};
ghost use Rattle.fit_marking.specs.Marks.{observations, Marked};
ghost use Rattle.fit_marking.specs.Inner.{Fitting, row_of, has_positive, leads_out, first_mark, FirstMarks, Freed, Left, Turned};

use model::StateStatus;

// Row x of a table of n columns.
pub fn row(table: &[u64], n: usize, x: usize) -> &[u64]
    requires { x * n + n ≤ length table.now }
    ensures { result.now ≡ row_of n table.now x }
{
    &table[x * n..x * n + n]
}

// The sum of row x of a table of n columns. Of the table, here and below, and not of the row: the definitions say a cell by its place in the table.
fn row_sum(table: &[u64], n: usize, x: usize) -> u64
    requires { (x * n + n ≤ length table.now) × (sum_to n (cell_at n table.now x) ≤ 2 * counter_limit) }
    ensures { result ≡ sum_to n (cell_at n table.now x) }
{
    row(table, n, x).iter().sum()
}

// Whether a cell of row x is positive.
fn has_positive(table: &[u64], n: usize, x: usize) -> bool
    requires { x * n + n ≤ length table.now }
    ensures { result ≡ has_positive n table.now x }
{
    row(table, n, x).iter().any(|cell| 0 < *cell)
}

// Two tables of a cell for each two states: how many pairs of quotes lead from the one to the other, with the mid as it was, and with the mid moved.
#[derive(Clone, Copy)]
pub struct PairTables<'a> {
    pub states: usize,
    pub stay: &'a [u64],
    pub moved: &'a [u64],
    pub ghost fitting: { Fitting states stay.now moved.now },
}

impl PairTables<'_> {
    ghost use Rattle.fit_marking.specs.Tables.{cells_in};

    // The observations of state x, which do not depend on the least.
    pub fn observations_of(&self, x: usize) -> u64
        requires { x < self.now.states }
        ensures { result ≡ observations (cells_in self.now 0) x }
    {
        row_sum(self.stay, self.states, x) + row_sum(self.moved, self.states, x)
    }

    // Whether a positive stay cell leads from x to a Calibrated state.
    // That each state has a mark is asked here and below: a struct that lends the marks would owe, of each method that writes them, that its tables stay.
    fn leads_out(&self, marks: &[StateStatus], x: usize) -> bool
        requires { (x < self.now.states) × (self.now.states ≤ length marks.now) }
        ensures { result ≡ leads_out self.now.states self.now.stay.now marks.now x }
    {
        let cells = row(self.stay, self.states, x);
        cells.iter().zip(marks).any(|(cell, mark)| 0 < *cell && *mark == StateStatus::Calibrated)
    }

    // The mark of x by its own rows.
    fn first_mark(&self, least: u64, x: usize) -> StateStatus
        requires { x < self.now.states }
        ensures { result ≡ first_mark self.now.states least self.now.stay.now self.now.moved.now x }
    {
        if self.observations_of(x) < least {
            return StateStatus::Rare;
        }
        if has_positive(self.moved, self.states, x) {
            return StateStatus::Calibrated;
        }
        StateStatus::NoPriceMove
    }

    fn first_marks(&self, least: u64, marks: &mut [StateStatus])
        requires { self.now.states ≤ length marks.old }
        ensures { FirstMarks self.now.states least self.now.stay.now self.now.moved.now marks.old marks.new }
    {
        for (x, mark) in marks[..self.states].iter_mut().enumerate() {
            *mark = self.first_mark(least, x);
        }
    }

    // Frees x if no path is found from it yet and it leads out, and says whether it did.
    fn look_at(&self, marks: &mut [StateStatus], x: usize) -> bool
        requires { (x < self.now.states) × (self.now.states ≤ length marks.old) }
        ensures { (result ≡ true → Freed self.now.states self.now.stay.now marks.old marks.new x)
            × (result ≡ false → Left self.now.states self.now.stay.now marks.old marks.new x) }
    {
        if marks[x] != StateStatus::NoPriceMove {
            return false;
        }
        if !self.leads_out(marks, x) {
            return false;
        }
        marks[x] = StateStatus::Calibrated;
        true
    }

    // One turn through the states, which says whether it freed any.
    fn turn(&self, marks: &mut [StateStatus]) -> bool
        requires { self.now.states ≤ length marks.old }
        ensures { Turned self.now.states self.now.stay.now marks.old marks.new result }
    {
        let mut freed = false;
        for x in 0..self.states {
            if self.look_at(marks, x) {
                freed = true;
            }
        }
        freed
    }

    // Marks the states; marks after theirs are unchanged.
    pub fn mark_no_price_move(&self, least: u64, marks: &mut [StateStatus])
        requires { self.now.states ≤ length marks.old }
        ensures { Marked (cells_in self.now least) marks.old marks.new }
    {
        self.first_marks(least, marks);
        // No `for`: how many turns there are is not known before.
        while self.turn(marks) {}
    }
}
