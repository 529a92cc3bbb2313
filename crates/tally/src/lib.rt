// Counting pairs into tables. Inner functions: for the crates above, not for users. Where one has a `requires`, each caller proves it.
#![tactic(auto)]

pub mod totals;

ghost use Rattle.std.specs.Prelude.{◌≡◌, not, false, ◌+◌, ◌*◌, ◌≤◌, ◌<◌, length, nat_abs, neg_ℤ};
ghost use Rattle.basics.specs.Lists.{cell_index};
ghost use Rattle.tally.specs.Totals.{add_at};
ghost use Rattle.tally.specs.Entries.{bump, enter_both, touched_over};
ghost use Rattle.tally.specs.Lent.{tables_of, tables_in, SameSlices};
ghost use Rattle.tally.specs.Inner.{forth_of, back_of, Placed, cells_over, totals_over, most_change};
ghost use Rattle.tally.specs.Limits.{over_counter};

use basics::{CELL_LIMIT, COUNTER_LIMIT};

// The three tables of a calibrator, flat, as they are lent to be counted into.
#[derive(Drop)]
pub struct LentTables<'a> {
    pub stay: &'a mut [u64],
    pub moved: &'a mut [u64],
    pub move_half_ticks: &'a mut [i64],
}

// The same, lent to be read.
#[derive(Clone, Copy)]
pub struct TablesView<'a> {
    pub stay: &'a [u64],
    pub moved: &'a [u64],
    pub move_half_ticks: &'a [i64],
}

impl LentTables<'_> {
    pub fn view(&self) -> TablesView<'_>
        ensures stay { result.stay.now ≡ self.now.stay.now }
        ensures moved { result.moved.now ≡ self.now.moved.now }
        ensures totals { result.move_half_ticks.now ≡ self.now.move_half_ticks.now }
    {
        TablesView {
            stay: self.stay,
            moved: self.moved,
            move_half_ticks: self.move_half_ticks,
        }
    }
}

// A counted pair and its mirror by their states, with the mid before and after in half ticks. Not `quotes::Pair`: this crate knows no quote, and takes any
// mirror.
#[derive(Clone, Copy, Debug, PartialEq, Eq)]
pub struct PairEntry {
    pub from: usize,
    pub to: usize,
    pub mirror_from: usize,
    pub mirror_to: usize,
    pub mid_from: u64,
    pub mid_to: u64,
}

// Whether a counter, whatever it is, may be added to.
pub fn may_count(counter: u64) -> bool
    ensures { result ≡ not (over_counter (counter + 1)) }
{
    counter < COUNTER_LIMIT
}

// The place of cell (i, j) in a flat table of n states. That an index is below a length or a number of states is a clause of each function that takes one.
pub fn cell(n: usize, i: usize, j: usize) -> usize
    requires { (n ≤ 256) × (i < n) × (j < n) }
    ensures { (result ≡ cell_index n i j) × (result < n * n) }
{
    i * n + j
}

// The cells' and the totals' functions stay two: at one place cells add up to two, totals cancel, and a generic `t[a] += x; t[b] += y;` would need each
// type's own condition in its contract.
fn cells_within(t: &[u64], a: usize, b: usize) -> bool
    requires { (a < length t.now) × (b < length t.now) }
    ensures { result ≡ not (cells_over t.now a b) }
{
    let twice = u64::from(a == b);
    (t[a] < CELL_LIMIT - twice) & (t[b] < CELL_LIMIT)
}

fn add_cells(t: &mut [u64], a: usize, b: usize)
    requires { (a < length t.old) × (b < length t.old) × (cells_over t.old a b ≡ false) }
    ensures { t.new ≡ bump (bump t.old a) b }
{
    t[a] += 1;
    t[b] += 1;
}

// At one place the change and its negative cancel.
fn totals_within(t: &[i64], a: usize, b: usize, d: i64) -> bool
    requires { (a < length t.now) × (b < length t.now) × (nat_abs d ≤ most_change) }
    ensures { result ≡ not (totals_over t.now a b d) }
{
    if a == b {
        return totals::is_within(t[a]);
    }
    totals::is_within_after(t[a], d) & totals::is_within_after(t[b], -d)
}

fn add_totals(t: &mut [i64], a: usize, b: usize, d: i64)
    requires { (a < length t.old) × (b < length t.old) × (nat_abs d ≤ most_change) × (totals_over t.old a b d ≡ false) }
    ensures { t.new ≡ add_at (add_at t.old a d) b (neg_ℤ d) }
{
    t[a] += d;
    t[b] -= d;
}

// Whether every touched cell and total would be within its limit after both entries.
pub fn pair_within(n: usize, tables: TablesView<'_>, e: PairEntry) -> bool
    requires { Placed n e (tables_in tables) }
    ensures { result ≡ not (touched_over n (forth_of e) (back_of e) (enter_both n (forth_of e) (back_of e) (tables_in tables.entry))) }
{
    let a = cell(n, e.from, e.to);
    let b = cell(n, e.mirror_from, e.mirror_to);
    let d = totals::change(e.mid_from, e.mid_to);
    let cells = if d == 0 { tables.stay } else { tables.moved };
    cells_within(cells, a, b) & totals_within(tables.move_half_ticks, e.from, e.mirror_from, d)
}

// Enters a pair and its mirror.
pub fn enter_pair(n: usize, tables: &mut LentTables<'_>, e: PairEntry)
    requires { Placed n e (tables_of tables.old)
        × (touched_over n (forth_of e) (back_of e) (enter_both n (forth_of e) (back_of e) (tables_of tables.old)) ≡ false) }
    ensures entered { tables_of tables.new ≡ enter_both n (forth_of e) (back_of e) (tables_of tables.old) }
    ensures same_slices { SameSlices tables.old tables.new }
{
    let a = cell(n, e.from, e.to);
    let b = cell(n, e.mirror_from, e.mirror_to);
    let d = totals::change(e.mid_from, e.mid_to);
    add_totals(tables.move_half_ticks, e.from, e.mirror_from, d);
    if d != 0 {
        add_cells(tables.moved, a, b);
    } else {
        add_cells(tables.stay, a, b);
    }
}
