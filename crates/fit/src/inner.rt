// Inner functions: for the crates above, not for users. Where one has a `requires`, each caller proves it.
ghost use Rattle.std.specs.Prelude.{◌≡◌, true, ◌+◌, ◌*◌, ◌<◌, ◌≤◌, length};
ghost use Rattle.fit_marking.specs.Below.{some_to};
ghost use Rattle.fit_marking.specs.Marks.{cells_of};
ghost use Rattle.fit_linear.specs.Inner.{from};
ghost use Rattle.fit_series.specs.Inner.{sum_at, share_at, solved_g1, Scratch};
ghost use Rattle.fit_system.specs.Rows.{used};
ghost use Rattle.fit_system.specs.Inner.{Marks};
ghost use Rattle.tally.specs.Lent.{tables_in};
ghost use Rattle.calibrator.specs.Record.{memory_with};
ghost use Rattle.fit_estimates.specs.Estimates.{solved_at};
ghost use Rattle.fit.specs.Inner.{Usable, FitEnds, check_slices};
ghost use Rattle.fit.specs.Fit.{judged_rows, fit_of, wrong_fit_lengths, fit_refusal_with, table_of, fit_answer, end_fit, fitted_with};

use calibrator::Record;
use config::MicroPriceConfig;
use fit_estimates::Solved;
use fit_marking::PairTables;
use fit_rounds::Rounds;
use fit_system::FitTables;
use model::{StateEstimate, StateStatus};
use refusals::Refusal;
use tally::TablesView;

// What a fit is given: its tables, the table of the states' mirrors, and the configuration's least observations, buckets and tick.
#[derive(Clone, Copy)]
struct FitInput<'a, 'm> {
    tables: FitTables<'a>,
    mirrors: &'m [usize],
    least: u64,
    buckets: u64,
    tick: u64,
    ghost usable: { Usable tables.pairs.states buckets tick tables.pairs.stay.now tables.pairs.moved.now mirrors.now },
}

// The same, and the marks of its states.
#[derive(Clone, Copy)]
struct MarkedInput<'a> {
    input: FitInput<'a, 'a>,
    marks: &'a [StateStatus],
    ghost marked: { Marks (cells_of input.tables.pairs.states input.least input.tables.pairs.stay.now input.tables.pairs.moved.now) marks.now },
}

// The same, and the scratch that its solution stands in.
#[derive(Clone, Copy)]
struct SolvedInput<'a> {
    marked: MarkedInput<'a>,
    scratch: &'a [f64],
    ghost laid: { Scratch marked.input.tables.pairs.states scratch.now },
}

impl SolvedInput<'_> {
    ghost use Rattle.fit.specs.InnerInput.{estimates_in};

    // What scratch has for state i and its mirror m.
    fn solved_in(&self, i: usize, m: usize) -> Solved
        requires { let n = self.now.marked.input.tables.pairs.states in (i < n) × (m < n) }
        ensures { let n = self.now.marked.input.tables.pairs.states in let l = self.now.scratch.now in
            result ≡ solved_at (λ k. m) (solved_g1 n l) (from (sum_at n) l) (from (share_at n) l) i }
    {
        let n = self.marked.input.tables.pairs.states;
        let w = 2 * n + 2;
        let sum = n * w;
        let first_own = self.scratch[i * w + n];
        let first_mirrored = self.scratch[m * w + n];
        let own = self.scratch[sum + i];
        let mirrored = self.scratch[sum + m];
        let share = self.scratch[sum + n + i];
        Solved {
            first_own,
            first_mirrored,
            own,
            mirrored,
            share,
        }
    }

    // The estimate of state i.
    #[inline(always)]
    fn state_estimate(&self, i: usize) -> StateEstimate
        requires { i < self.now.marked.input.tables.pairs.states }
        ensures { result ≡ estimates_in self.now i }
    {
        let input = self.marked.input;
        let solved = self.solved_in(i, input.mirrors[i]);
        let state = i as u64;
        fit_estimates::estimate_of(
            input.tick,
            state % input.buckets + 1,
            state / input.buckets + 1,
            self.marked.marks[i],
            input.tables.pairs.observations_of(i),
            solved,
        )
    }

    // 19 where a float of a state cannot be represented, 16 where no Calibrated state remains.
    fn judge_estimates(&self) -> Result<(), Refusal>
        ensures { result ≡ fit_answer (judged_rows self.now.marked.input.tables.pairs.states (estimates_in self.now)) }
    {
        let mut found = false;
        for i in 0..self.marked.input.tables.pairs.states {
            let e = self.state_estimate(i);
            if !fit_estimates::is_representable(e) {
                return Err(Refusal::Unrepresentable);
            }
            // `has_status` is of the model check, which no fit needs.
            found |= e.status == u64::from(StateStatus::Calibrated);
        }
        if !found {
            return Err(Refusal::NoCalibratedState);
        }
        Ok(())
    }

    // Writes the rows of the model table.
    fn write_estimates(&self, model: &mut [u64])
        requires { length model.old ≡ 7 * self.now.marked.input.tables.pairs.states }
        ensures { model.new ≡ table_of self.now.marked.input.tables.pairs.states (estimates_in self.now) }
    {
        for i in 0..self.marked.input.tables.pairs.states {
            let e = self.state_estimate(i);
            model::inner::write_row(model, i, e);
        }
    }
}

impl MarkedInput<'_> {
    ghost use Rattle.fit.specs.InnerInput.{input_in};

    // The fit of marked states, one of them Calibrated. It leaves its work in scratch.
    // Scratch and model table are lent each by itself, as document 01 has it, and what is asked of them is a clause of each function that writes them.
    fn fit_marked(
        &self,
        rounds: Rounds,
        scratch: &mut [f64],
        model: &mut [u64],
    ) -> Result<(), Refusal>
        requires { let n = self.now.input.tables.pairs.states in Scratch n scratch.old × (length model.old ≡ 7 * n) }
        ensures { let G = input_in self.now.input in some_to G.cells.states (used G.cells) ≡ true
            → FitEnds G.cells.states (fit_of rounds.series rounds.fallback G) model.old result model.new }
    {
        self.input.tables.solve_system(self.marks, rounds, scratch)?;
        let solved = SolvedInput {
            marked: *self,
            scratch,
        };
        solved.judge_estimates()?;
        solved.write_estimates(model);
        Ok(())
    }
}

impl FitInput<'_, '_> {
    ghost use Rattle.fit.specs.InnerInput.{input_in};

    // The fit of the states. It leaves its work in scratch.
    fn fit_states(
        &self,
        rounds: Rounds,
        scratch: &mut [f64],
        model: &mut [u64],
    ) -> Result<(), Refusal>
        requires { let n = self.now.tables.pairs.states in Scratch n scratch.old × (length model.old ≡ 7 * n) }
        ensures { let G = input_in self.now in FitEnds G.cells.states (fit_of rounds.series rounds.fallback G) model.old result model.new }
    {
        let pairs = self.tables.pairs;
        // Room for the most states: no heap.
        let mut marks = [StateStatus::Rare; 256];
        pairs.mark_no_price_move(self.least, &mut marks);
        if !marks[..pairs.states].contains(&StateStatus::Calibrated) {
            return Err(Refusal::NoCalibratedState);
        }
        let marked = MarkedInput {
            input: *self,
            marks: &marks,
        };
        marked.fit_marked(rounds, scratch, model)
    }
}

// Whether scratch or the model table has a wrong length.
pub fn wrong_fit_lengths(n: usize, scratch: usize, model: usize) -> bool
    requires { n ≤ 256 }
    ensures { result ≡ wrong_fit_lengths n scratch model }
{
    (scratch != n * (2 * n + 10)) | (model != 7 * n)
}

// Refusals 1 and 7. An evening asks it too.
pub fn check_lengths(
    config: MicroPriceConfig,
    tables: TablesView<'_>,
    scratch: usize,
    model: usize,
) -> Result<(), Refusal>
    ensures { result ≡ check_slices config (tables_in tables.entry) scratch model }
{
    calibrator::inner::check_table_lengths(
        config,
        tables.stay.len(),
        tables.moved.len(),
        tables.move_half_ticks.len(),
    )?;
    if wrong_fit_lengths(config::inner::state_count(config), scratch, model) {
        return Err(Refusal::SliceLength);
    }
    Ok(())
}

// Refusals 1 and 26, then 7, 6, 9, 10 and 11.
fn check_fit(
    rec: Record,
    tables: TablesView<'_>,
    config: MicroPriceConfig,
    rounds: Rounds,
    scratch: usize,
    model: usize,
) -> Result<(), Refusal>
    ensures { result ≡ fit_refusal_with rounds.series rounds.fallback config (memory_with rec (tables_in tables.entry)) scratch model }
{
    config.validate()?;
    if rounds.are_wrong() {
        return Err(Refusal::RoundsOutOfRange);
    }
    check_lengths(config, tables, scratch, model)?;
    count_check::check_tables(config, rec.counters, &tables)
}

// The work of `fit_counts_with` on a record by value; the operation is thin over it, as document 01 has it (docs/DECISIONS.md).
pub fn fit_counts_with(
    rec: Record,
    tables: TablesView<'_>,
    config: MicroPriceConfig,
    rounds: Rounds,
    scratch: &mut [f64],
    model: &mut [u64],
) -> Result<(), Refusal>
    ensures { end_fit result model.new scratch.new ≡ fitted_with rounds.series rounds.fallback config (memory_with rec (tables_in tables.entry)) model.old scratch.old }
{
    check_fit(rec, tables, config, rounds, scratch.len(), model.len())?;
    let mirrors = count_check::mirrors_of(config);
    let pairs = PairTables {
        states: config::inner::state_count(config),
        stay: tables.stay,
        moved: tables.moved,
    };
    let tables = FitTables {
        pairs,
        move_half_ticks: tables.move_half_ticks,
    };
    let input = FitInput {
        tables,
        mirrors: &mirrors,
        least: config.min_state_observations,
        buckets: config.imbalance_buckets,
        tick: config.tick_size,
    };
    let answer = input.fit_states(rounds, scratch, model);
    scratch.fill(0.0);
    answer
}
