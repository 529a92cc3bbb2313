// Document 02, Q-10: fits with other rounds than the defaults. Each line has the rounds of the series and of the share, the answer, the bits of state 0's
// adjustment and share and of state 2's share as they stand in the model table, which is all 9 before, and whether scratch, all 1.0 before, was kept or cleared.
#![tactic(auto)]

ghost use Rattle.std.specs.Prelude.{◌≤◌, length};

use calibrator::Record;
use config::MicroPriceConfig;
use fit_rounds::Rounds;
use refusals::Refusal;
use tally::TablesView;

fn setup(buckets: u64, spreads: u64) -> MicroPriceConfig {
    MicroPriceConfig::new(1, buckets, spreads)
        .with_min_state_observations(1)
        .with_max_quote_gap_ms(60_000)
}

fn with_pairs(pairs: u64) -> Record {
    let mut rec = Record::default();
    rec.counters.pairs = pairs;
    rec
}

fn rounds_of(series: u64, fallback: u64) -> Rounds {
    Rounds { series, fallback }
}

// The bits of 1.0.
const ONE: u64 = 0x3ff0_0000_0000_0000;

fn show_line(
    rt: &impl Print,
    rounds: Rounds,
    answer: Result<(), Refusal>,
    model: &[u64],
    scratch: &[f64],
)
    requires { 20 ≤ length model.now }
{
    let series = rounds.series;
    let fallback = rounds.fallback;
    let number = refusals::check_number(answer);
    let adjustment = model[4];
    let low = model[5];
    let high = model[19];
    let left = if scratch.iter().all(|x| floats::to_bits(*x) == ONE) {
        "kept"
    } else if scratch.iter().all(|x| floats::to_bits(*x) == 0) {
        "cleared"
    } else {
        "changed"
    };
    let _ = println!(rt;
        "{series} {fallback} {number} {adjustment:016x} {low:016x} {high:016x} {left}"
    );
}

// A series of 39 rounds: states 0 and 2 each move once to themselves and once to state 1.
fn show_slow(rt: &impl Print, rounds: Rounds) {
    let tables = TablesView {
        stay: &[0; 9],
        moved: &[1, 1, 0, 0, 0, 0, 0, 1, 1],
        move_half_ticks: &[-1, 0, 1],
    };
    let mut scratch = [1.0; 48];
    let mut model = [9; 21];
    let answer = fit::fit_counts_with(
        &with_pairs(2),
        tables,
        setup(3, 1),
        rounds,
        &mut scratch,
        &mut model,
    );
    show_line(rt, rounds, answer, &model, &scratch);
}

// Document 01's example, with these buckets and pairs in place of 3 and 1, and the scratch lent.
fn show_example(rt: &impl Print, rounds: Rounds, buckets: u64, pairs: u64, scratch: &mut [f64]) {
    let mut moved = [0; 36];
    moved[4] = 1;
    moved[16] = 1;
    let tables = TablesView {
        stay: &[0; 36],
        moved: &moved,
        move_half_ticks: &[-1, 0, 1, 0, 0, 0],
    };
    let mut model = [9; 42];
    let answer = fit::fit_counts_with(
        &with_pairs(pairs),
        tables,
        setup(buckets, 2),
        rounds,
        scratch,
        &mut model,
    );
    show_line(rt, rounds, answer, &model, scratch);
}

fn show_slow_all(rt: &impl Print) {
    show_slow(rt, rounds_of(38, 10));
    show_slow(rt, rounds_of(39, 10));
    show_slow(rt, Rounds::default());
    show_slow(rt, rounds_of(39, 0));
    show_slow(rt, rounds_of(39, 1));
    show_slow(rt, rounds_of(39, 100));
    show_slow(rt, rounds_of(39, 101));
    show_slow(rt, rounds_of(0, 10));
    show_slow(rt, rounds_of(10_001, 10));
    show_slow(rt, rounds_of(0x1_0000_0001, 10));
    show_slow(rt, rounds_of(0xffff_ffff_ffff_ffff, 10));
}

// The last two lend a scratch of one float less.
fn show_examples(rt: &impl Print) {
    show_example(rt, rounds_of(1, 10), 3, 1, &mut [1.0; 132]);
    show_example(rt, Rounds::default(), 3, 1, &mut [1.0; 132]);
    show_example(rt, rounds_of(0, 10), 4, 1, &mut [1.0; 132]);
    show_example(rt, rounds_of(0, 10), 3, 2, &mut [1.0; 132]);
    show_example(rt, rounds_of(1, 10), 3, 2, &mut [1.0; 132]);
    show_example(rt, rounds_of(0, 10), 3, 1, &mut [1.0; 131]);
    show_example(rt, rounds_of(1, 10), 3, 1, &mut [1.0; 131]);
}

fn main(rt: HostRuntime) {
    show_slow_all(&rt);
    show_examples(&rt);
}
