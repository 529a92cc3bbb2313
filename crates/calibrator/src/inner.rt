// The work by value, for Rattle callers, and the functions that it is made of. Beside the operations, which are thin over it: docs/DECISIONS.md.
// `new` and `observe` ask nothing; where another has a `requires`, each caller proves it.
ghost use Rattle.std.specs.Prelude.{◌≡◌, false, ◌≤◌, ◌<◌};
ghost use Rattle.basics.specs.Domain.{counter_limit};
ghost use Rattle.config.specs.Configuration.{states};
ghost use Rattle.config.specs.Inner.{Valid};
ghost use Rattle.quotes.specs.Neighbours.{neighbours_of};
ghost use Rattle.quotes.specs.Inner.{Accepted};
ghost use Rattle.quotes.specs.Quotes.{check_quote};
ghost use Rattle.tally.specs.Entries.{Tables};
ghost use Rattle.tally.specs.Events.{skip};
ghost use Rattle.tally.specs.Lent.{tables_of, SameSlices};
ghost use Rattle.calibrator.specs.Record.{memory_with, kind_of, left_by};
ghost use Rattle.calibrator.specs.declared.Record.{Record};
ghost use Rattle.calibrator.specs.Inner.{skip_count, add_skip, add_pair, accepted, unless_refused, entry_of, Countable, judge_pair, counted_as};
ghost use Rattle.calibrator.specs.Observe.{event_from, wrong_lengths, check_table_lengths, lent_wrong, made, observed};

use super::{Counters, Record};
use config::MicroPriceConfig;
use quotes::{Pair, Skip, TopOfBook};
use refusals::Refusal;
use tally::{LentTables, PairEntry};

// Of lengths alone, here and in the next: a caller need not have the tables.
pub fn wrong_lengths(n: usize, stay: usize, moved: usize, move_half_ticks: usize) -> bool
    requires { n ≤ 256 }
    ensures { result ≡ wrong_lengths n stay moved move_half_ticks }
{
    let cells = n * n;
    (stay != cells) | (moved != cells) | (move_half_ticks != n)
}

// The first of refusals 1 and 7.
pub fn check_table_lengths(
    config: MicroPriceConfig,
    stay: usize,
    moved: usize,
    move_half_ticks: usize,
) -> Result<(), Refusal>
    ensures { result ≡ check_table_lengths config stay moved move_half_ticks }
{
    config.validate()?;
    if wrong_lengths(
        config::inner::state_count(config),
        stay,
        moved,
        move_half_ticks,
    ) {
        return Err(Refusal::SliceLength);
    }
    Ok(())
}

// The first of refusals 8, 2, 3, 4 and 5 where there is a last quote.
fn judge_pair(config: MicroPriceConfig, last: TopOfBook, quote: TopOfBook) -> Result<(), Refusal>
    requires { 1 ≤ config.tick_size }
    ensures { result ≡ judge_pair config last quote }
{
    quotes::inner::check_quote(config, last).map_err(|_| Refusal::LastQuoteBroken)?;
    quotes::inner::check_quote(config, quote)?;
    if quote.timestamp_ms < last.timestamp_ms {
        return Err(Refusal::EarlierTime);
    }
    Ok(())
}

fn accept(counters: Counters, quote: TopOfBook) -> Record
    ensures { result ≡ accepted counters quote }
{
    Record {
        previous: Some(quote),
        counters,
    }
}

fn skip_count(counters: Counters, kind: Skip) -> u64
    ensures { result ≡ skip_count counters kind }
{
    match kind {
        Skip::Gap => counters.skipped_gap_pairs,
        Skip::Spread => counters.skipped_spread_pairs,
    }
}

fn with_skip(counters: Counters, kind: Skip) -> Counters
    requires { skip_count counters kind < counter_limit }
    ensures { result ≡ add_skip counters kind }
{
    let mut next = counters;
    match kind {
        Skip::Gap => {
            next.skipped_gap_pairs = counters.skipped_gap_pairs + 1;
        }
        Skip::Spread => {
            next.skipped_spread_pairs = counters.skipped_spread_pairs + 1;
        }
    }
    next
}

fn with_pair(counters: Counters, e: PairEntry) -> Counters
    requires { counters.pairs < counter_limit }
    ensures { result ≡ add_pair counters e }
{
    let mut next = counters;
    next.pairs = counters.pairs + 1;
    let size = tally::totals::distance(e.mid_from, e.mid_to);
    next.largest_move_half_ticks = counters.largest_move_half_ticks.max(size);
    next
}

fn entry_of(pair: Pair) -> PairEntry
    ensures { result ≡ entry_of pair }
{
    let from = pair.from;
    let to = pair.to;
    PairEntry {
        from: from.state,
        to: to.state,
        mirror_from: from.mirror,
        mirror_to: to.mirror,
        mid_from: pair.mid_from,
        mid_to: pair.mid_to,
    }
}

// Counts two neighbours that are skipped.
fn skip_pair(
    rec: Record,
    config: MicroPriceConfig,
    quote: TopOfBook,
    kind: Skip,
) -> Result<Record, Refusal>
    ensures { (t : Tables) → left_by rec result t ≡ counted_as config (memory_with rec t) quote (skip (kind_of kind)) }
{
    let counters = rec.counters;
    if tally::may_count(skip_count(counters, kind)) {
        return Ok(accept(with_skip(counters, kind), quote));
    }
    Err(Refusal::CountLimit)
}

// Counts two neighbours that are a pair. The tables' lengths are a clause: a struct of tables and configuration would be made anew in each operation, after
// refusal 7.
fn count_pair(
    rec: Record,
    tables: &mut LentTables<'_>,
    config: MicroPriceConfig,
    quote: TopOfBook,
    pair: Pair,
) -> Result<Record, Refusal>
    requires { Valid config × Countable config pair × (lent_wrong (states config) (tables_of tables.old) ≡ false) }
    ensures left { left_by rec result (tables_of tables.new) ≡ counted_as config (memory_with rec (tables_of tables.old)) quote (event_from (Ok pair)) }
    ensures same_slices { SameSlices tables.old tables.new }
{
    let n = config::inner::state_count(config);
    let e = entry_of(pair);
    let counters = rec.counters;
    if !tally::may_count(counters.pairs) {
        return Err(Refusal::CountLimit);
    }
    if !tally::pair_within(n, tables.view(), e) {
        return Err(Refusal::CountLimit);
    }
    tally::enter_pair(n, tables, e);
    Ok(accept(with_pair(counters, e), quote))
}

// A quote after another, under a valid configuration and in tables of its lengths.
fn next_quote(
    rec: Record,
    tables: &mut LentTables<'_>,
    config: MicroPriceConfig,
    last: TopOfBook,
    quote: TopOfBook,
) -> Result<Record, Refusal>
    requires { Valid config × Accepted config last × Accepted config quote × (last.timestamp_ms ≤ quote.timestamp_ms)
        × (lent_wrong (states config) (tables_of tables.old) ≡ false) }
    ensures left { left_by rec result (tables_of tables.new)
        ≡ counted_as config (memory_with rec (tables_of tables.old)) quote (event_from (neighbours_of config last quote)) }
    ensures same_slices { SameSlices tables.old tables.new }
{
    let found = quotes::inner::neighbours(config, last, quote);
    match found {
        Err(kind) => skip_pair(rec, config, quote, kind),
        Ok(pair) => count_pair(rec, tables, config, quote, pair),
    }
}

// A first quote.
fn first_quote(rec: Record, config: MicroPriceConfig, quote: TopOfBook) -> Result<Record, Refusal>
    requires { 1 ≤ config.tick_size }
    ensures { result ≡ unless_refused (check_quote config quote) (accepted rec.counters quote) }
{
    quotes::inner::check_quote(config, quote)?;
    Ok(accept(rec.counters, quote))
}

// The work of `observe` on a record by value.
pub fn observe(
    rec: Record,
    tables: &mut LentTables<'_>,
    config: MicroPriceConfig,
    quote: TopOfBook,
) -> Result<Record, Refusal>
    ensures left { left_by rec result (tables_of tables.new) ≡ observed config (memory_with rec (tables_of tables.old)) quote }
    ensures same_slices { SameSlices tables.old tables.new }
{
    check_table_lengths(
        config,
        tables.stay.len(),
        tables.moved.len(),
        tables.move_half_ticks.len(),
    )?;
    let Some(last) = rec.previous else {
        return first_quote(rec, config, quote);
    };
    judge_pair(config, last, quote)?;
    next_quote(rec, tables, config, last, quote)
}

// The work of `new`: the record of a new calibrator.
pub fn new(tables: &mut LentTables<'_>, config: MicroPriceConfig) -> Result<Record, Refusal>
    ensures left { (rec : Record) → left_by rec result (tables_of tables.new) ≡ made config (memory_with rec (tables_of tables.old)) }
    ensures same_slices { SameSlices tables.old tables.new }
{
    check_table_lengths(
        config,
        tables.stay.len(),
        tables.moved.len(),
        tables.move_half_ticks.len(),
    )?;
    tables.stay.fill(0);
    tables.moved.fill(0);
    tables.move_half_ticks.fill(0);
    Ok(Record::default())
}
