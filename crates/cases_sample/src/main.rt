// Runs the cases on standard input and prints the answer to each. The input and the expected output are tests/comparison/sample_words.txt and sample.expected,
// whose form tests/comparison/make_sample.sh describes.
#![tactic(auto)]

ghost use Rattle.std.specs.Prelude.{◌≡◌, ◌+◌, ◌*◌, ◌≤◌};

use calibrator::Record;
use cases_shared::reading::{config_of, count_at, parts_at, read_full, word_at};
use cases_shared::showing::{show, show_after, show_all, show_before};
use cases_shared::tables::record_of;
use config::MicroPriceConfig;
use image::Restored;
use quotes::TopOfBook;
use recording::Recorded;
use refusals::Refusal;
use tally::{LentTables, TablesView};

mod models;

// As many words of a line are read.
const MOST_WORDS: usize = 2200;

// A case, by its word 0.
enum Case {
    Validate,
    OnTables(TablesCase),
    OnModel(ModelCase),
    Window,
    Made,
}

// A case that begins on zero tables. An enum, and no closure for each: they are lent different parts of the memory.
#[derive(Clone, Copy)]
enum TablesCase {
    New,
    Restore,
    Fit,
    Evening,
}

// A case that reads a model.
#[derive(Clone, Copy)]
enum ModelCase {
    Check,
    Signals,
}

fn case_of(word: u64) -> Case {
    match word {
        1 => Case::Validate,
        2 => Case::OnTables(TablesCase::New),
        3 => Case::OnTables(TablesCase::Restore),
        4 => Case::OnTables(TablesCase::Fit),
        5 => Case::OnModel(ModelCase::Check),
        6 => Case::OnModel(ModelCase::Signals),
        7 => Case::Window,
        9 => Case::Made,
        _ => Case::OnTables(TablesCase::Evening),
    }
}

// ---- case 9

// The words of the configuration that is made from tick, buckets and spread states alone.
fn show_made(rt: &impl Print, words: &[u64]) {
    let made = MicroPriceConfig::new(word_at(words, 1), word_at(words, 2), word_at(words, 3));
    let mut held = [0; config::inner::CONFIG_WORDS];
    config::inner::put_config(&mut held, made);
    show(rt, held[0]);
    show_all(rt, " ", &held[1..], "");
}

// ---- cases 5, 6 and 7

// There is room for 15 rows.
fn run_model(rt: &impl Print, case: ModelCase, words: &[u64]) {
    let mut room = [0; 105];
    let rows = (word_at(words, 6) % 16) as usize;
    let model = &mut room[..7 * rows];
    models::put_model(words, model);
    let config = config_of(words);
    match case {
        ModelCase::Check => models::show_check(rt, config, model),
        ModelCase::Signals => models::show_signals(rt, config, model, words, 7 + 10 * rows),
    }
}

fn run_window(rt: &impl Print, words: &[u64]) {
    let recording = parts_at::<5>(words, 3).as_flattened();
    if MOST_WORDS - 4 < recording.len() {
        return;
    }
    match recording::window_of(recording, word_at(words, 1), word_at(words, 2)) {
        Ok(ends) => {
            show(rt, 0);
            show_after(rt, ends.first as u64);
            show_after(rt, ends.past as u64);
        }
        Err(refusal) => show(rt, refusal.number()),
    }
}

// ---- cases 2, 3, 4 and 8

// A record, with a space after each word.
fn show_record(rt: &impl Print, rec: Record) {
    let mut ten = [0; 10];
    abi_encoding::put_record(&mut ten, rec);
    show_all(rt, "", &ten, " ");
}

// Gives the quotes whose number is word `at` to the calibrator, and shows each answer and the calibrator that is left.
fn show_quotes(
    rt: &impl Print,
    mut rec: Record,
    n: u8,
    tables: &mut LentTables<'_>,
    config: MicroPriceConfig,
    words: &[u64],
    at: usize,
) {
    for quote in parts_at(words, at) {
        let quote = TopOfBook::from(*quote);
        let answer = calibrator::observe(&mut rec, tables, config, quote);
        show_before(rt, refusals::check_number(answer));
    }
    show_record(rt, rec);
    cases_shared::showing::show_entries(rt, usize::from(n), tables.view());
}

fn run_new(rt: &impl Print, words: &[u64], n: u8, tables: &mut LentTables<'_>) {
    let config = config_of(words);
    let mut rec = Record::default();
    let _ = calibrator::new(&mut rec, tables, config);
    show_quotes(rt, rec, n, tables, config, words, 6);
}

// Restores an image into emptied tables.
fn restore(
    config: MicroPriceConfig,
    bytes: &[u8],
    tables: &mut LentTables<'_>,
) -> Result<Restored, Refusal> {
    let _ = calibrator::inner::new(tables, config);
    image::inner::restore(bytes, tables)
}

// Restores an image, and gives the calibrator the quotes of the case.
fn restore_and_quote(
    rt: &impl Print,
    words: &[u64],
    n: u8,
    bytes: &[u8],
    tables: &mut LentTables<'_>,
) {
    match restore(config_of(words), bytes, tables) {
        Ok(taken) => {
            show_before(rt, 0);
            let at = 17 + 4 * count_at(words, 16);
            show_quotes(rt, taken.rec, n, tables, taken.config, words, at);
        }
        Err(refusal) => show(rt, refusal.number()),
    }
}

// Fills the tables, writes their image, and restores it.
fn run_image(rt: &impl Print, words: &[u64], n: u8, bytes: &mut [u8], tables: &mut LentTables<'_>) {
    cases_shared::tables::fill(words, 16, n, tables);
    cases_shared::tables::put_image(words, n, tables.view(), bytes);
    restore_and_quote(rt, words, n, bytes, tables);
}

// There is room for an image of 27 states.
fn run_restore(rt: &impl Print, words: &[u64], n: u8, tables: &mut LentTables<'_>) {
    let mut image = [0; 12040];
    let size = cases_shared::tables::image_length(n);
    if size <= 12040 {
        run_image(rt, words, n, &mut image[..size], tables);
    }
}

// The table of a fit that is not refused.
fn show_table(rt: &impl Print, answer: Result<(), Refusal>, model: &[u64]) {
    if answer.is_ok() {
        show_all(rt, " ", model, "");
    }
}

fn run_fit(
    rt: &impl Print,
    words: &[u64],
    n: u8,
    tables: &mut LentTables<'_>,
    scratch: &mut [f64],
    model: &mut [u64],
) {
    cases_shared::tables::fill(words, 7, n, tables);
    let rec = record_of(word_at(words, 6));
    let answer = fit::fit_counts(&rec, tables.view(), config_of(words), scratch, model);
    show(rt, refusals::check_number(answer));
    show_table(rt, answer, model);
}

// The answer of an evening, and the calibrator and the table that it leaves.
fn show_evening(
    rt: &impl Print,
    answer: Result<Recorded, Refusal>,
    rec: Record,
    n: u8,
    tables: TablesView<'_>,
    model: &[u64],
) {
    match answer {
        Ok(counted) => {
            show_before(rt, refusals::check_number(counted.answer));
            show_before(rt, counted.invalid);
            show_record(rt, rec);
            cases_shared::showing::show_entries(rt, usize::from(n), tables);
            show_table(rt, counted.answer, model);
        }
        Err(refusal) => show(rt, refusal.number()),
    }
}

fn run_evening(
    rt: &impl Print,
    words: &[u64],
    n: u8,
    tables: &mut LentTables<'_>,
    scratch: &mut [f64],
    model: &mut [u64],
) {
    let recording = parts_at::<5>(words, 8).as_flattened();
    if MOST_WORDS - 9 < recording.len() {
        return;
    }
    let mut rec = Record::default();
    let answer = evening::calibrate_micro_price(
        &mut rec,
        tables,
        config_of(words),
        recording,
        word_at(words, 6),
        word_at(words, 7),
        scratch,
        model,
    );
    show_evening(rt, answer, rec, n, tables.view(), model);
}

// Runs a case on zero tables of n states. Memory is lent to each case as it is to an operation, beside the words and
// n, which are the case's.
fn run_on(
    rt: &impl Print,
    case: TablesCase,
    words: &[u64],
    n: u8,
    tables: &mut LentTables<'_>,
    scratch: &mut [f64],
    model: &mut [u64],
) {
    match case {
        TablesCase::New => run_new(rt, words, n, tables),
        TablesCase::Restore => run_restore(rt, words, n, tables),
        TablesCase::Fit => run_fit(rt, words, n, tables, scratch, model),
        TablesCase::Evening => run_evening(rt, words, n, tables, scratch, model),
    }
}

// The floats that a fit of n states asks for: `fit` judges that number, and has no function that makes it. The rooms are fixed (no heap), and each program has
// its own.
fn scratch_length(n: u8) -> usize
    ensures { (result ≡ n * (2 * n + 10)) × (result ≤ 132600) }
{
    let n = usize::from(n);
    n * (2 * n + 10)
}

// There is room for 255 states.
fn run_tables(rt: &impl Print, case: TablesCase, words: &[u64]) {
    let mut stay = [0; 65025];
    let mut moved = [0; 65025];
    let mut move_half_ticks = [0; 255];
    let mut scratch = [0.0; 132600];
    let mut model = [0; 1785];
    let n = cases_shared::tables::states_of(words);
    let states = usize::from(n);
    let cells = cases_shared::tables::cell_count(n);
    let floats = scratch_length(n);
    let mut tables = LentTables {
        stay: &mut stay[..cells],
        moved: &mut moved[..cells],
        move_half_ticks: &mut move_half_ticks[..states],
    };
    run_on(
        rt,
        case,
        words,
        n,
        &mut tables,
        &mut scratch[..floats],
        &mut model[..7 * states],
    );
}

// ---- all cases

fn run_case(rt: &impl Print, words: &[u64]) {
    match case_of(word_at(words, 0)) {
        Case::Validate => show(rt, refusals::check_number(config_of(words).validate())),
        Case::OnTables(case) => run_tables(rt, case, words),
        Case::OnModel(case) => run_model(rt, case, words),
        Case::Window => run_window(rt, words),
        Case::Made => show_made(rt, words),
    }
    let _ = rt.println("");
}

// Runs the case of a line. Behind its words there is room for as many parts as any number says, which are zeros and stay zeros.
fn run(rt: &impl Print, line: &[u8], words: &mut [u64; 10000]) {
    words[..MOST_WORDS].fill(0);
    cases_shared::reading::read_line(line, &mut words[..MOST_WORDS]);
    run_case(rt, words);
}

// There is room for all cases.
fn main(rt: HostRuntime) {
    let mut input = [0; 144698];
    let got = read_full(&mut rt.stdin(), &mut input);
    let mut words = [0; 10000];
    for line in input[..got].split_inclusive(|b| *b == b'\n') {
        run(&rt, line, &mut words);
    }
}
