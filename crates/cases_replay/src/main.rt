// Replays a list that saves, counts on, restores, is refused and goes on; a restore of another configuration is left out. Prints each answer, then the words of
// the two images that it saved. Then a list with a call of no kind, which is not replayed, and calibrators under the default gap and under the gap of an image.
#![tactic(auto)]

ghost use Rattle.std.specs.Prelude.{◌≡◌};
ghost use Rattle.cases_replay.specs.Journal as Journal;

use calibrator::Record;
use config::MicroPriceConfig;
use history_replay::BadEncoding;
use tally::{LentTables, TablesView};

mod gaps;

fn setup() -> MicroPriceConfig
    ensures { result ≡ Journal.setup }
{
    MicroPriceConfig::new(1, 3, 1)
        .with_min_state_observations(1)
        .with_max_quote_gap_ms(1000)
}

// The calls, six words each.
const JOURNAL: [u64; 102] = [
    0, 1000, 100, 101, 1, 1, 0, 1500, 101, 102, 1, 3, 1, 0, 328, 0, 0, 0, 0, 1600, 101, 102, 3, 1,
    0, 1400, 101, 102, 3, 1, 0, 5000, 101, 102, 1, 1, 0, 5100, 101, 103, 1, 1, 0, 5200, 0, 1, 1, 1,
    1, 328, 327, 0, 0, 0, 1, 328, 328, 0, 0, 0, 2, 1, 328, 0, 0, 0, 2, 0, 328, 0, 0, 0, 0, 1700,
    100, 101, 1, 3, 2, 0, 100, 0, 0, 0, 0, 1700, 100, 101, 1, 1, 2, 656, 328, 0, 0, 0, 1, 328, 328,
    0, 0, 0,
];

fn journal() -> [u64; 102]
    ensures { result ≡ Journal.journal }
{
    JOURNAL
}

// The words of the image of a new calibrator with a gap of 2000.
fn other_image() -> [u64; 41] {
    let other = setup().with_max_quote_gap_ms(2000);
    let tables = TablesView {
        stay: &[0; 9],
        moved: &[0; 9],
        move_half_ticks: &[0; 3],
    };
    let mut out = [0; 328];
    let _ = image::save(&Record::default(), tables, other, &mut out);
    let mut words = [0; 41];
    image_words::get_table(&out, 0, &mut words);
    words
}

// Numbers, each on a line.
fn show(rt: &impl Print, numbers: &[u64]) {
    for number in numbers {
        let _ = rt.println(*number);
    }
}

fn show_end(rt: &impl Print, answer: Result<(), BadEncoding>) {
    let said = if answer.is_ok() {
        "done"
    } else {
        "bad encoding"
    };
    let _ = rt.println(said);
}

fn main(rt: HostRuntime) {
    let mut stay = [0; 9];
    let mut moved = [0; 9];
    let mut move_half_ticks = [0; 3];
    let mut tables = LentTables {
        stay: &mut stay,
        moved: &mut moved,
        move_half_ticks: &mut move_half_ticks,
    };
    let mut room = [0; 984];
    let mut answers = [0; 17];
    let mut words = [0; 82];
    image_words::put_table(&mut room, 656, &other_image());
    let calls = journal();
    let mut rec = Record::default();
    let _ = calibrator::new(&mut rec, &mut tables, setup());
    let end = history_replay::replay(
        &mut rec,
        &mut tables,
        setup(),
        &calls,
        &mut room,
        &mut answers,
    );
    show_end(&rt, end);
    show(&rt, &answers);
    image_words::get_table(&room, 0, &mut words);
    show(&rt, &words);
    let mut one = [7; 1];
    let bad = history_replay::replay(&mut rec, &mut tables, setup(), &[3; 6], &mut room, &mut one);
    show_end(&rt, bad);
    show(&rt, &one);
    gaps::show_all(&rt);
}
