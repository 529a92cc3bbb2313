// Document 02, Q-5: the default largest gap, and the gap that an image carries. Tick 1, n 3, s 2, least observations 1; a quote, and the same quote again
// after a pause. Each line has the largest gap, the pause, and then the pairs and the gap skips.
use calibrator::Record;
use config::MicroPriceConfig;
use quotes::TopOfBook;
use tally::LentTables;

fn quote_at(timestamp_ms: u64) -> TopOfBook {
    TopOfBook {
        timestamp_ms,
        bid: 100,
        ask: 101,
        bid_size: 9,
        ask_size: 1,
    }
}

fn show_line(rt: &impl Print, config: MicroPriceConfig, pause: u64, rec: Record) {
    let gap = config.max_quote_gap_ms;
    let counters = rec.counters;
    let pairs = counters.pairs;
    let skips = counters.skipped_gap_pairs;
    let _ = println!(rt; "gap {gap} pause {pause} pairs {pairs} gap skips {skips}");
}

// The one configuration of this program that names no gap.
fn by_default() -> MicroPriceConfig {
    MicroPriceConfig::new(1, 3, 2).with_min_state_observations(1)
}

// A new calibrator's record after its first quote.
fn after_first(tables: &mut LentTables<'_>, config: MicroPriceConfig) -> Record {
    let mut rec = Record::default();
    let _ = calibrator::new(&mut rec, tables, config);
    let _ = calibrator::observe(&mut rec, tables, config, quote_at(0));
    rec
}

// The pause under the default gap.
fn show_default(rt: &impl Print, tables: &mut LentTables<'_>, pause: u64) {
    let config = by_default();
    let mut rec = after_first(tables, config);
    let _ = calibrator::observe(&mut rec, tables, config, quote_at(pause));
    show_line(rt, config, pause, rec);
}

// The image of a calibrator under a gap of 60,000, after its first quote.
fn saved(tables: &mut LentTables<'_>) -> [u8; 784] {
    let config = by_default().with_max_quote_gap_ms(60_000);
    let rec = after_first(tables, config);
    let mut out = [0; 784];
    let _ = image::save(&rec, tables.view(), config, &mut out);
    out
}

// The pause under the gap that restore answers, of that image with this gap in its word 5.
fn show_carried(rt: &impl Print, tables: &mut LentTables<'_>, gap: u64, pause: u64) {
    let mut image = saved(tables);
    image_words::put_word(&mut image, 40, gap);
    let mut rec = Record::default();
    if let Ok(config) = image::restore(&mut rec, &image, tables) {
        let _ = calibrator::observe(&mut rec, tables, config, quote_at(pause));
        show_line(rt, config, pause, rec);
    }
}

// All in one memory: new empties it.
pub fn show_all(rt: &impl Print) {
    let mut stay = [0; 36];
    let mut moved = [0; 36];
    let mut move_half_ticks = [0; 6];
    let mut tables = LentTables {
        stay: &mut stay,
        moved: &mut moved,
        move_half_ticks: &mut move_half_ticks,
    };
    show_default(rt, &mut tables, 5_000);
    show_default(rt, &mut tables, 5_001);
    show_carried(rt, &mut tables, 60_000, 6_000);
    show_carried(rt, &mut tables, 5_000, 6_000);
}
