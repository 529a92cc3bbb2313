// The model of cases 5 and 6, and signals.
use cases_shared::reading::parts_at;
use cases_shared::showing::{show, show_after};
use config::MicroPriceConfig;
use model_signals::MicroPriceSignal;
use quotes::TopOfBook;
use refusals::Refusal;

// The bits of a float, of its upper and lower half in two words of a case.
fn float_bits(upper: u64, lower: u64) -> u64 {
    upper % 4294967296 * 4294967296 + lower % 4294967296
}

// The seven words of a row, which has ten in a case.
fn row_of(words: &[u64; 10]) -> [u64; 7] {
    let [
        bucket,
        spread,
        observations,
        first_upper,
        first_lower,
        adjustment_upper,
        adjustment_lower,
        share_upper,
        share_lower,
        status,
    ] = *words;
    [
        bucket,
        spread,
        observations,
        float_bits(first_upper, first_lower),
        float_bits(adjustment_upper, adjustment_lower),
        float_bits(share_upper, share_lower),
        status,
    ]
}

// Writes the model whose number of rows is word 6.
pub fn put_model(words: &[u64], model: &mut [u64]) {
    let (rows, _) = model.as_chunks_mut::<7>();
    for (row, ten) in rows.iter_mut().zip(parts_at(words, 6)) {
        *row = row_of(ten);
    }
}

pub fn show_check(rt: &impl Print, config: MicroPriceConfig, model: &[u64]) {
    let checked = model_check::check_model(config, model);
    show(rt, refusals::check_number(checked));
    if let Err(Refusal::ModelRow(row)) = checked {
        show_after(rt, row as u64);
    }
}

fn show_signal(rt: &impl Print, answer: Result<MicroPriceSignal, Refusal>) {
    match answer {
        Ok(s) => {
            show(rt, 0);
            show_after(rt, s.timestamp_ms);
            show_after(rt, s.mid_sum);
            show_after(rt, floats::to_bits(s.adjustment));
            show_after(rt, u64::from(s.source));
        }
        Err(refusal) => show(rt, refusal.number()),
    }
}

// The signals of the quotes whose number is word `at`, with a space between two.
pub fn show_signals(
    rt: &impl Print,
    config: MicroPriceConfig,
    model: &[u64],
    words: &[u64],
    at: usize,
) {
    for (i, quote) in parts_at(words, at).iter().enumerate() {
        if i != 0 {
            let _ = rt.print(" ");
        }
        let quote = TopOfBook::from(*quote);
        show_signal(rt, model_signals::signal(config, model, quote));
    }
}
