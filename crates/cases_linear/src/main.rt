// Runs the solver, the series and the share on fixed systems and prints the bits. tests/linear_bits says how the expected ones were made.
#![tactic(auto)]

ghost use Rattle.std.specs.Prelude.{◌<◌, ◌≤◌, length};
ghost use Rattle.fit_series.specs.Inner.{Scratch};

use fit_linear::Singular;
use fit_series::NotConverged;

// The kinds of systems; the numbers 0 to 8, which are printed and make the cells.
#[derive(Clone, Copy)]
enum Kind {
    Usual,
    // A column of minus zeros.
    Singular,
    // Infinities and NaN.
    Infinite,
    // Pivots of equal size.
    Level,
    // Zero factors.
    Sparse,
    // Terms that grow.
    Growing,
    // Terms that stay as they are.
    Lasting,
    // Infinities and NaN on the right only.
    InfiniteRight,
    MinusZero,
}

impl Kind {
    const ALL: [Kind; 9] = [
        Kind::Usual,
        Kind::Singular,
        Kind::Infinite,
        Kind::Level,
        Kind::Sparse,
        Kind::Growing,
        Kind::Lasting,
        Kind::InfiniteRight,
        Kind::MinusZero,
    ];
}

// A number below 2^31 that is fixed by four.
fn mixed(kind: Kind, n: u64, r: u64, k: u64) -> u64
    ensures { result < 2147483648 }
{
    let seed = (kind as u64 % 8) * 7919 + (n % 32) * 104729 + (r % 32) * 1009 + (k % 64) * 31 + 1;
    let once = (seed % 2147483648 * 1103515245 + 12345) % 2147483648;
    (once * 1103515245 + 12345) % 2147483648
}

// The same, from 0 to 1.
fn part(kind: Kind, n: u64, r: u64, k: u64) -> f64 {
    floats::inner::from_u64(mixed(kind, n, r, k)) / 2147483648.0
}

// An infinity or NaN now and then, three cells in `of`.
fn special(kind: Kind, n: u64, r: u64, k: u64, of: u64) -> f64
    requires { 0 < of }
{
    match mixed(kind, n, r, k) / 65536 % of {
        0 => 1.0 / 0.0,
        1 => -1.0 / 0.0,
        2 => 0.0 / 0.0,
        _ => part(kind, n, r, k) / 32.0 - 0.015625,
    }
}

// 1, -1, 2 or -2: pivots of equal size.
fn level(n: u64, r: u64, k: u64) -> f64 {
    match mixed(Kind::Level, n, r, k) / 65536 % 4 {
        0 => 1.0,
        1 => -1.0,
        2 => 2.0,
        _ => -2.0,
    }
}

// Mostly zeros of either sign, for zero factors.
fn sparse(n: u64, r: u64, k: u64) -> f64 {
    if r == k {
        return 1.0 + part(Kind::Sparse, n, r, k);
    }
    match mixed(Kind::Sparse, n, r, k) / 65536 % 6 {
        0..=1 => 0.0,
        2..=3 => -0.0,
        _ => part(Kind::Sparse, n, r, k) / 16.0 - 0.03125,
    }
}

// A cell of 1 - Q, of K, of the fallback column, or of T, which is `most` at most.
fn usual(kind: Kind, n: u64, r: u64, k: u64, most: f64) -> f64 {
    if k == r {
        1.0 - part(kind, n, r, k) / 32.0
    } else if k < n {
        -(part(kind, n, r, k) / 32.0)
    } else if k == n {
        part(kind, n, r, k) - 0.5
    } else if k == n + 1 {
        if r % 3 == 2 { 1.0 } else { 0.0 }
    } else {
        part(kind, n, r, k) * most
    }
}

// A cell of a system whose terms stay as they are.
fn lasting(n: u64, r: u64, k: u64) -> f64
    requires { (n < 32) × (r < 32) }
{
    if k == r || k == n || k == n + 2 + r {
        1.0
    } else {
        0.0
    }
}

// A cell of a system whose G1 and F are minus zero.
fn minus_zero(n: u64, r: u64, k: u64) -> f64
    requires { n < 32 }
{
    if k == r {
        1.0
    } else if k < n {
        0.0
    } else if k < n + 2 {
        -0.0
    } else {
        0.5
    }
}

// A cell of the system of a kind. Kind, n, row and column stay parameters, and the bounds clauses: of a struct of bytes each function would turn them into
// words first.
fn cell(kind: Kind, n: u64, r: u64, k: u64) -> f64
    requires { (n < 32) × (r < 32) × (k < 64) }
{
    match kind {
        Kind::Singular if k + 1 == n => -0.0,
        Kind::Usual | Kind::Singular => usual(kind, n, r, k, 0.015625),
        Kind::Infinite => special(kind, n, r, k, 23),
        Kind::Level => level(n, r, k),
        Kind::Sparse => sparse(n, r, k),
        Kind::Growing => usual(kind, n, r, k, 8.0),
        Kind::Lasting => lasting(n, r, k),
        Kind::InfiniteRight if n <= k => special(kind, n, r, k, 11),
        Kind::InfiniteRight => usual(kind, n, r, k, 0.015625),
        Kind::MinusZero => minus_zero(n, r, k),
    }
}

// The system of a kind, in rows of w.
fn fill(s: &mut [f64], kind: Kind, n: u64, w: usize)
    requires { (n < 32) × (0 < w) }
{
    for (i, x) in s.iter_mut().enumerate() {
        *x = cell(kind, n, (i / w % 32) as u64, (i % w % 64) as u64);
    }
}

// The bits of the floats from `start` up to `end`, each on a line. By places: a part `&s[a..b]` would ask each caller that it lies in the slice.
fn show(rt: &impl Print, s: &[f64], start: usize, end: usize) {
    for x in s.iter().take(end).skip(start) {
        let bits = floats::to_bits(*x);
        let _ = println!(rt; "{bits:016x}");
    }
}

// The series and the share of a solved system.
fn finish(rt: &impl Print, s: &mut [f64], n: usize)
    requires { Scratch n s.old }
{
    let sum = n * (2 * n + 2);
    match fit_series::inner::sum_series(s, n, 10_000) {
        Ok(()) => {
            let _ = rt.println("converged");
            show(rt, s, sum, sum + n);
        }
        Err(NotConverged) => {
            let _ = rt.println("not converged");
        }
    }
    fit_series::inner::fallback_within_moves(s, n, 10);
    let _ = rt.println("share");
    show(rt, s, sum + n, sum + 2 * n);
}

// One system, solved and printed.
fn run(rt: &impl Print, s: &mut [f64], kind: Kind, n: usize)
    requires { (n ≤ 27) × (1728 ≤ length s.old) }
{
    let w = 2 * n + 2;
    fill(s, kind, n as u64, w);
    let found = fit_linear::inner::gauss_jordan(s, n, w);
    let number = kind as u64;
    let _ = print!(rt; "kind {number} states {n}");
    match found {
        Ok(()) => {
            let _ = rt.println(" solved");
            show(rt, s, 0, n * w);
            finish(rt, s, n);
        }
        Err(Singular) => {
            let _ = rt.println(" singular");
            show(rt, s, 0, n * w);
        }
    }
}

fn main(rt: HostRuntime) {
    let mut scratch = [0.0; 1728];
    let s: &mut [f64] = &mut scratch;
    for kind in Kind::ALL {
        for n in [1, 2, 3, 6] {
            run(&rt, s, kind, n);
        }
    }
    for kind in [Kind::Usual, Kind::Level, Kind::Sparse, Kind::InfiniteRight] {
        run(&rt, s, kind, 27);
    }
}
