// A row of coverage as runs: pixels that are covered alike, taken together. A run is one number: 32 times the pixel before which it ends, and its k.
#![tactic(auto)]

ghost use Rattle.std.specs.Prelude.{◌≡◌, true, ◌++◌, ℕ, ◌+◌, ◌-◌, ◌*◌, ◌≤◌, ◌<◌, length, get_or, replicate};
ghost use Rattle.runs.specs.Runs.{start_of, level_of, expand, Runs};

// The pixels from p up to e, all with k, after the n runs of p pixels. Returns how many runs there are then.
pub fn push(runs: &mut [u16], n: usize, p: usize, e: usize, k: u8) -> usize
    requires runs { Runs runs.old n p }
    requires p_le_e { (p ≤ e) × (e ≤ length runs.old) × (e < 2048) × (k < 32) }
    ensures runs_2 { Runs runs.new result e × (length runs.new ≡ length runs.old) }
    ensures result_after { expand runs.new result ≡ expand runs.old n ++ replicate (e - p) k }
{
    if p == e {
        return n;
    }
    let run = (e * 32 + (k as usize)) as u16;
    if extends(runs, n, k) {
        runs[n - 1] = run;
        return n;
    }
    runs[n] = run;
    n + 1
}

// Whether the last of n runs has this k.
fn extends(runs: &[u16], n: usize, k: u8) -> bool
    requires { n ≤ length runs.now }
    ensures { result ≡ true → (0 < n) × (level_of runs.now (n - 1) ≡ k) }
{
    0 < n && runs[n - 1] % 32 == (k as u16)
}

// Where run j begins.
pub fn start(runs: &[u16], j: usize) -> usize
    requires { j ≤ length runs.now }
    ensures { result ≡ start_of runs.now j }
{
    if j == 0 {
        return 0;
    }
    (runs[j - 1] / 32) as usize
}

// k of each pixel of the n runs.
pub fn expand_row(runs: &[u16], n: usize, row: &mut [u8])
    requires { Runs runs.now n (length row.old) × (n ≤ length runs.now) }
    ensures { row.new ≡ expand runs.now n }
{
    let mut a = 0;
    for j in 0..n {
        let e = (runs[j] / 32) as usize;
        row[a..e].fill((runs[j] % 32) as u8);
        a = e;
    }
}

// The runs of a row of k's. Returns how many there are.
pub fn collect(row: &[u8], runs: &mut [u16]) -> usize
    requires row_in_bounds { (length row.now ≤ length runs.old) × (length row.now < 2048) }
    requires by_index { (i : ℕ) → i < length row.now → get_or row.now i 0 < 32 }
    ensures runs { Runs runs.new result (length row.now) × (length runs.new ≡ length runs.old) }
    ensures result_after { expand runs.new result ≡ row.now }
{
    let mut n = 0;
    let mut i = 0;
    while i < row.len() {
        let e = alike(row, i);
        n = push(runs, n, i, e, row[i]);
        i = e;
    }
    n
}

// The first place behind i with another byte than the one there, or the end.
fn alike(row: &[u8], i: usize) -> usize
    requires { i < length row.now }
    ensures lower_bound { (i < result) × (result ≤ length row.now) }
    ensures by_index { (j : ℕ) → i ≤ j → j < result → get_or row.now j 0 ≡ get_or row.now i 0 }
{
    let k = row[i];
    for e in i + 1..row.len() {
        if row[e] != k {
            return e;
        }
    }
    row.len()
}
