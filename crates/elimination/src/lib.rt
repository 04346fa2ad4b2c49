// Linear equations over the field, four unknowns and four rows, solved by Gauss-Jordan elimination: the coefficients of the polynomial that locates wrong bytes
// (document 01, "Header code"); on `field` and `algebra`.
#![tactic(auto)]

ghost use Rattle.std.specs.Prelude.{◌≡◌, ◌<◌, get_or, take};
ghost use Rattle.field.specs.Field.{Powers, Logarithms};
ghost use Rattle.elimination.specs.Elimination.{Row, scaled_by, cleared_by, Pivot, ReduceRows, ReduceRight, Column, Solved, system_row, system_of, unknowns, right_side, beside};

// The row times the inverse of b.
fn scaled(powers: &[u8; 510], logarithms: &[u8; 256], row: [u8; 4], b: u8) -> [u8; 4]
    requires powers { Powers powers.now }
    requires logarithms { Logarithms logarithms.now }
    ensures { Row 4 (scaled_by row b) result 4 }
{
    let v = field::inverse_by(powers, logarithms, b);
    let mut out = row;
    for i in 0..4 {
        out[i] = field::product_by(powers, logarithms, v, row[i]);
    }
    out
}

// The row plus its entry at k times the pivot row.
fn cleared(
    powers: &[u8; 510],
    logarithms: &[u8; 256],
    row: [u8; 4],
    p: [u8; 4],
    k: usize,
) -> [u8; 4]
    requires k_bound { k < 4 }
    requires powers { Powers powers.now }
    requires logarithms { Logarithms logarithms.now }
    ensures { Row 4 (cleared_by row p k) result 4 }
{
    let b = row[k];
    let mut out = row;
    for i in 0..4 {
        out[i] = row[i] ^ field::product_by(powers, logarithms, b, p[i]);
    }
    out
}

// The first row from k on with a nonzero entry in column k, or 4.
fn pivot(m: [[u8; 4]; 4], k: usize) -> usize
    requires { k < 4 }
    ensures { Pivot m k result }
{
    for r in k..4 {
        if m[r][k] != 0 {
            return r;
        }
    }
    4
}

// Row p scaled to a 1 in column k and moved to row k, and column k cleared in every other row.
fn reduce(
    powers: &[u8; 510],
    logarithms: &[u8; 256],
    m: [[u8; 4]; 4],
    k: usize,
    p: usize,
) -> [[u8; 4]; 4]
    requires k_bound { k < 4 }
    requires p_bound { p < 4 }
    requires powers { Powers powers.now }
    requires logarithms { Logarithms logarithms.now }
    ensures { ReduceRows 4 m k p result }
{
    let row = m[p];
    let b = row[k];
    let top = scaled(powers, logarithms, row, b);
    let other = m[k];
    let mut out = m;
    out[p] = other;
    out[k] = top;
    for r in 0..4 {
        if r != k {
            let old = out[r];
            out[r] = cleared(powers, logarithms, old, top, k);
        }
    }
    out
}

// The right side after the same step: the entry of row p scaled and moved to row k, and the others changed as their rows are cleared.
fn reduce_right(
    powers: &[u8; 510],
    logarithms: &[u8; 256],
    m: [[u8; 4]; 4],
    right: [u8; 4],
    k: usize,
    p: usize,
) -> [u8; 4]
    requires k_bound { k < 4 }
    requires p_bound { p < 4 }
    requires powers { Powers powers.now }
    requires logarithms { Logarithms logarithms.now }
    ensures { ReduceRight m right k p result }
{
    let row = m[p];
    let v = field::inverse_by(powers, logarithms, row[k]);
    let top = field::product_by(powers, logarithms, v, right[p]);
    let other = m[k];
    let mut rows = m;
    rows[p] = other;
    let mut out = right;
    out[p] = right[k];
    out[k] = top;
    for r in 0..4 {
        if r != k {
            let old = rows[r];
            out[r] = out[r] ^ field::product_by(powers, logarithms, old[k], top);
        }
    }
    out
}

// The polynomial with a 1 at its degree and these coefficients below, zero at the points of the wrong bytes.
#[derive(Clone, Copy)]
pub struct Locator {
    pub degree: usize,
    pub coefficients: [u8; 4],
}

// The first k entries of column k.
fn column(rows: [[u8; 4]; 4], k: usize) -> [u8; 4]
    requires { k < 4 }
    ensures { Column rows k result k }
{
    let mut out = [0; 4];
    for i in 0..k {
        let row = rows[i];
        out[i] = row[k];
    }
    out
}

// Elimination of the system m with its right side, as far as the first column with no pivot.
pub fn eliminate(powers: &[u8; 510], logarithms: &[u8; 256], m: [[u8; 4]; 4], t: [u8; 4]) -> Locator
    requires powers { Powers powers.now }
    requires logarithms { Logarithms logarithms.now }
    ensures { Solved (beside m t) result.degree result.coefficients }
{
    let mut rows = m;
    let mut right = t;
    for k in 0..4 {
        let p = pivot(rows, k);
        if p == 4 {
            return Locator {
                degree: k,
                coefficients: column(rows, k),
            };
        }
        let next_right = reduce_right(powers, logarithms, rows, right, k, p);
        let next = reduce(powers, logarithms, rows, k, p);
        right = next_right;
        rows = next;
    }
    Locator {
        degree: 4,
        coefficients: right,
    }
}

// Row r of the system: entries r to r + 3 of t, or zeros from row h on.
fn system_row(t: [u8; 8], h: usize, r: usize) -> [u8; 4]
    requires { r < 4 }
    ensures { result ≡ take 4 (system_row t h r) }
{
    if r < h {
        return [t[r], t[r + 1], t[r + 2], t[r + 3]];
    }
    [0, 0, 0, 0]
}

// The four by four system of the filtered syndromes for at most h errors.
pub fn system(t: [u8; 8], h: usize) -> [[u8; 4]; 4]
    ensures { result ≡ unknowns (system_of t h) }
{
    [
        system_row(t, h, 0),
        system_row(t, h, 1),
        system_row(t, h, 2),
        system_row(t, h, 3),
    ]
}

// Entry r of its right side: entry r + 4 of t, or zero from row h on.
fn right_entry(t: [u8; 8], h: usize, r: usize) -> u8
    requires { r < 4 }
    ensures { result ≡ get_or (system_row t h r) 4 0 }
{
    if r < h {
        return t[r + 4];
    }
    0
}

// Its right side.
pub fn right_side(t: [u8; 8], h: usize) -> [u8; 4]
    ensures { result ≡ right_side (system_of t h) }
{
    [
        right_entry(t, h, 0),
        right_entry(t, h, 1),
        right_entry(t, h, 2),
        right_entry(t, h, 3),
    ]
}
