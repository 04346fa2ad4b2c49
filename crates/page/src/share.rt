// A share of a whole, in per cent with one decimal.
use text::Line;

// The greatest whole: the sum of two counts.
const MOST: u64 = 8589934590;

// A share in tenths of a per cent; 0 where it is none.
fn tenths(part: u64, whole: u64) -> u64 {
    if (whole == 0) | (MOST < whole) | (whole < part) {
        return 0;
    }
    (part * 1000 + whole / 2) / whole
}

// Puts a template with a share for its first two at signs, whole and tenths; nothing where there is no whole.
pub fn put<const N: usize>(line: &mut Line<N>, template: &[u8], part: u64, whole: u64) {
    if whole != 0 {
        let t = tenths(part, whole);
        line.fill(template, &[t / 10, t % 10]);
    }
}
