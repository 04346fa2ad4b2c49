// The columns of the picture: what waits at the ticks of each.
// How many columns there are at the most.
pub const MOST: usize = 640;

// How many ticks are asked for at once.
const BLOCK: usize = 4096;

// The bench that is drawn: mode, stream and latency; its ticks, how many of them a column has, and how many columns there are.
#[derive(Clone, Copy)]
pub struct Bench {
    pub mode: u8,
    pub stream: u8,
    pub latency: u8,
    pub ticks: usize,
    pub each: usize,
    pub columns: usize,
}

// A quotient, 0 where the divisor is.
pub fn quotient(a: usize, b: usize) -> usize {
    a.checked_div(b).unwrap_or(0)
}

// How many parts of a size so many ticks have, the last of them perhaps not whole.
fn parts(ticks: usize, size: usize) -> usize {
    if ticks == 0 {
        return 0;
    }
    quotient(ticks - 1, size).wrapping_add(1)
}

// The part of a row up to a place; nothing where the place is past its end.
pub fn part(row: &[u32], end: usize) -> &[u32] {
    if row.len() < end {
        return &row[..0];
    }
    &row[..end]
}

impl Bench {
    // The bench of a latency: as many ticks in a column as leave no more columns than there may be.
    pub fn new(mode: u8, stream: u8, latency: u8, ticks: usize) -> Bench {
        let each = parts(ticks, MOST);
        Bench {
            mode,
            stream,
            latency,
            ticks,
            each,
            columns: parts(ticks, each),
        }
    }

    // The column of a tick.
    pub fn column(self, tick: usize) -> usize {
        quotient(tick, self.each)
    }
}

// What each column shows: the most and the fewest packets that wait at one of its ticks, and whether one is dry.
#[derive(Clone, Copy)]
pub struct Rows {
    most: [u32; MOST],
    least: [u32; MOST],
    dry: [bool; MOST],
}

impl Rows {
    // The columns of all ticks.
    pub fn new(b: Bench, counts: &[u32]) -> Rows {
        let mut rows = Rows {
            most: [0; MOST],
            least: [u32::MAX; MOST],
            dry: [false; MOST],
        };
        let mut block = [0u32; BLOCK];
        for first in (0..b.ticks).step_by(BLOCK) {
            let shown = latency::show_waiting(
                b.mode, b.stream, counts, b.latency, first, &mut block,
            );
            let count = BLOCK.min(shown.count as usize);
            rows.show_block(b, first, &block[..count]);
        }
        rows
    }

    // Shows the ticks of a block, from one on.
    fn show_block(&mut self, b: Bench, first: usize, block: &[u32]) {
        for (k, &waiting) in block.iter().enumerate() {
            self.show(b, first.wrapping_add(k), waiting);
        }
    }

    // Shows a tick in its column.
    fn show(&mut self, b: Bench, tick: usize, waiting: u32) {
        let at = b.column(tick);
        if at < MOST {
            self.most[at] = self.most[at].max(waiting);
            self.least[at] = self.least[at].min(waiting);
            self.dry[at] |= latency::is_dry(b.latency, tick, waiting as usize);
        }
    }

    // The most packets of each column.
    pub fn most(&self, b: Bench) -> &[u32] {
        &self.most[..b.columns.min(MOST)]
    }

    // The fewest packets of each column.
    pub fn least(&self, b: Bench) -> &[u32] {
        &self.least[..b.columns.min(MOST)]
    }

    // Whether a tick of each column is dry.
    pub fn dry(&self, b: Bench) -> &[bool] {
        &self.dry[..b.columns.min(MOST)]
    }
}
