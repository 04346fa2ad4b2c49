// The picture's measures, in its own units, on `text`. PDUs stand in rows of cells from left to right; under each row of cells stands a strip of bars.
#![tactic(auto)]

pub mod leaf;
pub mod share;
pub mod title;

ghost use Rattle.std.specs.Prelude.{◌<◌, ◌≤◌};

// Where rows begin and what stays free at their right.
pub const LEFT: u64 = 64;

pub const RIGHT: u64 = 24;

// Where the first row's top lies, and how far rows are apart.
pub const TOP: u64 = 76;

pub const ROW: u64 = 56;

// From a cell to the next, and a cell's own width and height.
pub const PITCH: u64 = 10;

pub const WIDTH: u64 = 9;

pub const HEIGHT: u64 = 14;

// From a row's top to its strip, and the strip's height.
pub const STRIP: u64 = 17;

pub const BAR: u64 = 20;

// The legend's height, and the width that it takes at the least.
pub const LEGEND: u64 = 260;

const LEAST: u64 = 736;

// What decides the picture's shape: how many PDUs stand in a row, the first PDU, how many there are, and how many packets a bar of full height stands for.
#[derive(Clone, Copy, Debug)]
pub struct Shape {
    pub columns: u32,
    pub from: u32,
    pub pdus: u32,
    pub most: u32,
}

// Where a PDU's cell has its upper left corner.
#[derive(Clone, Copy, Debug)]
pub struct Place {
    pub x: u64,
    pub y: u64,
}

impl Shape {
    // The height of a picture with a legend under its rows, and of the rows alone.
    pub fn height(self) -> u64 {
        self.height_of_rows() + LEGEND
    }

    pub fn height_of_rows(self) -> u64
        ensures { (76 ≤ result) × (result < 300000000000) }
    {
        top_of(self.rows())
    }

    // The picture's width.
    pub fn width(self) -> u64
        ensures { 736 ≤ result }
    {
        (LEFT + u64::from(self.columns) * PITCH + RIGHT).max(LEAST)
    }

    // The number of the last PDU.
    pub fn last(self) -> u32 {
        self.from.wrapping_add(self.pdus).wrapping_sub(1)
    }

    // How many rows there are.
    pub fn rows(self) -> u32 {
        match self.pdus.checked_sub(1) {
            Some(last) => self.row_of(last).wrapping_add(1),
            None => 0,
        }
    }

    // The row of a PDU before which so many stand in the picture, and its column.
    fn row_of(self, place: u32) -> u32 {
        place.checked_div(self.columns).unwrap_or(0)
    }

    fn column_of(self, place: u32) -> u32 {
        place.checked_rem(self.columns).unwrap_or(0)
    }

    // How many PDUs of the picture stand before one.
    fn place_in(self, number: u32) -> u32 {
        number.wrapping_sub(self.from)
    }

    pub fn place_of(self, number: u32) -> Place
        ensures { (result.x < 100000000000) × (result.y < 300000000000) }
    {
        let place = self.place_in(number);
        Place {
            x: LEFT + u64::from(self.column_of(place)) * PITCH,
            y: top_of(self.row_of(place)),
        }
    }

    // Whether a PDU is its row's first.
    pub fn is_first(self, number: u32) -> bool {
        self.column_of(self.place_in(number)) == 0
    }

    // How many PDUs stand in the row that a PDU begins.
    pub fn in_row(self, number: u32) -> u32 {
        let left = self.pdus.saturating_sub(self.place_in(number));
        left.min(self.columns)
    }
}

// Where a row's top lies, or after the last row where the legend begins.
pub fn top_of(row: u32) -> u64
    ensures { (76 ≤ result) × (result < 300000000000) }
{
    TOP + u64::from(row) * ROW
}

// The height of the bar for so many packets: at least 1 where there are any.
pub fn bar(packets: u32, most: u32) -> u64
    ensures { result ≤ 20 }
{
    if packets == 0 {
        return 0;
    }
    if most <= packets {
        return BAR;
    }
    (u64::from(packets) * BAR / u64::from(most)).clamp(1, BAR)
}
