// The pages of a drive: each has so many PDUs, but for the last one.
use crate::Shape;
use std::num::NonZeroU32;

// How many PDUs stand in a row, how many there are in all, how many stand on a page, nothing where all stand on one, and how many packets a bar of full height
// stands for.
#[derive(Clone, Copy, Debug)]
pub struct Book {
    pub columns: u32,
    pub pdus: u32,
    pub on_page: Option<NonZeroU32>,
    pub most: u32,
}

impl Book {
    // How many PDUs stand before the page that has a PDU.
    fn before(self, number: u32) -> u32 {
        match self.on_page {
            Some(many) => number - number % many.get(),
            None => 0,
        }
    }

    // The page that has a PDU, counted from 1.
    pub fn number_of(self, number: u32) -> u32 {
        match self.on_page {
            Some(many) => (number / many.get()).wrapping_add(1),
            None => 1,
        }
    }

    // How many pages there are, at least one.
    pub fn count(self) -> u32 {
        self.number_of(self.pdus.saturating_sub(1))
    }

    // Whether a PDU is its page's first.
    pub fn is_first(self, number: u32) -> bool {
        self.before(number) == number
    }

    // The shape of the page that has a PDU.
    pub fn shape(self, number: u32) -> Shape {
        let from = self.before(number);
        let left = self.pdus.saturating_sub(from);
        Shape {
            columns: self.columns,
            from,
            pdus: self.on_page.map_or(left, |many| left.min(many.get())),
            most: self.most,
        }
    }
}
