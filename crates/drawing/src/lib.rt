// What a PDU adds to the overview strip and to the rows, as a reading of the CSV goes over it; on `commission`, `gaps`, `overview` and
// `sheet`.
#![tactic(auto)]

mod cells;

use clock::Clock;
use commission::Format;
use drive::Pdu;
use gaps::{Pace, Turn};
use host::{Fd, Host};
use overview::{Scale, Stretch};
use page::leaf::Book;
use std::num::NonZeroU32;
use text::Line;

// How full a block may be before it is written: what one PDU takes fits behind.
const FULL: usize = 58000;

// What waits to be written, and its room.
pub type Block = Line<65536>;

// What a reading draws, and to which file: nothing, the bars of the overview strip, or the rows.
#[derive(Clone, Copy, Debug, PartialEq, Eq)]
pub enum Draws {
    Nothing,
    Strip(Fd),
    Rows(Fd),
}

// The CSV and where it begins; the format; what a reading draws; the page that is asked for, nothing for all, and its first PDU; the pages, how long a PDU is, how
// many packets end in one, and the overview's stretches.
#[derive(Clone, Copy, Debug)]
pub struct Task {
    pub input: Fd,
    pub start: u64,
    pub format: Format,
    pub draws: Draws,
    pub only: Option<NonZeroU32>,
    pub first: u32,
    pub book: Book,
    pub clock: Option<Clock>,
    pub pace: Pace,
    pub scale: Scale,
}

// Writes what waits. Answers whether that went well.
pub fn written<const N: usize>(host: &Host, output: Fd, block: &mut Line<N>) -> bool {
    let written = host.write_all(output, block.bytes());
    block.clear();
    written
}

// Writes it where the block is full.
fn written_if_full<const N: usize>(host: &Host, output: Fd, block: &mut Line<N>) -> bool {
    (block.len() < FULL) || written(host, output, block)
}

impl Task {
    // The beginning of a page in HTML, before its first PDU.
    fn open_page<const N: usize>(self, host: &Host, block: &mut Line<N>, number: u32) {
        if (self.format == Format::Html) & self.book.is_first(number) {
            sheet::put_page_start(host, block);
            picture::put_page_head(
                block,
                self.book.shape(number),
                self.clock,
                self.book.number_of(number),
                self.book.count(),
            );
        }
    }

    // The end of a page in HTML, after its last PDU.
    fn close_page<const N: usize>(self, block: &mut Line<N>, number: u32) {
        if (self.format == Format::Html) & (self.book.shape(number).last() == number) {
            sheet::put_page_end(block);
        }
    }

    // Whether the page that has a PDU is asked for.
    fn has(self, number: u32) -> bool {
        match self.only {
            Some(page) => page.get() == self.book.number_of(number),
            None => true,
        }
    }

    // Draws a PDU into its row, if its page is asked for. Answers whether all before it is written.
    fn draw<const N: usize>(
        self,
        host: &Host,
        output: Fd,
        block: &mut Line<N>,
        pdu: Pdu,
        turn: Turn,
    ) -> bool {
        if !self.has(pdu.number) {
            return true;
        }
        self.open_page(host, block, pdu.number);
        cells::put_pdu(block, self.book.shape(pdu.number), self.clock, pdu, turn);
        self.close_page(block, pdu.number);
        written_if_full(host, output, block)
    }

    // Whether a PDU is the first of another stretch than the one that the reading is in.
    pub fn is_beyond(self, s: Stretch, number: u32) -> bool {
        self.scale.stretch_of(number) != s.number
    }

    // Draws the stretch that the reading is in, where the strip is drawn. Answers whether all before it is written.
    pub fn draw_stretch<const N: usize>(
        self,
        host: &Host,
        block: &mut Line<N>,
        s: Stretch,
    ) -> bool {
        match self.draws {
            Draws::Strip(output) if s.pdus != 0 => {
                overview::put_stretch(block, self.scale, s);
                written_if_full(host, output, block)
            }
            _ => true,
        }
    }

    // Draws what a PDU adds: its cell, which has a mark where it looks as if it came twice or out of turn, or the stretch before it. Answers whether all before it
    // is written.
    pub fn put<const N: usize>(
        self,
        host: &Host,
        block: &mut Line<N>,
        s: Stretch,
        pdu: Pdu,
        turn: Turn,
    ) -> bool {
        match self.draws {
            Draws::Rows(output) => self.draw(host, output, block, pdu, turn),
            _ if self.is_beyond(s, pdu.number) => self.draw_stretch(host, block, s),
            _ => true,
        }
    }
}
