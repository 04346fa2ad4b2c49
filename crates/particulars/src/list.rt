// The list of PSD texts: a row of a table for each one that is not the last one again.
use clock::Clock;
use page::title;
use text::Line;

// How many texts are listed at the most, and how full the list may be before another one: what one takes fits behind.
const LISTED: u32 = 40;

const FULL: usize = 60000;

// The longest text that is kept: that of a longest line.
const LONGEST: usize = 600;

// A list so far: how many texts there are, how many of them are listed, the table's lines, with times where the clock is known, and the last text.
#[derive(Clone, Copy)]
pub struct List {
    clock: Option<Clock>,
    texts: u32,
    listed: u32,
    lines: Line<65536>,
    last: Line<LONGEST>,
}

// The text of a field, in which a quote is doubled, as it was.
fn unquoted(text: &[u8]) -> Line<LONGEST> {
    let mut own = Line::new();
    let mut half = false;
    for &byte in text {
        half = (byte == b'"') & !half;
        if !half {
            own.put(&[byte]);
        }
    }
    own
}

impl List {
    // A list of no text, with what stands above the rows.
    pub fn new(clock: Option<Clock>) -> List {
        let mut lines = Line::new();
        lines.put(match clock {
            Some(_) =>
                b"<div class=\"psd\">\n<h2>PSD text, where it changes (PDU, time, text)</h2>\n<table>\n",
            None =>
                b"<div class=\"psd\">\n<h2>PSD text, where it changes (PDU, text)</h2>\n<table>\n",
        });
        List {
            clock,
            texts: 0,
            listed: 0,
            lines,
            last: Line::new(),
        }
    }

    // Puts a row: the number of its PDU, when that begins, and the text.
    fn put_row(&mut self, pdu: u32, text: &[u8]) {
        self.lines.fill(b"<tr><td>@</td>", &[u64::from(pdu)]);
        if let Some(clock) = self.clock {
            self.lines.put(b"<td>");
            clock::put(&mut self.lines, clock.ms(pdu) / 1000);
            self.lines.put(b"</td>");
        }
        self.lines.put(b"<td>");
        title::put(&mut self.lines, unquoted(text).bytes());
        self.lines.put(b"</td></tr>\n");
    }

    // Whether PSD has another text than the last one: what is not UTF-8 counts as none.
    fn is_other(&self, text: &[u8]) -> bool {
        (text.len() != 0) & title::is_fit(text, LONGEST) & (self.last.bytes() != text)
    }

    // Whether one more text is listed.
    fn has_room(&self) -> bool {
        (self.texts == self.listed) & (self.listed < LISTED) & (self.lines.len() < FULL)
    }

    // Takes the text of a PDU's PSD, which is the last one then.
    pub fn take(&mut self, pdu: u32, text: &[u8]) {
        if !self.is_other(text) {
            return;
        }
        if self.has_room() {
            self.listed = self.listed.wrapping_add(1);
            self.put_row(pdu, text);
        }
        self.texts = self.texts.wrapping_add(1);
        self.last.clear();
        self.last.put(text);
    }

    // Puts what stands below the rows: how many texts are not listed, where there are such.
    pub fn end(&mut self) {
        let rest = self.texts.wrapping_sub(self.listed);
        if rest == 0 {
            self.lines.put(b"</table>\n</div>\n");
            return;
        }
        self.lines.fill(
            b"</table>\n<p>Changes that are not listed: @</p>\n</div>\n",
            &[u64::from(rest)],
        );
    }

    // The table; nothing where there is no text.
    pub fn bytes(&self) -> &[u8] {
        if self.texts == 0 {
            return &[];
        }
        self.lines.bytes()
    }
}
