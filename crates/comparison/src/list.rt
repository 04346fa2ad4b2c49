// The list of the packets that were sent, a line for each as comma-separated values, and what is said of one that was never sent.
use crate::search::{self, Packet};
use crate::{Fault, Sent};
use host::{Fd, Host};
use text::Line;

// What came of a packet that was sent: it is delivered, missing, or came again.
#[derive(Clone, Copy, Debug, PartialEq, Eq)]
pub enum State {
    Delivered,
    Missing,
    Again,
}

impl State {
    // The packet's line, for its index, its number, its length and the PDU that it came in.
    fn line(self) -> &'static [u8] {
        match self {
            State::Delivered => b"@,@,@,delivered,@\n",
            State::Missing => b"@,@,@,missing,\n",
            State::Again => b"@,@,@,again,@\n",
        }
    }
}

// So many packets that were never sent have a line each on standard error.
const SAID: u64 = 5;

// Writes what stands before all packets to the list, if there is one. Answers whether it is written.
pub fn begin(host: &Host, list: Option<Fd>) -> bool {
    match list {
        Some(fd) => host.write_all(fd, b"index,number,length,state,pdu\n"),
        None => true,
    }
}

impl Sent {
    // Writes a line of the list, if there is one, with its numbers.
    fn list_line(self, host: &Host, template: &[u8], numbers: &[u64]) -> Result<(), Fault> {
        let Some(list) = self.list else {
            return Ok(());
        };
        let mut line = Line::<128>::new();
        line.fill(template, numbers);
        if !host.write_all(list, line.bytes()) {
            return Err(Fault::Unlisted);
        }
        Ok(())
    }

    // The line of a packet that was sent, and came in a PDU if it is not missing.
    pub fn list_sent(
        self,
        host: &Host,
        state: State,
        index: u64,
        length: usize,
        pdu: u64,
    ) -> Result<(), Fault> {
        let number = sent_packets::number_at(index);
        self.list_line(host, state.line(), &[index, number, length as u64, pdu])
    }

    // The line of a packet that was never sent.
    pub fn list_never(self, host: &Host, packet: Packet, pdu: u64) -> Result<(), Fault> {
        let length = packet.bytes.len() as u64;
        self.list_line(host, b",@,@,never sent,@\n", &[packet.number, length, pdu])
    }

    // The list's last line, where it has all packets.
    pub fn list_end(self, host: &Host, packets: u64) -> Result<(), Fault> {
        self.list_line(host, b",end,@,,whole\n", &[packets])
    }

    // The line of the packet with an index and a length, if it is missing.
    fn list_missed(self, host: &Host, row: &[u64], index: u64, length: usize) -> Result<(), Fault> {
        if sent_packets::bitmap::at(crate::bitmap(row), index) != 0 {
            return Ok(());
        }
        self.list_sent(host, State::Missing, index, length, 0)
    }

    // The lines of the packets that are missing.
    pub fn list_missing(self, host: &Host, row: &[u64]) -> Result<(), Fault> {
        if self.list.is_none() {
            return Ok(());
        }
        let mut byte: u64 = 0;
        for index in 0..crate::at(row, crate::SENT) {
            let span = self.span_at(host, byte);
            if span.to == 0 {
                return Err(Fault::Unread);
            }
            self.list_missed(host, row, index, search::length_of(span))?;
            byte = search::after(byte, span);
        }
        Ok(())
    }
}

// What is said of a packet that was never sent, after so many such packets.
fn said(before: u64) -> &'static [u8] {
    if before == SAID {
        return b"barzhilup log: further packets that were never sent are counted only\n";
    }
    b"barzhilup log: PDU @: packet @ of @ bytes was never sent\n"
}

// Says that a packet of a PDU was never sent, after so many such packets.
pub fn say_never(host: &Host, before: u64, pdu: u64, packet: Packet) {
    if SAID < before {
        return;
    }
    let length = packet.bytes.len() as u64;
    let mut line = Line::<128>::new();
    line.fill(said(before), &[pdu, packet.number, length]);
    host.write_all(host::STDERR, line.bytes());
}

// A share in tenths of a per cent; 0 where it is none.
fn tenths(part: u64, whole: u64) -> u64 {
    if whole == 0 || 8589934590 < whole || whole < part {
        return 0;
    }
    (part * 1000 + whole / 2) / whole
}

// Puts a share of the packets that were sent.
pub fn put_share<const N: usize>(line: &mut Line<N>, part: u64, whole: u64) {
    let t = tenths(part, whole);
    line.fill(b" (@.@ % of those sent)", &[t / 10, t % 10]);
}
