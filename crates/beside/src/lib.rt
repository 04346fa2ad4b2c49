// What `barzhilup log` makes of a PDU's log beside the log itself: the files of packets and of PSD, and the comparison with the packets that were sent; on
// `packet_files` and `comparison`.
#![tactic(auto)]

use comparison::Sent;
use host::{Fd, Host};
use packet_files::Form;
use text::Line;

// The files that are written, as far as they are asked for, and what the packets are compared with.
#[derive(Clone, Copy, Debug)]
pub struct Beside {
    pub packets: Option<Fd>,
    pub adts: Option<Fd>,
    pub psd: Option<Fd>,
    pub sent: Option<Sent>,
}

// What went wrong after a PDU: which file is not written, in the order of the options, or that the packets that were sent cannot be read.
#[derive(Clone, Copy, Debug, PartialEq, Eq)]
pub enum Fault {
    Packets,
    Adts,
    Psd,
    List,
    Sent,
}

impl From<comparison::Fault> for Fault {
    fn from(fault: comparison::Fault) -> Fault {
        match fault {
            comparison::Fault::Unlisted => Fault::List,
            comparison::Fault::Unread => Fault::Sent,
        }
    }
}

// Writes what a file of a form has of a PDU's log, by a block, if there is such a file. Answers whether all is written.
fn write<const N: usize>(
    host: &Host,
    file: Option<Fd>,
    form: Form,
    log: &[u32],
    block: &mut Line<N>,
) -> bool {
    let Some(fd) = file else {
        return true;
    };
    block.clear();
    packet_files::put(block, form, log);
    host.write_all(fd, block.bytes())
}

impl Beside {
    // Writes what the files have of the log of a PDU, counted from 0, by a block, and compares its packets; a row of counts keeps how the comparison stands.
    pub fn keep<const N: usize>(
        self,
        host: &Host,
        row: &mut [u64],
        pdu: u64,
        log: &[u32],
        block: &mut Line<N>,
    ) -> Result<(), Fault> {
        if !write(host, self.packets, Form::Records, log, block) {
            return Err(Fault::Packets);
        }
        if !write(host, self.adts, Form::Frames, log, block) {
            return Err(Fault::Adts);
        }
        if !write(host, self.psd, Form::Psd, log, block) {
            return Err(Fault::Psd);
        }
        if let Some(sent) = self.sent {
            sent.compare(host, row, pdu, log)?;
        }
        Ok(())
    }
}
