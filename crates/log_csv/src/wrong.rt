// What is wrong with a line of the CSV, by itself or after others.
#[derive(Clone, Copy, Debug, PartialEq, Eq)]
pub enum Wrong {
    NoFirst,
    TooLong,
    FewFields,
    ManyFields,
    NoKind,
    NoNumber,
    NoPacket,
    NoCount,
    OutOfOrder,
    Falling,
    NoEnd,
    NotTheCount,
    AfterEnd,
}

impl Wrong {
    // What is wrong, as the end of a line.
    pub fn words(self) -> &'static [u8] {
        match self {
            Wrong::NoFirst => {
                b"not pdu,kind,copy,corrected,refusal,packet,length,piece,note,cause,delivered,missing,crc32,text,pdus\n"
            }
            Wrong::TooLong => b"over 600 bytes\n",
            Wrong::FewFields => b"fewer than two fields\n",
            Wrong::ManyFields => b"more fields than there are columns\n",
            Wrong::NoKind => b"kind is none of received, lost, refused, packet, psd, note\n",
            Wrong::NoNumber => b"pdu, or a number of its kind, is not a number\n",
            Wrong::NoPacket => b"packet number over 63\n",
            Wrong::NoCount => {
                b"delivered and missing are not two numbers for a PDU and empty for others\n"
            }
            Wrong::OutOfOrder => b"pdu is out of order\n",
            Wrong::Falling => b"delivered or missing is less than before\n",
            Wrong::NoEnd => {
                b"not the last line of a log: no count of PDUs, or cause is not whole\n"
            }
            Wrong::NotTheCount => b"not the count of PDUs\n",
            Wrong::AfterEnd => b"after the last line\n",
        }
    }
}
