// The next packet of a file that is read ahead in a lent buffer, as a record or in an ADTS frame. Bytes at which no frame begins can be passed over.
use crate::Ending;
use ahead::Ahead;
use host::Host;
use records::Stop;
use sent_packets::Span;

// The longest packet.
const MOST: usize = 4096;

// So many bytes are looked through at once for a frame: a frame is shorter.
const STRETCH: usize = 8192;

// What comes next: a packet, which stands in the buffer from a place on in so many bytes; or so many bytes at which no frame begins, which are passed over.
#[derive(Clone, Copy, Debug)]
pub enum Next {
    Packet { from: usize, length: usize },
    Passed(usize),
}

// A file that is read ahead in a lent buffer. Places are counted from the first byte that is read ahead.
#[derive(Drop)]
pub struct Reader<'a> {
    pub ahead: Ahead,
    pub buf: &'a mut [u8],
}

impl<'a> Reader<'a> {
    // Reads on, to so many bytes ahead. Answers how many are read ahead.
    fn fill(&mut self, host: &Host, need: usize) -> usize {
        self.ahead = self.ahead.filled(host, self.buf, need);
        self.ahead.len()
    }

    // So many bytes at a place; nothing where they are not there.
    fn bytes_at(&self, at: usize, many: usize) -> &[u8] {
        let start = self.ahead.from.wrapping_add(at);
        sent_packets::packet_of(self.buf, start, start.wrapping_add(many))
    }

    // Where the packet at a place stands, counted from there, by where its record or frame says that it stands.
    fn whole(&mut self, host: &Host, at: usize, span: Span) -> Result<Span, Ending> {
        if MOST < crate::size(span) {
            return Err(Ending::Records(Stop::Long));
        }
        let end = at.wrapping_add(span.to);
        if self.fill(host, end) < end {
            return Err(Ending::Records(Stop::Cut));
        }
        Ok(span)
    }

    // Where the packet of the record or frame at a place stands, counted from there.
    fn look_at(&mut self, host: &Host, at: usize, adts: bool) -> Result<Span, Ending> {
        let head = crate::head_length(adts);
        let end = at.wrapping_add(head);
        let size = self.fill(host, end);
        if size <= at {
            return Err(Ending::Records(Stop::End));
        }
        if size < end {
            return Err(Ending::Records(Stop::Cut));
        }
        let span = crate::span_of(self.bytes_at(at, head), adts)?;
        self.whole(host, at, span)
    }

    // Whether a frame may end at a place: a syncword stands there, or the file ends.
    fn leads(&mut self, host: &Host, at: usize) -> bool {
        let end = at.wrapping_add(2);
        let size = self.fill(host, end);
        if size < end {
            return (size == at) & self.ahead.stop.is_some();
        }
        match self.bytes_at(at, 2) {
            &[first, second] => frames::is_sync(first, second),
            _ => false,
        }
    }

    // Whether a frame begins at a place: it has a syncword, and a length behind which another one stands, or the file's end.
    fn begins(&mut self, host: &Host, at: usize) -> bool {
        match packet(self.look_at(host, at, true)) {
            Some(span) => self.leads(host, at.wrapping_add(span.to)),
            None => false,
        }
    }

    // The first place before another one, after the first byte that is read ahead, at which a frame begins.
    fn begun_inside(&mut self, host: &Host, end: usize) -> Option<usize> {
        self.fill(host, end.wrapping_add(7));
        for at in 1..end {
            if self.begins(host, at) {
                return Some(at);
            }
        }
        None
    }

    // Takes the packet that is read ahead.
    fn take(&mut self, span: Span) -> Next {
        let from = self.ahead.from.wrapping_add(span.from);
        self.ahead = self.ahead.without(span.to);
        Next::Packet {
            from,
            length: crate::size(span),
        }
    }

    // Passes over bytes up to a place.
    fn pass(&mut self, at: usize) -> Next {
        let before = self.ahead.offset;
        self.ahead = self.ahead.without(at);
        Next::Passed(self.ahead.offset.wrapping_sub(before) as usize)
    }

    // What comes of a place at which a frame should begin, and none does, or one that leads to no other nor to the file's end. Where another begins inside it,
    // it was cut, or its length is wrong, and it is passed over up to there; else it stands, if it is a frame.
    fn settle(&mut self, host: &Host, stands: Option<Span>) -> Next {
        let end = match stands {
            Some(span) => span.to,
            None => STRETCH,
        };
        match (self.begun_inside(host, end), stands) {
            (None, Some(span)) => self.take(span),
            (found, _) => self.pass(found.unwrap_or(end)),
        }
    }

    // What comes of the place at which the next frame should begin, where bytes at which none does are passed over. A frame that follows on such bytes stands
    // only if it leads to another, or to the file's end.
    fn resync(
        &mut self,
        host: &Host,
        place: Result<Span, Ending>,
        behind: bool,
    ) -> Result<Next, Ending> {
        let end = match place {
            Ok(span) => span.to,
            Err(Ending::Records(Stop::End)) => return Err(Ending::Records(Stop::End)),
            Err(_) => 0,
        };
        let leads = self.leads(host, end);
        Ok(match packet(place) {
            Some(span) if leads => self.take(span),
            Some(span) if !behind => self.settle(host, Some(span)),
            _ => self.settle(host, None),
        })
    }

    // Takes the packet at the first place, if one stands there.
    fn take_at(&mut self, place: Result<Span, Ending>) -> Result<Next, Ending> {
        let span = place?;
        if crate::size(span) == 0 {
            return Err(Ending::Empty);
        }
        Ok(self.take(span))
    }

    // Reads the next packet; where `resync` is set, bytes at which no ADTS frame begins are passed over, and `behind` says that such bytes stand before it.
    pub fn read(
        &mut self,
        host: &Host,
        adts: bool,
        resync: bool,
        behind: bool,
    ) -> Result<Next, Ending> {
        let place = self.look_at(host, 0, adts);
        let next = if resync {
            self.resync(host, place, behind)
        } else {
            self.take_at(place)
        };
        if self.ahead.stop == Some(Stop::Failed) {
            return Err(Ending::Records(Stop::Failed));
        }
        next
    }
}

// Where a packet stands that is there and has bytes.
fn packet(place: Result<Span, Ending>) -> Option<Span> {
    place.ok().filter(|span| span.from < span.to)
}
