// PDUs sent over a channel, one after the other: each is lost or comes through, with bytes of its header altered or bits of its pieces flipped; on `noise`,
// `disorder` and `files`.
#![tactic(auto)]

use damage::dice;
use damage::dice::Dice;
use disorder::{Outlet, Rates, Record, Road, Room, Unwritten};
use host::{Fd, Host};
use options::Command;
use records::Stop;

// How bad the channel is: how many PDUs in a thousand begin a burst of lost ones, the longest burst, how many PDUs in a thousand have a damaged
// header, the most bytes that are altered in one, how many pieces in a thousand have bits flipped (document 02, Ask 12), and how many PDUs in a thousand come
// twice, out of turn and cut.
#[derive(Clone, Copy)]
pub struct Channel {
    pub loss: u64,
    pub burst: u64,
    pub damage: u64,
    pub bytes: u64,
    pub bursts: u64,
    pub rates: Rates,
}

// Where PDUs come from, where they and the places of their altered bytes go, and the channel between.
#[derive(Clone, Copy)]
pub struct Task {
    pub input: Fd,
    pub outlet: Outlet,
    pub channel: Channel,
}

// Why no more PDUs are sent: none can be read, with `Stop::End` where all are sent, or one is not written.
#[derive(Clone, Copy, Debug, PartialEq, Eq)]
pub enum Ending {
    Reading(Stop),
    Writing(Unwritten),
}

impl From<Stop> for Ending {
    fn from(stop: Stop) -> Ending {
        Ending::Reading(stop)
    }
}

impl From<Unwritten> for Ending {
    fn from(unwritten: Unwritten) -> Ending {
        Ending::Writing(unwritten)
    }
}

// A run so far: why it ended, if it did; the dice, those of the bits that are flipped, the road, how many more PDUs the burst takes, and the bytes of the
// records that were read.
#[derive(Clone, Copy)]
pub struct Run {
    pub ending: Option<Ending>,
    dice: Dice,
    noise: Dice,
    pub road: Road,
    burst: u64,
    pub bytes: u64,
    // How many PDUs there were, were marked lost before, were lost and were damaged, how many bytes were altered, and how many pieces hit.
    pub pdus: u64,
    pub missing: u64,
    pub lost: u64,
    pub damaged: u64,
    pub altered: u64,
    pub hit: u64,
}

// What becomes of a PDU: how many PDUs a burst takes from this one on, 0 where it is not lost; how many bytes of its header are to be altered
// where it comes through; and the dice.
#[derive(Clone, Copy)]
struct Fate {
    burst: u64,
    bytes: u64,
    dice: Dice,
}

// What is left of a PDU that is lost.
const NOTHING: Record<'static> = Record {
    pdu: b"",
    marks: b"",
};

// The bits that are flipped have dice of their own: what is lost and what is altered of headers is the same with them or without.
fn begin(seed: u32) -> Run {
    Run {
        ending: None,
        dice: dice::seeded(seed),
        noise: dice::seeded(u32::MAX - seed),
        road: disorder::begin(seed),
        burst: 0,
        bytes: 0,
        pdus: 0,
        missing: 0,
        lost: 0,
        damaged: 0,
        altered: 0,
        hit: 0,
    }
}

// Sends every PDU over the channel.
pub fn send_all(host: &Host, task: Task, seed: u32) -> Run {
    let mut pdu = io::large_buffer();
    all_turns(host, task, &mut pdu, begin(seed))
}

// All turns. Their number has a bound that no run comes to, since a proved loop has to end, and nothing says that a file does.
fn all_turns(host: &Host, task: Task, pdu: &mut [u8], start: Run) -> Run {
    let mut room = Room::new();
    let mut run = start;
    let mut shown = host.time();
    for _ in 0..u64::MAX {
        match turn(host, task, &mut *pdu, &mut room, run) {
            Ok(next) => run = next,
            Err(ending) => {
                return Run {
                    ending: Some(ending),
                    ..run
                };
            }
        }
        shown = files::progress(host, Command::Channel, run.pdus, shown);
    }
    run
}

// Reads a PDU and sends it; where none can be read, what is held back is written in its place.
fn turn(host: &Host, task: Task, buf: &mut [u8], room: &mut Room, run: Run) -> Result<Run, Ending> {
    match records::read_pdu(host, task.input, buf).whole() {
        Ok(n) => sent(host, task, &mut buf[..n], room, run.after_record(n)),
        Err(stop) => {
            run.road.release(host, task.outlet, room)?;
            Err(Ending::from(stop))
        }
    }
}

// Sends a PDU: it was marked lost before, is lost here, or comes through.
fn sent(host: &Host, task: Task, pdu: &mut [u8], room: &mut Room, run: Run) -> Result<Run, Ending> {
    let fate = task.channel.fate_of(run.burst, run.dice);
    let next = Run {
        dice: fate.dice,
        burst: fate.burst.saturating_sub(1),
        pdus: run.pdus.wrapping_add(1),
        ..run
    };
    let missing = pdu.len() == 0;
    if missing | (0 < fate.burst) {
        let lost = Run {
            missing: next.missing.wrapping_add(u64::from(missing)),
            lost: next.lost.wrapping_add(u64::from(!missing)),
            ..next
        };
        return lost.on_road(host, task, NOTHING, room);
    }
    through(host, task, pdu, fate.bytes, room, next)
}

// A PDU that comes through, perhaps with pieces hit, and with so many bytes of its header altered.
fn through(
    host: &Host,
    task: Task,
    pdu: &mut [u8],
    bytes: u64,
    room: &mut Room,
    run: Run,
) -> Result<Run, Ending> {
    let hits = noise::hit_pieces(&mut *pdu, task.channel.bursts, run.noise);
    let done = damage::damaged(&mut *pdu, bytes, run.dice);
    let next = Run {
        dice: done.dice,
        noise: hits.dice,
        damaged: run.damaged.wrapping_add(u64::from(done.altered != 0)),
        altered: run.altered.wrapping_add(done.altered),
        hit: run.hit.wrapping_add(hits.hit),
        ..run
    };
    let record = Record {
        pdu,
        marks: &done.marks.places[..done.marks.count],
    };
    next.on_road(host, task, record, room)
}

impl Channel {
    // Draws a PDU's fate: four draws for each PDU, also where not all of them count.
    fn fate_of(self, burst: u64, dice: Dice) -> Fate {
        let first = dice.next();
        let second = first.next();
        let third = second.next();
        let fourth = third.next();
        Fate {
            burst: self.burst_of(burst, first, second),
            bytes: self.bytes_of(third, fourth),
            dice: fourth,
        }
    }

    // The burst that goes on, or one that begins.
    fn burst_of(self, burst: u64, begins: Dice, length: Dice) -> u64 {
        if 0 < burst {
            return burst;
        }
        if begins.happens(self.loss) {
            return length.up_to(self.burst);
        }
        0
    }

    fn bytes_of(self, damaged: Dice, count: Dice) -> u64 {
        if damaged.happens(self.damage) {
            return count.up_to(self.bytes);
        }
        0
    }
}

impl Run {
    // The run after a record of so many bytes is read.
    fn after_record(self, length: usize) -> Run {
        Run {
            bytes: self.bytes.wrapping_add(2).wrapping_add(length as u64),
            ..self
        }
    }

    // The run after what came of a PDU is handed to the road.
    fn on_road(
        self,
        host: &Host,
        task: Task,
        record: Record<'_>,
        room: &mut Room,
    ) -> Result<Run, Ending> {
        let road = self
            .road
            .pass(host, task.outlet, task.channel.rates, record, room)?;
        Ok(Run { road, ..self })
    }
}
