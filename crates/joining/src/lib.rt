// Joins two files of logs frame by frame (document 02, Ask 11), on `join`, `frame_logs`, `side_by_side` and `files`: each turn reads a frame of either log,
// joins them, and writes what comes of it.
#![tactic(auto)]

use frame_logs::{Frame, Source, Stop};
use host::{Fd, Host, STDERR};
use options::Command;
use side_by_side::{Block, Format};
use text::Line;

// Where the logs come from, where the result goes, and in which format.
#[derive(Clone, Copy)]
pub struct Task {
    pub core: Source,
    pub enhanced: Source,
    pub output: Fd,
    pub format: Format,
}

// Why no more frames are joined: all are, the core's log or the enhanced one cannot be read on, or the result cannot be written.
#[derive(Clone, Copy, Debug, PartialEq, Eq)]
pub enum Ending {
    Done,
    Core(Stop),
    Enhanced(Stop),
    Unwritten,
}

// A run so far: why it ended, if it did; how many PDUs of either log were read; how many frames there were, and how many of them were refused with 23 and
// with 24; core packets alone, pairs, and enhanced packets dropped; and the frames without a note that yet have packets alone and packets dropped.
#[derive(Clone, Copy)]
pub struct Run {
    pub ending: Option<Ending>,
    pub core_pdus: u64,
    pub enhanced_pdus: u64,
    pub frames: u64,
    pub no_logs: u64,
    pub no_order: u64,
    pub alone: u64,
    pub both: u64,
    pub dropped: u64,
    pub unlike: u64,
}

const START: Run = Run {
    ending: None,
    core_pdus: 0,
    enhanced_pdus: 0,
    frames: 0,
    no_logs: 0,
    no_order: 0,
    alone: 0,
    both: 0,
    dropped: 0,
    unlike: 0,
};

// Joins all frames. What stopped it before the end, its ending says.
pub fn join_all(host: &Host, task: Task) -> Run {
    let mut block = Block::new();
    task.format.put_title(&mut block);
    if !write(host, task, &mut block) {
        return START.ended(Ending::Unwritten);
    }
    let run = all_turns(host, task, &mut block);
    if run.ending != Some(Ending::Done) {
        return run;
    }
    task.format.put_end(&mut block, run.frames);
    if write(host, task, &mut block) {
        return run;
    }
    run.ended(Ending::Unwritten)
}

// Writes what stands in the block, which is empty then. Answers whether that went well.
fn write(host: &Host, task: Task, block: &mut Block) -> bool {
    let written = host.write_all(task.output, block.bytes());
    block.clear();
    written
}

// All turns. Their number has a bound that no run comes to, since a proved loop has to end, and nothing says that a file does.
fn all_turns(host: &Host, task: Task, block: &mut Block) -> Run {
    let mut buf = io::large_buffer();
    let mut core = frame_logs::log_buffer();
    let mut enhanced = frame_logs::log_buffer();
    let mut res = frame_logs::result_buffer();
    let mut run = START;
    let mut shown = host.time();
    for _ in 0..u64::MAX {
        let c = task.core.read(host, run.core_pdus, &mut buf, &mut core);
        let e = task
            .enhanced
            .read(host, run.enhanced_pdus, &mut buf, &mut enhanced);
        run = run.with_pdus(c, e);
        if run.ending.is_none() {
            run = joined(
                host,
                task,
                run,
                &core[..c.words],
                &enhanced[..e.words],
                &mut res,
                &mut *block,
            );
        }
        if run.ending.is_some() {
            return run;
        }
        shown = files::progress(host, Command::Join, run.frames, shown);
    }
    run
}

// Joins a frame, and writes what comes of it; stops where that cannot be written.
fn joined(
    host: &Host,
    task: Task,
    run: Run,
    core: &[u32],
    enhanced: &[u32],
    res: &mut [u32],
    block: &mut Block,
) -> Run {
    let answer = join::join(core, enhanced, res);
    let words = words::written(res, answer.words);
    if answer.refusal == 0 {
        task.format
            .put_frame(&mut *block, run.frames, core, enhanced, words);
    } else {
        task.format
            .put_refused(&mut *block, run.frames, answer.refusal);
    }
    if !write(host, task, block) {
        return run.ended(Ending::Unwritten);
    }
    if answer.refusal == 0 {
        return run.counted(core, enhanced, words);
    }
    say_refused(
        host,
        run.frames,
        answer.refusal,
        run.no_logs.wrapping_add(run.no_order),
    );
    run.with_refused(answer.refusal)
}

// Why no more frames are joined after these two; nothing where there are more: a frame with any PDU.
fn ending_of(core: Frame, enhanced: Frame, more: bool) -> Option<Ending> {
    match (core.fault(), enhanced.fault()) {
        (Some(stop), _) => Some(Ending::Core(stop)),
        (None, Some(stop)) => Some(Ending::Enhanced(stop)),
        (None, None) if more => None,
        (None, None) => Some(Ending::Done),
    }
}

impl Run {
    fn ended(self, ending: Ending) -> Run {
        Run {
            ending: Some(ending),
            ..self
        }
    }

    // The run after a frame of either log is read.
    fn with_pdus(self, core: Frame, enhanced: Frame) -> Run {
        let more = (core.pdus != self.core_pdus) | (enhanced.pdus != self.enhanced_pdus);
        Run {
            ending: ending_of(core, enhanced, more),
            core_pdus: core.pdus,
            enhanced_pdus: enhanced.pdus,
            ..self
        }
    }

    // The run with one more frame, which is refused with a number.
    fn with_refused(self, refusal: u32) -> Run {
        Run {
            frames: self.frames.wrapping_add(1),
            no_logs: self.no_logs.wrapping_add(u64::from(refusal == 23)),
            no_order: self.no_order.wrapping_add(u64::from(refusal != 23)),
            ..self
        }
    }

    // The run with one more frame, of its two logs and what was joined.
    fn counted(self, core: &[u32], enhanced: &[u32], res: &[u32]) -> Run {
        let joined = side_by_side::packets_of(res);
        let beside = side_by_side::packets_of(enhanced);
        let alone = joined.plain.saturating_sub(joined.marked);
        let dropped = beside.plain.saturating_sub(joined.marked);
        let notes = side_by_side::packets_of(core)
            .notes
            .wrapping_add(beside.notes);
        let unlike = (notes == 0) & (alone != 0) & (dropped != 0);
        Run {
            frames: self.frames.wrapping_add(1),
            alone: self.alone.wrapping_add(alone),
            both: self.both.wrapping_add(joined.marked),
            dropped: self.dropped.wrapping_add(dropped),
            unlike: self.unlike.wrapping_add(u64::from(unlike)),
            ..self
        }
    }
}

// How many refused frames are said, each in a line.
const SAID: u64 = 5;

// A frame, counted from 0, is refused, after so many others that were.
fn say_refused(host: &Host, frame: u64, refusal: u32, before: u64) {
    if SAID < before {
        return;
    }
    if before == SAID {
        options::say(
            host,
            Command::Join,
            b": further refused frames are counted only\n",
        );
        return;
    }
    let mut line = Line::<160>::new();
    line.fill(
        b"barzhilup join: frame @: refused with @: ",
        &[frame, u64::from(refusal)],
    );
    if refusal == 24 {
        line.put(b"packet numbers that do not rise within a log\n");
    } else {
        line.put(b"words that are no log\n");
    }
    host.write_all(STDERR, line.bytes());
}
