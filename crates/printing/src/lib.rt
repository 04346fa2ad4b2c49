// A drive as it is handed on: a page of its rows as an SVG picture, or all of it as an HTML page; on `readings`, `legend` and `particulars`.
#![tactic(auto)]

use drawing::{Block, Draws, Task};
use host::{Fd, Host};
use legend::Ground;
use overview::Scale;
use page::Shape;
use particulars::Particulars;
use readings::{Run, State};
use text::Line;

// The reading after its last bytes were written, or were not.
fn written<const N: usize>(host: &Host, run: Run, output: Fd, block: &mut Line<N>) -> Run {
    if drawing::written(host, output, block) {
        return run;
    }
    run.stopped(State::NotWritten)
}

// The task of drawing the rows.
fn rows_of(task: Task, output: Fd) -> Task {
    Task {
        draws: Draws::Rows(output),
        ..task
    }
}

// The page that an SVG picture has: the one asked for.
fn shape_of(task: Task) -> Shape {
    task.book.shape(task.first)
}

// Draws a page of rows as SVG: what stands above the rows, each PDU in its turn, and what stands below them.
pub fn svg(host: &Host, task: Task, output: Fd, buf: &mut [u8]) -> Run {
    let title = sheet::title_of(host);
    let mut block = Block::new();
    picture::put_head(
        &mut block,
        shape_of(task),
        task.clock,
        task.only.map_or(0, |page| page.get()),
        task.book.count(),
        title.bytes(),
    );
    let run = readings::read_all(host, rows_of(task, output), buf, &mut block);
    if run.state != State::Read {
        return run;
    }
    with_rows(host, task, output, run, &mut block)
}

// Writes what waits, and what stands below the rows.
fn with_rows(host: &Host, task: Task, output: Fd, run: Run, block: &mut Block) -> Run {
    let rows = written(host, run, output, block);
    if rows.state != State::Read {
        return rows;
    }
    let shape = shape_of(task);
    let ground = Ground {
        base: shape.height_of_rows(),
        width: shape.width() - page::LEFT - page::RIGHT,
        most: shape.most,
    };
    legend::put(block, ground, run.drive, run.gaps, task.clock);
    written(host, run, output, block)
}

// A reading of all that draws nothing.
fn surveyed(host: &Host, task: Task, buf: &mut [u8]) -> Run {
    let mut block = Line::<1>::new();
    readings::read_all(host, task, buf, &mut block)
}

// The task of drawing the overview strip, after a survey.
fn strip_of(task: Task, output: Fd, survey: Run) -> Task {
    Task {
        draws: Draws::Strip(output),
        scale: Scale::new(task.clock, task.book.pdus, survey.stretch.peak()),
        ..task
    }
}

// Writes the head and the overview strip.
fn with_head(host: &Host, task: Task, output: Fd, p: &Particulars, buf: &mut [u8]) -> Run {
    let mut block = Block::new();
    sheet::put_head(host, &mut block, p.lengths, task.clock, task.book.pdus);
    overview::put_head(&mut block, task.scale);
    let run = readings::read_all(host, task, buf, &mut block);
    if run.state != State::Read {
        return run;
    }
    overview::put_end(&mut block);
    written(host, run, output, &mut block)
}

// What the legend of an HTML page stands in.
fn ground_of(most: u32) -> Ground {
    Ground {
        base: 0,
        width: 672,
        most,
    }
}

// Writes the totals of a survey, and what the marks mean.
fn with_legend(host: &Host, task: Task, output: Fd, survey: Run) -> Run {
    let mut block = Line::<8192>::new();
    sheet::put_legend_head(&mut block);
    legend::put(
        &mut block,
        ground_of(task.book.most),
        survey.drive,
        survey.gaps,
        task.clock,
    );
    written(host, survey, output, &mut block)
}

// Writes the pages of rows, and the end.
fn with_pages(host: &Host, task: Task, output: Fd, buf: &mut [u8]) -> Run {
    let mut block = Block::new();
    let run = readings::read_all(host, rows_of(task, output), buf, &mut block);
    if run.state != State::Read {
        return run;
    }
    sheet::put_end(&mut block);
    written(host, run, output, &mut block)
}

// Writes the totals of a survey, the list of PSD texts, and then the pages.
fn with_totals(
    host: &Host,
    task: Task,
    output: Fd,
    survey: Run,
    p: &Particulars,
    buf: &mut [u8],
) -> Run {
    let totals = with_legend(host, task, output, survey);
    if totals.state != State::Read {
        return totals;
    }
    if !host.write_all(output, p.list.bytes()) {
        return totals.stopped(State::NotWritten);
    }
    with_pages(host, task, output, buf)
}

// Writes all, after a survey, and after the lengths of PDUs and the list of PSD texts are read.
fn with_particulars(
    host: &Host,
    task: Task,
    output: Fd,
    survey: Run,
    p: &Particulars,
    buf: &mut [u8],
) -> Run {
    let head = with_head(host, task, output, p, buf);
    if head.state != State::Read {
        return head;
    }
    with_totals(host, task, output, survey, p, buf)
}

// Draws all as HTML. A survey comes first: the head has what is only known at the log's end, and the lengths of PDUs and the texts of PSD.
pub fn html(host: &Host, task: Task, output: Fd, buf: &mut [u8]) -> Run {
    let survey = surveyed(host, task, buf);
    if survey.state != State::Read {
        return survey;
    }
    match particulars::read(host, task.input, task.start, task.clock, buf) {
        Some(p) => {
            let strip = strip_of(task, output, survey);
            with_particulars(host, strip, output, survey, &p, buf)
        }
        None => survey.stopped(State::NotRead),
    }
}
