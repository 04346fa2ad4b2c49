// The picture: its frame, and the columns as three shapes.
use crate::columns::{Bench, Rows};
use latency::Trial;
use text::Line;

// From the first tag to the ground of the columns. Classes: a and b the most and the fewest packets that wait, d dry ticks, s the ground, p that of
// the ticks that take nothing, h the title, t words, q words that end at their place.
fn put_head<const N: usize>(line: &mut Line<N>, b: Bench, pdus: u64, trial: Trial) {
    line.fill(
        b"<svg xmlns=\"http://www.w3.org/2000/svg\" viewBox=\"0 0 736 324\" width=\"736\" height=\"324\" font-family=\"sans-serif\" font-size=\"10\">
<title>Packets waiting, latency @</title>
<style>
.a{fill:#9cbbe0}.b{fill:#4a78b5}.d{fill:#c00018}.s{fill:#f0f0f0}.p{fill:#f5dfa8}
.h{fill:#222;font-weight:bold;font-size:20px}.t{fill:#222}.q{fill:#444;text-anchor:end}
</style>
<rect width=\"736\" height=\"324\" fill=\"#fff\"/>
<text class=\"h\" x=\"64\" y=\"36\">Packets waiting, latency @</text>
<text class=\"t\" x=\"64\" y=\"56\">mode @, stream @: PDUs @, ticks @; dry ticks @; most packets waiting @</text>
<rect class=\"s\" x=\"64\" y=\"72\" width=\"648\" height=\"180\"/>
",
        &[
            u64::from(b.latency),
            u64::from(b.latency),
            u64::from(b.mode),
            u64::from(b.stream),
            pdus,
            u64::from(trial.ticks),
            u64::from(trial.dry),
            u64::from(trial.most),
        ],
    );
}

// The outline of a row's columns, from left to right: each is a step of a height.
fn put_steps<const N: usize>(line: &mut Line<N>, height: u64, row: &[u32]) {
    for &value in row {
        line.fill(b"V@h1", &[height.saturating_sub(u64::from(value))]);
    }
}

// The columns of two rows, one before the other, and before both the ground of the first ones, which take nothing: in a view that has a unit for
// each column and each packet.
fn put_columns<const N: usize>(
    line: &mut Line<N>,
    height: u64,
    most: &[u32],
    least: &[u32],
    early: usize,
) {
    line.fill(
        b"<svg x=\"64\" y=\"72\" width=\"648\" height=\"180\" viewBox=\"0 0 @ @\" preserveAspectRatio=\"none\">
<path class=\"p\" d=\"M0 0H@V@H0z\"/>
<path class=\"a\" d=\"M0 @",
        &[most.len() as u64, height, early as u64, height, height],
    );
    put_steps(&mut *line, height, most);
    line.fill(b"V@z\"/>\n<path class=\"b\" d=\"M0 @", &[height, height]);
    put_steps(&mut *line, height, least);
    line.fill(b"V@z\"/>\n</svg>\n", &[height]);
}

// A mark in each column with a dry tick.
fn put_marks<const N: usize>(line: &mut Line<N>, dry: &[bool]) {
    for (k, &is_dry) in dry.iter().enumerate() {
        if is_dry {
            line.fill(b"M@ 0h1v1h-1z", &[k as u64]);
        }
    }
}

// The strip of dry ticks.
fn put_strip<const N: usize>(line: &mut Line<N>, dry: &[bool]) {
    line.fill(
        b"<rect class=\"s\" x=\"64\" y=\"258\" width=\"648\" height=\"10\"/>
<svg x=\"64\" y=\"258\" width=\"648\" height=\"10\" viewBox=\"0 0 @ 1\" preserveAspectRatio=\"none\">
<path class=\"d\" d=\"",
        &[dry.len() as u64],
    );
    put_marks(&mut *line, dry);
    line.put(b"\"/>\n</svg>\n");
}

// What stands beside and below the columns, to the picture's end.
fn put_legend<const N: usize>(line: &mut Line<N>, b: Bench, trial: Trial) {
    line.fill(
        b"<text class=\"q\" x=\"58\" y=\"80\">@</text>
<text class=\"q\" x=\"58\" y=\"252\">0</text>
<text class=\"q\" x=\"58\" y=\"267\">dry</text>
<text class=\"t\" x=\"64\" y=\"281\">tick 0</text>
<text class=\"q\" x=\"712\" y=\"281\">tick @</text>
<rect class=\"a\" x=\"64\" y=\"295\" width=\"9\" height=\"9\"/>
<text class=\"t\" x=\"78\" y=\"303\">most waiting in a column (ticks: @)</text>
<rect class=\"b\" x=\"280\" y=\"295\" width=\"9\" height=\"9\"/>
<text class=\"t\" x=\"294\" y=\"303\">fewest waiting in it</text>
<rect class=\"d\" x=\"408\" y=\"295\" width=\"9\" height=\"9\"/>
<text class=\"t\" x=\"422\" y=\"303\">a dry tick in it</text>
<rect class=\"p\" x=\"514\" y=\"295\" width=\"9\" height=\"9\"/>
<text class=\"t\" x=\"528\" y=\"303\">nothing taken before tick @</text>
</svg>
",
        &[
            u64::from(trial.most),
            u64::from(trial.ticks.saturating_sub(1)),
            b.each as u64,
            u64::from(b.latency) * 2,
        ],
    );
}

// The picture of a latency, of which a trial is told.
pub fn put<const N: usize>(line: &mut Line<N>, b: Bench, counts: &[u32], trial: Trial) {
    let rows = Rows::new(b, counts);
    put_head(&mut *line, b, counts.len() as u64, trial);
    // The height is at least 1, since a view of no height shows nothing.
    put_columns(
        &mut *line,
        u64::from(trial.most).max(1),
        rows.most(b),
        rows.least(b),
        b.column(usize::from(b.latency) * 2),
    );
    put_strip(&mut *line, rows.dry(b));
    put_legend(line, b, trial);
}
