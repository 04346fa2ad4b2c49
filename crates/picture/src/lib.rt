// What stands above the rows of a drive's picture, as SVG: its first tag, its colours, its title and the numbers and times of its columns; on `page` and
// `clock`.
#![tactic(auto)]

ghost use Rattle.std.specs.Prelude.{◌≤◌, ◌<◌};

use clock::Clock;
use page::{Shape, title};
use text::Line;

// From the first tag to the picture's name.
fn put_tag<const N: usize>(line: &mut Line<N>, width: u64, height: u64) {
    line.fill(
        b"<svg xmlns=\"http://www.w3.org/2000/svg\" viewBox=\"0 0 @ @\" width=\"@\" height=\"@\" font-family=\"sans-serif\" font-size=\"10\">\n<title>",
        &[width, height, width, height],
    );
}

// The classes. Cells r received, c1 to c4 corrected, l lost, f refused; x their marks, w that of a wrong CRC, d those of a PDU that looks as if it came twice or
// out of turn, i the inside of a withheld one; b bars, s their ground; m ticks, n, o and k their numbers; h the title, q numbers of rows, u times, g numbers of columns, t
// words, e numbers of totals, z a warning, v a line. The cells' colours grow darker in this order, so that they stay apart in grey.
pub fn put_colours<const N: usize>(line: &mut Line<N>) {
    line.put(
        b".r{fill:#cfe9dc}.c1{fill:#f3c746}.c2{fill:#dba326}.c3{fill:#b87d17}.c4{fill:#8c5a0e}.f{fill:#4a4a4a}.l{fill:#7a0a16}
.x{stroke:#fff;stroke-width:1.4;fill:none}.w{fill:#111;stroke:#fff}.i{fill:#fff;stroke:#333}
.d{fill:#111;stroke:#fff;stroke-width:2;paint-order:stroke;font-size:9px;font-weight:bold;text-anchor:middle}
.b{fill:#4a78b5}.s{fill:#f0f0f0}.m{stroke:#c00018;stroke-width:2;fill:none}
.n,.o,.k{fill:#a00014;text-anchor:middle;font-size:7px}.o{font-size:5px}.k{font-size:3.8px}
.h{fill:#222;font-weight:bold}.q{fill:#444;text-anchor:end}.g{fill:#555;font-size:9px}.u{font-size:9px}
.t{fill:#222}.e{fill:#222;text-anchor:end}.z{fill:#a00014;font-weight:bold}.v{fill:#bbb}
",
    );
}

// From the classes to the picture's title: white paper.
fn put_paper<const N: usize>(line: &mut Line<N>, width: u64, height: u64, size: u64) {
    line.fill(
        b"</style>
<rect width=\"@\" height=\"@\" fill=\"#fff\"/>
<text class=\"h\" x=\"64\" y=\"36\" font-size=\"@\">",
        &[width, height, size],
    );
}

// The number of a column, every ten, and before it the time after a row's first PDU, where that is known.
fn put_column<const N: usize>(line: &mut Line<N>, clock: Option<Clock>, column: u32) {
    let x = page::LEFT + u64::from(column) * page::PITCH;
    if let Some(clock) = clock {
        line.fill(b"<text class=\"g\" x=\"@\" y=\"56\">+", &[x]);
        clock::put_tenths(line, b"@.@ s</text>\n", clock.ms(column));
    }
    line.fill(
        b"<text class=\"g\" x=\"@\" y=\"66\">+@</text>\n",
        &[x, u64::from(column)],
    );
}

// The ruler: what the numbers at its left are, and the numbers of the columns, every ten.
fn put_ruler<const N: usize>(line: &mut Line<N>, columns: u32, clock: Option<Clock>) {
    line.put(b"<text class=\"q\" x=\"56\" y=\"66\">PDU</text>\n");
    for column in (0..columns).step_by(10) {
        put_column(line, clock, column);
    }
}

// Which page it is, where there are more than one.
fn put_page<const N: usize>(line: &mut Line<N>, width: u64, number: u32, pages: u32)
    requires { 24 < width }
{
    if 1 < pages {
        line.fill(
            b"<text class=\"e\" x=\"@\" y=\"16\">page @ of @</text>\n",
            &[width - page::RIGHT, u64::from(number), u64::from(pages)],
        );
    }
}

// From the first tag to the classes' end.
fn put_start<const N: usize>(line: &mut Line<N>, width: u64, height: u64, text: &[u8]) {
    put_tag(line, width, height);
    title::put(line, text);
    line.put(b"</title>\n<style>\n");
    put_colours(line);
}

// From the classes' end to that of the title.
fn put_title<const N: usize>(line: &mut Line<N>, width: u64, height: u64, text: &[u8])
    requires { 88 ≤ width }
{
    let size = title::size(text, width - page::LEFT - page::RIGHT);
    put_paper(line, width, height, size);
    title::put(line, text);
    line.put(b"</text>\n");
}

// All that stands above the rows of a picture by itself, one of so many pages, in place of what the block has.
pub fn put_head<const N: usize>(
    block: &mut Line<N>,
    shape: Shape,
    clock: Option<Clock>,
    number: u32,
    pages: u32,
    text: &[u8],
) {
    let width = shape.width();
    let height = shape.height();
    block.clear();
    put_start(block, width, height, text);
    put_title(block, width, height, text);
    put_page(block, width, number, pages);
    put_ruler(block, shape.columns, clock);
}

// All that stands above the rows of one of so many pages in HTML, after the title.
pub fn put_page_head<const N: usize>(
    line: &mut Line<N>,
    shape: Shape,
    clock: Option<Clock>,
    number: u32,
    pages: u32,
) {
    line.fill(
        b": PDU @ to @, page @ of @</h2>\n<svg class=\"rows\" viewBox=\"0 44 @ @\" font-size=\"10\">\n",
        &[
            u64::from(shape.from),
            u64::from(shape.last()),
            u64::from(number),
            u64::from(pages),
            shape.width(),
            shape.height_of_rows() - 44,
        ],
    );
    put_ruler(line, shape.columns, clock);
}
