// A PDU in the picture: its cell, hollow where it was withheld, with a mark where it came twice or out of turn, the copies that it is taken from, its bar, and
// the tick where packets are missing.
ghost use Rattle.std.specs.Prelude.{◌≤◌, ◌<◌};

use clock::Clock;
use drive::Pdu;
use gaps::Turn;
use log_csv::{Fate, Origin};
use page::Shape;
use text::Line;

// The cell of a PDU that was received, by how many bytes of its header were corrected.
fn received(corrected: u32) -> &'static [u8] {
    match corrected {
        0 => b"<rect class=\"r\" x=\"@\" y=\"@\" width=\"9\" height=\"14\"/>\n",
        1 => b"<rect class=\"c1\" x=\"@\" y=\"@\" width=\"9\" height=\"14\"/>\n",
        2 => b"<rect class=\"c2\" x=\"@\" y=\"@\" width=\"9\" height=\"14\"/>\n",
        3 => b"<rect class=\"c3\" x=\"@\" y=\"@\" width=\"9\" height=\"14\"/>\n",
        _ => b"<rect class=\"c4\" x=\"@\" y=\"@\" width=\"9\" height=\"14\"/>\n",
    }
}

// A PDU's cell: darker by how many bytes of its header were corrected; a lost one has a cross, and a refused one a bar, which tell the two apart
// without colours.
fn put_cell<const N: usize>(line: &mut Line<N>, fate: Fate, x: u64, y: u64)
    requires { (x < 1000000000000) × (y < 1000000000000) }
{
    match fate {
        Fate::Received { corrected, .. } => line.fill(received(corrected), &[x, y]),
        Fate::Lost => line.fill(
            b"<rect class=\"l\" x=\"@\" y=\"@\" width=\"9\" height=\"14\"/>\n<path class=\"x\" d=\"M@ @l5 6m0-6l-5 6\"/>\n",
            &[x, y, x + 2, y + 4],
        ),
        Fate::Refused(_) => line.fill(
            b"<rect class=\"f\" x=\"@\" y=\"@\" width=\"9\" height=\"14\"/>\n<path class=\"x\" d=\"M@ @h5\"/>\n",
            &[x, y, x + 2, y + 7],
        ),
    }
}

// The white inside of a cell whose PDU was withheld (document 02, Ask 10): its edge still tells what was corrected.
fn put_hollow<const N: usize>(line: &mut Line<N>, x: u64, y: u64)
    requires { (x < 1000000000000) × (y < 1000000000000) }
{
    line.fill(
        b"<rect class=\"i\" x=\"@.5\" y=\"@.5\" width=\"6\" height=\"9\"/>\n",
        &[x + 1, y + 2],
    );
}

// By how much two marks of one cell move apart: that of a wrong CRC up by two of these, and the other one down by one.
fn apart(pdu: Pdu, turn: Turn) -> u64
    ensures { result ≤ 2 }
{
    if (pdu.crcs == 0) | (turn == Turn::InTurn) {
        0
    } else {
        2
    }
}

// The mark of a PDU that looks as if it came twice, a 2, or out of turn, an arrow to the left; nothing for others.
fn put_turn<const N: usize>(line: &mut Line<N>, turn: Turn, down: u64, x: u64, y: u64)
    requires { (x < 1000000000000) × (y < 1000000000000) × (down ≤ 2) }
{
    let numbers = [x + 4, y + 11 + down];
    match turn {
        Turn::InTurn => {}
        Turn::Twice => line.fill(b"<text class=\"d\" x=\"@.5\" y=\"@\">2</text>\n", &numbers),
        Turn::Late => line.fill(b"<path class=\"d\" d=\"M@.5 @m3 0v-8l-6 4z\"/>\n", &numbers),
    }
}

// The stroke of a PDU that came as two copies: at its cell's upper edge where pieces are taken from the first, at the lower edge where they are from the second,
// at both, or at none where either would do.
fn put_origin<const N: usize>(line: &mut Line<N>, origin: Origin, x: u64, y: u64)
    requires { (x < 1000000000000) × (y < 1000000000000) }
{
    let one = b"<path class=\"a\" stroke=\"#111\" stroke-width=\"2\" d=\"M@ @h9\"/>\n";
    match origin {
        Origin::First => line.fill(one, &[x, y + 1]),
        Origin::Second => line.fill(one, &[x, y + 13]),
        Origin::Both => line.fill(
            b"<path class=\"a\" stroke=\"#111\" stroke-width=\"2\" d=\"M@ @h9m-9 12h9\"/>\n",
            &[x, y + 1],
        ),
        Origin::Either => {}
    }
}

// A PDU's bar; nothing where it delivered no packet.
fn put_bar<const N: usize>(line: &mut Line<N>, shape: Shape, packets: u32, x: u64, y: u64)
    requires { (x < 1000000000000) × (y < 1000000000000) }
{
    let h = page::bar(packets, shape.most);
    if h != 0 {
        line.fill(
            b"<rect class=\"b\" x=\"@\" y=\"@\" width=\"9\" height=\"@\"/>\n",
            &[x, y + page::STRIP + page::BAR - h, h],
        );
    }
}

// The mark of a PDU that has pieces with a wrong CRC.
fn put_wrong<const N: usize>(line: &mut Line<N>, crcs: u32, up: u64, x: u64, y: u64)
    requires { (x < 1000000000000) × (y < 1000000000000) × (up ≤ 2) }
{
    if crcs != 0 {
        line.fill(
            b"<circle class=\"w\" cx=\"@.5\" cy=\"@\" r=\"2.5\"/>\n",
            &[x + 4, y + 7 - up - up],
        );
    }
}

// The tick of a PDU, by how long the number of packets is that are missing before its own: a long one is written smaller, and so keeps clear of its neighbours.
fn tick(missing: u32) -> &'static [u8] {
    match missing {
        0 => b"",
        1..100 =>
            b"<path class=\"m\" d=\"M@ @v22\"/>\n<text class=\"n\" x=\"@\" y=\"@\">@</text>\n",
        100..1000 =>
            b"<path class=\"m\" d=\"M@ @v22\"/>\n<text class=\"o\" x=\"@\" y=\"@\">@</text>\n",
        _ => b"<path class=\"m\" d=\"M@ @v22\"/>\n<text class=\"k\" x=\"@\" y=\"@\">@</text>\n",
    }
}

// The tick where packets are missing before those of a PDU, and how many.
fn put_tick<const N: usize>(line: &mut Line<N>, missing: u32, x: u64, y: u64)
    requires { (x < 1000000000000) × (y < 1000000000000) }
{
    line.fill(
        tick(missing),
        &[x, y + page::STRIP, x, y + 46, u64::from(missing)],
    );
}

// The time at which a row begins.
fn put_time<const N: usize>(line: &mut Line<N>, clock: Clock, number: u32, y: u64)
    requires { y < 1000000000000 }
{
    line.fill(b"<text class=\"q u\" x=\"56\" y=\"@\">", &[y + 27]);
    clock::put(line, clock.ms(number) / 1000);
    line.put(b"</text>\n");
}

// The beginning of a row, before its first PDU: its time, where that is known, that PDU's number, and the strip's ground.
fn put_row<const N: usize>(
    line: &mut Line<N>,
    shape: Shape,
    clock: Option<Clock>,
    number: u32,
    x: u64,
    y: u64,
)
    requires { (x < 1000000000000) × (y < 1000000000000) }
{
    if let Some(clock) = clock {
        put_time(line, clock, number, y);
    }
    line.fill(
        b"<text class=\"q\" x=\"56\" y=\"@\">@</text>\n<rect class=\"s\" x=\"@\" y=\"@\" width=\"@\" height=\"20\"/>\n",
        &[
            y + 11,
            u64::from(number),
            x,
            y + page::STRIP,
            u64::from(shape.in_row(number)) * page::PITCH,
        ],
    );
}

// A PDU's cell, with what stands in it.
fn put_face<const N: usize>(line: &mut Line<N>, pdu: Pdu, turn: Turn, x: u64, y: u64)
    requires { (x < 1000000000000) × (y < 1000000000000) }
{
    let by = apart(pdu, turn);
    put_cell(line, pdu.fate, x, y);
    if pdu.withheld {
        put_hollow(line, x, y);
    }
    if let Fate::Received {
        origin: Some(origin),
        ..
    } = pdu.fate
    {
        put_origin(line, origin, x, y);
    }
    put_turn(line, turn, by, x, y);
    put_wrong(line, pdu.crcs, by, x, y);
}

// A PDU, which may look as if it came twice or out of turn, after the beginning of its row where it is the first there.
pub fn put_pdu<const N: usize>(
    line: &mut Line<N>,
    shape: Shape,
    clock: Option<Clock>,
    pdu: Pdu,
    turn: Turn,
) {
    let p = shape.place_of(pdu.number);
    if shape.is_first(pdu.number) {
        put_row(line, shape, clock, pdu.number, p.x, p.y);
    }
    put_face(line, pdu, turn, p.x, p.y);
    put_bar(line, shape, pdu.packets, p.x, p.y);
    put_tick(line, pdu.missing, p.x, p.y);
}
