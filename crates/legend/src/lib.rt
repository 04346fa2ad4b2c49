// What stands below the rows of a drive's picture: what its parts mean, and the totals; on `page`, `clock` and `gaps`.
#![tactic(auto)]

use clock::Clock;
use drive::{Copies, Drive, Totals};
use gaps::{Gaps, Row};
use log_csv::Loss;
use page::share;
use text::Line;

// What a legend stands in: where it begins, its width, and how many packets a bar of full height stands for.
#[derive(Clone, Copy, Debug)]
pub struct Ground {
    pub base: u64,
    pub width: u64,
    pub most: u32,
}

// What the picture's parts mean, at places below the rows' end.
fn put_meanings<const N: usize>(line: &mut Line<N>, ground: Ground) {
    line.fill(
        b"<g transform=\"translate(0 @)\">
<rect class=\"v\" x=\"64\" y=\"4\" width=\"@\" height=\"1\"/>
<rect class=\"r\" x=\"64\" y=\"17\" width=\"9\" height=\"14\"/>
<text class=\"t\" x=\"114\" y=\"28\">received</text>
<rect class=\"c1\" x=\"64\" y=\"35\" width=\"9\" height=\"14\"/>
<rect class=\"c2\" x=\"74\" y=\"35\" width=\"9\" height=\"14\"/>
<rect class=\"c3\" x=\"84\" y=\"35\" width=\"9\" height=\"14\"/>
<rect class=\"c4\" x=\"94\" y=\"35\" width=\"9\" height=\"14\"/>
<text class=\"t\" x=\"114\" y=\"46\">received, header bytes corrected: 1, 2, 3, 4 or more</text>
<path class=\"r\" d=\"M64 53h9v14h-9z\"/>
<circle class=\"w\" cx=\"68.5\" cy=\"60\" r=\"2.5\"/>
<path class=\"c1\" d=\"M74 53h9v14h-9z\"/>
<circle class=\"w\" cx=\"78.5\" cy=\"60\" r=\"2.5\"/>
<text class=\"t\" x=\"114\" y=\"64\">received, with a wrong CRC</text>
<rect class=\"l\" x=\"64\" y=\"71\" width=\"9\" height=\"14\"/>
<path class=\"x\" d=\"M66 75l5 6m0-6l-5 6\"/>
<text class=\"t\" x=\"114\" y=\"82\">lost</text>
<rect class=\"f\" x=\"64\" y=\"89\" width=\"9\" height=\"14\"/>
<path class=\"x\" d=\"M66 96h5\"/>
<text class=\"t\" x=\"114\" y=\"100\">refused</text>
<rect class=\"s\" x=\"64\" y=\"107\" width=\"30\" height=\"14\"/>
<rect class=\"b\" x=\"64\" y=\"116\" width=\"9\" height=\"5\"/>
<rect class=\"b\" x=\"74\" y=\"107\" width=\"9\" height=\"14\"/>
<rect class=\"b\" x=\"84\" y=\"112\" width=\"9\" height=\"9\"/>
<text class=\"t\" x=\"114\" y=\"118\">packets delivered in a PDU; full height: @</text>
",
        &[ground.base, ground.width, u64::from(ground.most)],
    );
}

// What the strokes of PDUs mean that came as two copies, and how many have each; nothing where none came so.
fn put_copies<const N: usize>(line: &mut Line<N>, copies: Copies) {
    if !copies.is_any() {
        return;
    }
    line.fill(
        b"<path class=\"r\" d=\"M64 143h9v14h-9zm10 0h9v14h-9zm10 0h9v14h-9z\"/>
<path class=\"a\" stroke=\"#111\" stroke-width=\"2\" d=\"M64 144h9m1 12h9m1 0h9m-9-12h9\"/>
<text class=\"t\" x=\"114\" y=\"154\">from the first copy @, second @, both @</text>
",
        &[copies.first, copies.second, copies.both],
    );
}

// What a hollow cell means, and how many PDUs have one; nothing where no PDU was withheld.
fn put_withheld<const N: usize>(line: &mut Line<N>, withheld: u64) {
    if withheld == 0 {
        return;
    }
    line.fill(
        b"<path class=\"r\" d=\"M64 161h9v14h-9z\"/>
<rect class=\"i\" x=\"65.5\" y=\"163.5\" width=\"6\" height=\"9\"/>
<text class=\"t\" x=\"114\" y=\"172\">received, and withheld: @</text>
",
        &[withheld],
    );
}

// The totals of PDUs and pieces.
fn put_totals<const N: usize>(line: &mut Line<N>, all: u64, t: Totals) {
    line.fill(
        b"<text class=\"t\" x=\"404\" y=\"28\">PDUs</text>
<text class=\"e\" x=\"580\" y=\"28\">@</text>
<text class=\"t\" x=\"414\" y=\"46\">received</text>
<text class=\"e\" x=\"580\" y=\"46\">@</text>
<text class=\"t\" x=\"424\" y=\"64\">of these corrected</text>
<text class=\"e\" x=\"580\" y=\"64\">@</text>
<text class=\"t\" x=\"414\" y=\"82\">lost</text>
<text class=\"e\" x=\"580\" y=\"82\">@</text>
<text class=\"t\" x=\"414\" y=\"100\">refused</text>
<text class=\"e\" x=\"580\" y=\"100\">@</text>
<text class=\"t\" x=\"404\" y=\"118\">wrong CRCs</text>
<text class=\"e\" x=\"580\" y=\"118\">@</text>
",
        &[all, t.received, t.corrected, t.lost, t.refused, t.crcs],
    );
}

// The share of the missing in the first of the rows that tell of packets, and in the second.
const MISSING: &[u8] =
    b"<text class=\"e\" x=\"628\" y=\"154\">@.@ %</text>\n<text class=\"t\" x=\"633\" y=\"154\">of both</text>\n";

const AT_LEAST: &[u8] =
    b"<text class=\"e\" x=\"628\" y=\"172\">@.@ %</text>\n<text class=\"t\" x=\"633\" y=\"172\">of both</text>\n";

// The loss column after the last PDU (document 02, Ask 14), where no gap is likely to have more packets missing than numbers tell: both counts, their share, and
// when that is exact.
fn put_exact<const N: usize>(line: &mut Line<N>, loss: Loss) {
    let missing = u64::from(loss.missing);
    line.fill(
        b"</text>
<text class=\"t\" x=\"404\" y=\"154\">missing</text>
<text class=\"e\" x=\"580\" y=\"154\">@</text>
<text class=\"t\" x=\"64\" y=\"190\">Withheld packets and those with a damaged piece count as missing; those before the first one delivered and after the last do not.</text>
<text class=\"t\" x=\"64\" y=\"204\">Exact where each PDU comes or is marked lost once, in turn, and fewer than 64 packets are missing between two delivered.</text>
",
        &[missing],
    );
    share::put(line, MISSING, missing, loss.both());
}

// The same where a gap is likely to have more: an estimate, and what is certain.
fn put_about<const N: usize>(line: &mut Line<N>, loss: Loss, gaps: Gaps) {
    let missing = u64::from(loss.missing);
    let about = missing.wrapping_add(gaps.hidden);
    let tenths = gaps.pace.packets_in(10);
    line.fill(
        b", about</text>
<text class=\"t\" x=\"404\" y=\"154\">missing, about</text>
<text class=\"e\" x=\"580\" y=\"154\">@</text>
<text class=\"t\" x=\"404\" y=\"172\">missing, at least</text>
<text class=\"e\" x=\"580\" y=\"172\">@</text>
<text class=\"t\" x=\"64\" y=\"190\">At least: what packet numbers tell. They repeat after 64, so between two packets delivered 64, 128, .. more may be missing.</text>
<text class=\"t\" x=\"64\" y=\"204\">About: between each two, the count that fits the numbers and is nearest to @.@ packets for each PDU lost, refused or withheld there.</text>
<text class=\"t\" x=\"64\" y=\"218\">Withheld packets and those with a damaged piece count as missing; those before the first one delivered and after the last do not.</text>
",
        &[about, missing, tenths / 10, tenths % 10],
    );
    share::put(line, MISSING, about, loss.both().wrapping_add(gaps.hidden));
    share::put(line, AT_LEAST, missing, loss.both());
}

// Delivered and missing, and what a tick means. In their place, where the log has none, a warning.
fn put_loss<const N: usize>(line: &mut Line<N>, loss: Option<Loss>, gaps: Gaps) {
    let Some(loss) = loss else {
        line.put(b"<text class=\"z\" x=\"404\" y=\"136\">the log has no loss column</text>\n");
        return;
    };
    line.fill(
        b"<path class=\"m\" d=\"M69 125v14\"/>
<text class=\"n\" x=\"80\" y=\"136\">12</text>
<text class=\"t\" x=\"404\" y=\"136\">packets delivered</text>
<text class=\"e\" x=\"580\" y=\"136\">@</text>
<text class=\"t\" x=\"114\" y=\"136\">packets missing before",
        &[u64::from(loss.delivered)],
    );
    if gaps.hidden == 0 {
        put_exact(line, loss);
    } else {
        put_about(line, loss, gaps);
    }
}

// The shares of PDUs.
fn put_shares<const N: usize>(line: &mut Line<N>, all: u64, t: Totals) {
    share::put(
        line,
        b"<text class=\"e\" x=\"628\" y=\"46\">@.@ %</text>\n<text class=\"t\" x=\"633\" y=\"46\">of PDUs</text>\n",
        t.received,
        all,
    );
    share::put(
        line,
        b"<text class=\"e\" x=\"628\" y=\"64\">@.@ %</text>\n<text class=\"t\" x=\"633\" y=\"64\">of the received</text>\n",
        t.corrected,
        t.received,
    );
    share::put(
        line,
        b"<text class=\"e\" x=\"628\" y=\"82\">@.@ %</text>\n<text class=\"t\" x=\"633\" y=\"82\">of PDUs</text>\n",
        t.lost,
        all,
    );
    share::put(
        line,
        b"<text class=\"e\" x=\"628\" y=\"100\">@.@ %</text>\n<text class=\"t\" x=\"633\" y=\"100\">of PDUs</text>\n",
        t.refused,
        all,
    );
}

// The longest run of PDUs that were lost or refused, and its time where that is known.
fn put_longest<const N: usize>(line: &mut Line<N>, row: Row, clock: Option<Clock>) {
    line.fill(
        b"<text class=\"t\" x=\"64\" y=\"232\">Longest run of PDUs lost or refused: @, PDU @ to @",
        &[
            u64::from(row.count),
            u64::from(row.from),
            u64::from(row.from.wrapping_add(row.count).wrapping_sub(1)),
        ],
    );
    if let Some(clock) = clock {
        line.put(b", at ");
        clock::put(line, clock.ms(row.from) / 1000);
        clock::put_tenths(line, b", for @.@ s", clock.ms(row.count));
    }
    line.put(b"</text>\n");
}

// What a 2 and an arrow in a cell mean, and what the record has, which counts their packets again; nothing where no PDU has one.
fn put_turns<const N: usize>(line: &mut Line<N>, loss: Loss, gaps: Gaps) {
    if (gaps.twice == 0) & (gaps.late == 0) {
        return;
    }
    line.fill(
        b"<path class=\"r\" d=\"M64 237h9v14h-9zm10 0h9v14h-9z\"/>
<text class=\"d\" x=\"68.5\" y=\"248\">2</text>
<path class=\"d\" d=\"M81.5 248v-8l-6 4z\"/>
<text class=\"t\" x=\"90\" y=\"248\">looks as if it came twice: @, out of turn: @. Counted once here; the record has delivered @, missing @.</text>
",
        &[
            u64::from(gaps.twice),
            u64::from(gaps.late),
            u64::from(loss.delivered).wrapping_add(gaps.again),
            u64::from(loss.missing).wrapping_add(gaps.excess),
        ],
    );
}

// The picture's end, after a warning where the log is not whole.
fn put_end<const N: usize>(line: &mut Line<N>, whole: bool) {
    if !whole {
        line.put(b"<text class=\"z\" x=\"592\" y=\"28\">log is not whole</text>\n");
    }
    line.put(b"</g>\n</svg>\n");
}

// What the picture's parts mean, and the totals of PDUs.
fn put_pdus<const N: usize>(line: &mut Line<N>, ground: Ground, drive: Drive) {
    let totals = drive.totals;
    let all = u64::from(drive.count);
    put_meanings(line, ground);
    put_copies(line, drive.copies);
    put_withheld(line, totals.withheld);
    put_totals(line, all, totals);
    put_shares(line, all, totals);
}

// All that stands below the rows.
pub fn put<const N: usize>(
    line: &mut Line<N>,
    ground: Ground,
    drive: Drive,
    gaps: Gaps,
    clock: Option<Clock>,
) {
    let loss = drive.totals.loss;
    put_pdus(line, ground, drive);
    put_loss(line, loss, gaps);
    if let Some(row) = gaps.longest {
        put_longest(line, row, clock);
    }
    put_turns(line, loss.unwrap_or_default(), gaps);
    put_end(line, drive.whole);
}
