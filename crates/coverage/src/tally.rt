// What is said of a drive: its totals in a line, and in others what missing is, and when it is exact.
use drive::{Copies, Drive, Totals};
use gaps::Gaps;
use host::{Host, STDERR};
use log_csv::Loss;
use page::share;
use text::Line;

// The line's beginning, up to the PDUs that were received and their shares.
fn put_received<const N: usize>(line: &mut Line<N>, all: u64, t: Totals) {
    line.fill(
        b"barzhilup coverage: PDUs @: received @",
        &[all, t.received],
    );
    share::put(line, b" (@.@ % of PDUs)", t.received, all);
    line.fill(b", of these corrected @", &[t.corrected]);
    share::put(line, b" (@.@ % of the received)", t.corrected, t.received);
}

// How many of these were withheld, and their share; nothing where none was.
fn put_withheld<const N: usize>(line: &mut Line<N>, t: Totals) {
    if t.withheld != 0 {
        line.fill(b", withheld @", &[t.withheld]);
        share::put(line, b" (@.@ % of the received)", t.withheld, t.received);
    }
}

// The estimate of missing, and its share, before what is certain; nothing where both are the same.
fn put_about<const N: usize>(line: &mut Line<N>, loss: Loss, hidden: u64) {
    if hidden == 0 {
        return;
    }
    let about = u64::from(loss.missing).wrapping_add(hidden);
    line.fill(b"about @", &[about]);
    share::put(
        line,
        b" (@.@ % of both)",
        about,
        loss.both().wrapping_add(hidden),
    );
    line.put(b", at least ");
}

// The loss column after the last PDU (document 02, Ask 14), and its share.
fn put_loss<const N: usize>(line: &mut Line<N>, loss: Loss, hidden: u64) {
    line.fill(
        b"; packets delivered @, missing ",
        &[u64::from(loss.delivered)],
    );
    put_about(line, loss, hidden);
    line.put_decimal(u64::from(loss.missing));
    share::put(
        line,
        b" (@.@ % of both)",
        u64::from(loss.missing),
        loss.both(),
    );
}

// The line's end, with the copies where PDUs came as two.
fn put_end<const N: usize>(line: &mut Line<N>, c: Copies) {
    if c.is_any() {
        line.fill(
            b"; taken from the first copy @, the second @, both @, either @\n",
            &[c.first, c.second, c.both, c.either],
        );
    } else {
        line.put(b"\n");
    }
}

// The totals of a drive on standard error; what counts as missing, and when the count is exact, where there is one.
pub fn say(host: &Host, drive: Drive, gaps: Gaps) {
    let t = drive.totals;
    let mut line = Line::<512>::new();
    put_received(&mut line, u64::from(drive.count), t);
    put_withheld(&mut line, t);
    line.fill(
        b", lost @, refused @; wrong CRCs @",
        &[t.lost, t.refused, t.crcs],
    );
    if let Some(loss) = t.loss {
        put_loss(&mut line, loss, gaps.hidden);
    }
    put_end(&mut line, drive.copies);
    host.write_all(STDERR, line.bytes());
    if let Some(loss) = t.loss {
        say_missing(host, loss, gaps);
    }
}

// What counts as missing, and when the count is exact.
fn say_missing(host: &Host, loss: Loss, gaps: Gaps) {
    if gaps.hidden == 0 {
        host.write_all(
            STDERR,
            b"barzhilup coverage: withheld packets and those with a damaged piece count as missing; missing is exact from the first packet delivered to the last where each PDU comes or is marked lost once, in turn, and fewer than 64 packets are missing between two delivered\n",
        );
    } else {
        say_about(host, gaps);
    }
    say_turns(host, loss, gaps);
}

// What the estimate is, and what is certain.
fn say_about(host: &Host, gaps: Gaps) {
    let tenths = gaps.pace.packets_in(10);
    let mut line = Line::<512>::new();
    line.fill(
        b"barzhilup coverage: withheld packets and those with a damaged piece count as missing; at least is what packet numbers tell, which repeat after 64; about takes, between each two packets delivered, the count that fits the numbers and is nearest to @.@ packets for each PDU lost, refused or withheld there\n",
        &[tenths / 10, tenths % 10],
    );
    host.write_all(STDERR, line.bytes());
}

// How many PDUs look as if they came twice or out of turn, where there are any, and what the record has, which counts their packets again.
fn say_turns(host: &Host, loss: Loss, gaps: Gaps) {
    if (gaps.twice == 0) & (gaps.late == 0) {
        return;
    }
    let mut line = Line::<512>::new();
    line.fill(
        b"barzhilup coverage: PDUs that look as if they came twice: @, out of turn: @; their packets are counted once here, by what they look like; the receiver's record counts them again: delivered @, missing @\n",
        &[
            u64::from(gaps.twice),
            u64::from(gaps.late),
            u64::from(loss.delivered).wrapping_add(gaps.again),
            u64::from(loss.missing).wrapping_add(gaps.excess),
        ],
    );
    host.write_all(STDERR, line.bytes());
}
