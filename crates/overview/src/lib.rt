// The overview strip: for each stretch of a drive, the share of its PDUs that were lost or refused; on `clock`.
#![tactic(auto)]

ghost use Rattle.std.specs.Prelude.{◌≤◌};

use clock::Clock;
use text::Line;

// Where the strip begins, and how wide and high it is.
const LEFT: u64 = 64;

const WIDTH: u64 = 1000;

const HEIGHT: u64 = 60;

// Where bars stand.
const GROUND: u64 = 70;

// The stretches: how long each is, in seconds where times are known and else in PDUs; how many there are; and the share, in thousandths, that a bar of full
// height stands for.
#[derive(Clone, Copy, Debug)]
pub struct Scale {
    pub clock: Option<Clock>,
    pub step: u32,
    pub count: u32,
    pub full: u32,
}

// A stretch so far: its number, how many PDUs it has, and how many of them were lost and refused; and the greatest share, in thousandths, of a stretch before.
#[derive(Clone, Copy, Debug)]
pub struct Stretch {
    pub number: u32,
    pub pdus: u32,
    pub lost: u32,
    pub refused: u32,
    pub peak: u64,
}

// How many PDUs a stretch has in a drive of so many.
fn pdus_for(pdus: u32) -> u32 {
    match pdus {
        0..1000 => 10,
        1000..5000 => 50,
        5000..10000 => 100,
        10000..50000 => 500,
        50000..100000 => 1000,
        _ => pdus / 100,
    }
}

// How many seconds a stretch has in a drive of so many.
fn seconds_for(seconds: u32) -> u32 {
    match seconds {
        0..1000 => 10,
        1000..3000 => 30,
        3000..6000 => 60,
        6000..12000 => 120,
        12000..60000 => 600,
        60000..360000 => 3600,
        _ => seconds / 100,
    }
}

// Where a PDU lies: in seconds, at most 4,294,967,295, where times are known, and else in PDUs.
fn place_of(clock: Option<Clock>, number: u32) -> u32 {
    match clock {
        Some(clock) => (clock.ms(number) / 1000).min(4294967295) as u32,
        None => number,
    }
}

// The share, in thousandths, that a bar of full height stands for, if this is the greatest.
fn full_for(peak: u64) -> u32 {
    match peak {
        0..=100 => 100,
        101..=200 => 200,
        201..=500 => 500,
        _ => 1000,
    }
}

// A share in thousandths, at most 1,000; 0 of nothing.
fn thousandths(part: u32, whole: u32) -> u64
    ensures { result ≤ 1000 }
{
    (u64::from(part) * 1000)
        .checked_div(u64::from(whole))
        .unwrap_or(0)
        .min(1000)
}

// What a stretch is counted in.
#[derive(Clone, Copy, Debug, PartialEq, Eq)]
enum Unit {
    Pdus,
    Seconds,
    Minutes,
}

impl Unit {
    // The strip's name, with an at sign for how long a stretch is.
    fn heading(self) -> &'static [u8] {
        match self {
            Unit::Pdus => b"<h2>Overview: PDUs lost or refused, in each @ PDUs</h2>\n",
            Unit::Seconds => b"<h2>Overview: PDUs lost or refused, in each @ s</h2>\n",
            Unit::Minutes => b"<h2>Overview: PDUs lost or refused, in each @ min</h2>\n",
        }
    }
}

impl Scale {
    // The stretches of a drive of so many PDUs, of which the worst has lost or refused a share in thousandths.
    pub fn new(clock: Option<Clock>, pdus: u32, peak: u64) -> Scale {
        let extent = place_of(clock, pdus);
        let step = if clock.is_some() {
            seconds_for(extent)
        } else {
            pdus_for(extent)
        };
        let last = place_of(clock, pdus.wrapping_sub(1));
        Scale {
            clock,
            step,
            count: last.checked_div(step).unwrap_or(0).wrapping_add(1),
            full: full_for(peak),
        }
    }

    // The number of the stretch that has a PDU.
    pub fn stretch_of(self, number: u32) -> u32 {
        place_of(self.clock, number)
            .checked_div(self.step)
            .unwrap_or(0)
    }

    // Where a stretch begins in the strip.
    fn x_of(self, number: u32) -> u64 {
        let place = (u64::from(number) * WIDTH)
            .checked_div(u64::from(self.count))
            .unwrap_or(0);
        LEFT.wrapping_add(place)
    }

    // Every how many stretches there is a number below the strip.
    fn spacing(self) -> u32
        ensures { 1 ≤ result }
    {
        (self.count / 10).max(1)
    }

    // What a stretch is counted in.
    fn unit(self) -> Unit {
        if self.clock.is_none() {
            return Unit::Pdus;
        }
        if self.step % 60 == 0 {
            return Unit::Minutes;
        }
        Unit::Seconds
    }

    // How long a stretch is, in its unit.
    fn length(self) -> u64 {
        match self.unit() {
            Unit::Minutes => u64::from(self.step / 60),
            Unit::Pdus | Unit::Seconds => u64::from(self.step),
        }
    }
}

impl Stretch {
    // A stretch of no PDUs yet.
    pub fn new(number: u32, peak: u64) -> Stretch {
        Stretch {
            number,
            pdus: 0,
            lost: 0,
            refused: 0,
            peak,
        }
    }

    // How many PDUs are lost or refused.
    fn absent(self) -> u32 {
        self.lost.wrapping_add(self.refused)
    }

    // The greatest share up to the end of a stretch.
    pub fn peak(self) -> u64 {
        self.peak.max(thousandths(self.absent(), self.pdus))
    }

    // A stretch with one more PDU.
    pub fn with_pdu(self, lost: bool, refused: bool) -> Stretch {
        Stretch {
            pdus: self.pdus.wrapping_add(1),
            lost: self.lost.wrapping_add(u32::from(lost)),
            refused: self.refused.wrapping_add(u32::from(refused)),
            ..self
        }
    }
}

// The height of a bar for so many PDUs of a stretch: at least 1 where there are any.
fn height(part: u32, whole: u32, full: u32) -> u64
    ensures { result ≤ 60 }
{
    if (part == 0) | (full == 0) {
        return 0;
    }
    (thousandths(part, whole) * HEIGHT / u64::from(full)).clamp(1, HEIGHT)
}

// A stretch's width: some is left free at its right.
fn width(from: u64, to: u64) -> u64 {
    match to.saturating_sub(from) {
        0 => 1,
        1 => 1,
        2 => 2,
        n => n - 1,
    }
}

fn put_bar<const N: usize>(line: &mut Line<N>, template: &[u8], x: u64, w: u64, h: u64)
    requires { h ≤ 60 }
{
    if h != 0 {
        line.fill(template, &[x, GROUND - h, w, h]);
    }
}

// Where a stretch begins in the drive, as text.
fn put_begin<const N: usize>(line: &mut Line<N>, s: Scale, number: u32) {
    let from = clock::times(number, s.step);
    match s.clock {
        Some(_) => clock::put(line, from),
        None => line.put_decimal(from),
    }
}

// The number below the strip where a stretch begins, for some of them.
fn put_number<const N: usize>(line: &mut Line<N>, s: Scale, number: u32, x: u64) {
    if number % s.spacing() != 0 {
        return;
    }
    line.fill(
        b"<path stroke=\"#666\" d=\"M@ 70v4\"/>\n<text class=\"t\" text-anchor=\"middle\" x=\"@\" y=\"84\">",
        &[x, x],
    );
    put_begin(line, s, number);
    line.put(b"</text>\n");
}

// A stretch: its bar for lost and refused PDUs, over it that for lost ones alone, and below the strip where it begins.
pub fn put_stretch<const N: usize>(line: &mut Line<N>, s: Scale, one: Stretch) {
    let x = s.x_of(one.number);
    let w = width(x, s.x_of(one.number.wrapping_add(1)));
    put_number(line, s, one.number, x);
    put_bar(
        line,
        b"<rect class=\"f\" x=\"@\" y=\"@\" width=\"@\" height=\"@\"/>\n",
        x,
        w,
        height(one.absent(), one.pdus, s.full),
    );
    put_bar(
        line,
        b"<rect class=\"l\" x=\"@\" y=\"@\" width=\"@\" height=\"@\"/>\n",
        x,
        w,
        height(one.lost, one.pdus, s.full),
    );
}

// The strip's beginning: what it is, its ground, and what its height stands for.
pub fn put_head<const N: usize>(line: &mut Line<N>, s: Scale) {
    line.fill(s.unit().heading(), &[s.length()]);
    line.fill(
        b"<svg class=\"strip\" viewBox=\"0 0 1088 90\" font-size=\"10\">
<rect class=\"s\" x=\"64\" y=\"10\" width=\"1000\" height=\"60\"/>
<path class=\"v\" d=\"M64 10h1000v1h-1000zM64 40h1000v1h-1000zM64 70h1000v1h-1000z\"/>
<text class=\"q\" x=\"58\" y=\"14\">@ %</text>
<text class=\"q\" x=\"58\" y=\"74\">0 %</text>
",
        &[u64::from(s.full / 10)],
    );
}

// The strip's end.
pub fn put_end<const N: usize>(line: &mut Line<N>) {
    line.put(b"</svg>\n");
}
