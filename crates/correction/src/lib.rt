// Error correction of the header code (document 01, "Header code"; document 02, Ask 3), on `header` and `elimination`.
#![tactic(auto)]

ghost use Rattle.std.specs.Prelude.{◌≡◌, ◌<◌, ◌≤◌, length, true};
ghost use Rattle.field.specs.Field.{Powers, Logarithms};
ghost use Rattle.header.specs.Header.{syndromes};
ghost use Rattle.algebra.specs.Places.{All, keep, below};
ghost use Rattle.correction.specs.Correction.{answer_for, header_after, correction_of, corrected_pdu};
ghost use Rattle.correction.specs.Marks.{is_marked, allowed_marks, marks_refusal, CandidateWith, adopted as adopted_from, spare as spare_of, corrected_with, correction_with, corrected_pdu_with};
ghost use Rattle.correction.specs.declared.Correction.TheVariants.{Refused};
ghost use Rattle.correction.specs.ErrorPlaces.{value_from, located, Search};
ghost use Rattle.correction.specs.ErrorValues.{Filtered, Stripped, value_at, points_of, DistinctPlaces, Repaired};

// How many bytes of a header were corrected (0 to 4; with marks, to 8), or the refusal number (3, 19 or 4).
#[derive(Clone, Copy)]
pub enum Correction {
    Corrected(u32),
    Refused(u32),
}

// Whether place i is marked.
pub fn is_marked(marks: &[u8], i: usize) -> bool
    ensures { result ≡ is_marked marks.now i }
{
    for mark in marks {
        if usize::from(*mark) == i {
            return true;
        }
    }
    false
}

// Refusal 19 for more than eight marks, one over 95, or one repeated, else 0.
fn marks_refusal(marks: &[u8]) -> u32
    ensures { result ≡ marks_refusal marks.now }
{
    if 8 < marks.len() {
        return 19;
    }
    for (k, mark) in marks.iter().enumerate() {
        let at = usize::from(*mark);
        if 95 < at {
            return 19;
        }
        if is_marked(&marks[k + 1..], at) {
            return 19;
        }
    }
    0
}

// How many unmarked bytes may differ.
fn spare(marks: &[u8]) -> usize
    requires { length marks.now ≤ 8 }
    ensures { result ≡ spare_of marks.now }
{
    (8 - marks.len()) / 2
}

// One filter: entry j becomes t[j + 1] + x t[j]. The last entry is of no use after it.
fn filtered(powers: &[u8; 510], logarithms: &[u8; 256], t: [u8; 8], x: u8) -> [u8; 8]
    requires powers { Powers powers.now }
    requires logarithms { Logarithms logarithms.now }
    ensures { Filtered t x result 7 }
{
    let mut out = [0; 8];
    for j in 0..7 {
        out[j] = t[j + 1] ^ field::product_by(powers, logarithms, x, t[j]);
    }
    out
}

// The syndromes filtered by the points of the marks. The last entries, as many as marks, are of no use after it.
fn stripped(powers: &[u8; 510], logarithms: &[u8; 256], s: [u8; 8], marks: &[u8]) -> [u8; 8]
    requires powers { Powers powers.now }
    requires logarithms { Logarithms logarithms.now }
    ensures { Stripped s marks.now (length marks.now) result }
{
    let mut t = s;
    for mark in marks {
        let x = field::power_by(powers, usize::from(*mark));
        let next = filtered(powers, logarithms, t, x);
        t = next;
    }
    t
}

// The error value at the point z[k], one of the first m points of z, from the syndromes s.
fn error_value(
    powers: &[u8; 510],
    logarithms: &[u8; 256],
    s: [u8; 8],
    z: [u8; 8],
    m: usize,
    k: usize,
) -> u8
    requires m_bound { m ≤ 8 }
    requires k_lt_m { k < m }
    requires powers { Powers powers.now }
    requires logarithms { Logarithms logarithms.now }
    ensures { result ≡ value_at s z m k }
{
    let at = z[k];
    let mut t = s;
    let mut f = at;
    for q in 0..m {
        if q != k {
            let x = z[q];
            let next = filtered(powers, logarithms, t, x);
            t = next;
            f = field::product_by(powers, logarithms, f, at ^ x);
        }
    }
    let v = field::inverse_by(powers, logarithms, f);
    field::product_by(powers, logarithms, t[0], v)
}

// The locator at x.
fn evaluate(
    powers: &[u8; 510],
    logarithms: &[u8; 256],
    coefficients: [u8; 4],
    degree: usize,
    x: u8,
) -> u8
    requires degree_bound { degree ≤ 4 }
    requires powers { Powers powers.now }
    requires logarithms { Logarithms logarithms.now }
    ensures { result ≡ value_from coefficients x 0 degree }
{
    let mut v = 1;
    for i in (0..degree).rev() {
        v = coefficients[i] ^ field::product_by(powers, logarithms, x, v);
    }
    v
}

// The first `count` of these places.
#[derive(Clone, Copy)]
struct Places {
    pub count: usize,
    pub places: [usize; 8],
}

// Whether place i is marked, or the locator is zero at it.
fn is_located(
    powers: &[u8; 510],
    logarithms: &[u8; 256],
    coefficients: [u8; 4],
    degree: usize,
    marks: &[u8],
    i: usize,
) -> bool
    requires degree_bound { degree ≤ 4 }
    requires powers { Powers powers.now }
    requires logarithms { Logarithms logarithms.now }
    ensures { result ≡ located marks.now coefficients degree i }
{
    if is_marked(marks, i) {
        return true;
    }
    let x = field::power_by(powers, i);
    let v = evaluate(powers, logarithms, coefficients, degree, x);
    v == 0
}

// The places that are marked or at which the locator is zero, the last first.
fn error_places(
    powers: &[u8; 510],
    logarithms: &[u8; 256],
    coefficients: [u8; 4],
    degree: usize,
    marks: &[u8],
) -> Places
    requires degree_bound { degree ≤ 4 }
    requires below_len_bound { length (keep (located marks.now coefficients degree) (below 96)) ≤ 8 }
    requires powers { Powers powers.now }
    requires logarithms { Logarithms logarithms.now }
    ensures { Search (located marks.now coefficients degree) 0 result.count result.places }
{
    let mut count = 0;
    let mut places = [0; 8];
    for m in (0..96).rev() {
        if is_located(powers, logarithms, coefficients, degree, marks, m) {
            places[count] = m;
            count += 1;
        }
    }
    Places { count, places }
}

// The points of eight places.
fn points(powers: &[u8; 510], places: [usize; 8]) -> [u8; 8]
    requires { Powers powers.now }
    ensures { result ≡ points_of places }
{
    [
        field::power_by(powers, places[0]),
        field::power_by(powers, places[1]),
        field::power_by(powers, places[2]),
        field::power_by(powers, places[3]),
        field::power_by(powers, places[4]),
        field::power_by(powers, places[5]),
        field::power_by(powers, places[6]),
        field::power_by(powers, places[7]),
    ]
}

// The header with the error values added at the first m places.
fn repaired(
    powers: &[u8; 510],
    logarithms: &[u8; 256],
    header: [u8; 96],
    s: [u8; 8],
    places: [usize; 8],
    m: usize,
) -> [u8; 96]
    requires m_bound { m ≤ 8 }
    requires distinct_places { DistinctPlaces places m }
    requires powers { Powers powers.now }
    requires logarithms { Logarithms logarithms.now }
    ensures { Repaired header s places m m result }
{
    let z = points(powers, places);
    let mut out = header;
    for k in 0..m {
        let at = places[k];
        out[at] = header[at] ^ error_value(powers, logarithms, s, z, m, k);
    }
    out
}

// The only code word within reach of a header with these syndromes and marks, if there is one.
fn candidate(
    powers: &[u8; 510],
    logarithms: &[u8; 256],
    header: [u8; 96],
    s: [u8; 8],
    marks: &[u8],
) -> [u8; 96]
    requires all { All (λ x. x < 256) header }
    requires s_value { s ≡ syndromes header }
    requires marks_len_bound { length marks.now ≤ 8 }
    requires marks_value { allowed_marks marks.now ≡ true }
    requires powers { Powers powers.now }
    requires logarithms { Logarithms logarithms.now }
    ensures { CandidateWith marks.now header result }
{
    let t = stripped(powers, logarithms, s, marks);
    let h = spare(marks);
    let locator = elimination::eliminate(
        powers,
        logarithms,
        elimination::system(t, h),
        elimination::right_side(t, h),
    );
    let degree = locator.degree;
    let coefficients = locator.coefficients;
    let found = error_places(powers, logarithms, coefficients, degree, marks);
    let places = found.places;
    let m = found.count;
    repaired(powers, logarithms, header, s, places, m)
}

// A header after correction, and the answer.
#[derive(Clone, Copy)]
struct Decoded {
    pub header: [u8; 96],
    pub answer: Correction,
}

// A header that is refused stays as it is.
fn refused(header: [u8; 96]) -> Decoded
    ensures { (result.answer ≡ Refused 4) × (result.header ≡ header) }
{
    Decoded {
        header,
        answer: Correction::Refused(4),
    }
}

// A header with its marked bytes set to those of another.
fn adopted(header: &[u8; 96], other: &[u8; 96], marks: &[u8]) -> [u8; 96]
    requires { allowed_marks marks.now ≡ true }
    ensures { result ≡ adopted_from marks.now header.now other.now }
{
    let mut out = *header;
    for mark in marks {
        let at = usize::from(*mark);
        out[at] = other[at];
    }
    out
}

// The code word within reach of a header with these marks and how many bytes differ, or the header itself and 4.
fn decode(header: [u8; 96], marks: &[u8]) -> Decoded
    requires all { All (λ x. x < 256) header }
    requires marks_len_bound { length marks.now ≤ 8 }
    requires marks_value { allowed_marks marks.now ≡ true }
    ensures answer_value { result.answer ≡ answer_for header (corrected_with marks.now header) }
    ensures header_value { result.header ≡ header_after header (corrected_with marks.now header) }
{
    let powers = field::powers();
    let logarithms = field::logarithms();
    let s = header::syndromes_by(&powers, &logarithms, &header);
    if header::all_zero(s) {
        return Decoded {
            header,
            answer: Correction::Corrected(0),
        };
    }
    let fixed = candidate(&powers, &logarithms, header, s, marks);
    let with_marks = adopted(&header, &fixed, marks);
    let unmarked = header::difference(&with_marks, &fixed);
    if spare(marks) < unmarked as usize {
        return refused(header);
    }
    if header::is_code_word_by(&powers, &logarithms, &fixed) {
        let n = header::difference(&header, &fixed);
        return Decoded {
            header: fixed,
            answer: Correction::Corrected(n),
        };
    }
    refused(header)
}

// Corrects the header of a PDU in place, with a list of marked places: how many of its 96 bytes were wrong, or 3 for a
// length outside 96 to 20,480, or 19 for more than eight marks, one over 95 or one repeated, or 4 where for no code word
// twice the differing unmarked bytes plus the marks is at most eight. A refused PDU is left as it was.
pub fn correct_marked(pdu: &mut [u8], marks: &[u8]) -> Correction
    ensures value { result ≡ correction_with marks.now pdu.old }
    ensures pdu_after { pdu.new ≡ corrected_pdu_with marks.now pdu.old }
{
    if pdu.len() < 96 {
        return Correction::Refused(3);
    }
    if 20480 < pdu.len() {
        return Correction::Refused(3);
    }
    if marks_refusal(marks) != 0 {
        return Correction::Refused(19);
    }
    let decoded = decode(header::header_of(pdu), marks);
    let header = decoded.header;
    header::put_front(pdu, &header);
    decoded.answer
}

// Corrects the header of a PDU in place: how many of its 96 bytes were wrong, or 3 for a length outside 96 to 20,480, or
// 4 where no code word is within four bytes. A refused PDU is left as it was.
pub fn correct(pdu: &mut [u8]) -> Correction
    ensures value { result ≡ correction_of pdu.old }
    ensures pdu_after { pdu.new ≡ corrected_pdu pdu.old }
{
    let marks = [0u8; 1];
    correct_marked(pdu, &marks[..0])
}
