// The causes of refusals and of notes (document 01, "What is turned down" and "Receiver"; document 02), in words that have no comma, so that they stand in a
// column; on `text`.
#![tactic(auto)]

use text::Line;

// The cause of a refusal of the receiver's, by its number: 1 to 13, and 19, 20, 22, 25 and 27 (document 02, Asks 3, 5, 10, 13 and 14).
pub fn refusal(number: u32) -> &'static [u8] {
    match number {
        1 => b"wrong receiver state",
        2 => b"carry buffer too short",
        3 => b"length not 96 to 20480",
        4 => b"header beyond correction",
        5 => b"mode and stream not in the table",
        6 => b"mode and stream not those asked for",
        7 => b"sequence outside its range",
        8 => b"Pfirst or Plast with no piece",
        9 => b"La out of place",
        10 => b"wrong expansion",
        11 => b"locator out of place",
        12 => b"displacement out of place",
        13 => b"log too short",
        19 => b"over eight marks or one over 95 or repeated",
        20 => b"copies differ in length or bytes 8 to La",
        22 => b"program number over 7 or repeated",
        25 => b"words not of a saved receiver or a field outside its range",
        27 => b"delivered or missing over 4294967295",
        _ => b"unknown",
    }
}

// The cause of a note, by its number.
pub fn note(number: u32) -> &'static [u8] {
    match number {
        1 => b"sequence",
        2 => b"wrong CRC",
        3 => b"nothing held",
        4 => b"not continued",
        5 => b"too long",
        6 => b"lost",
        7 => b"copies differ",
        8 => b"withheld",
        _ => b"unknown",
    }
}

// The cause of a refusal, with the k of the first wrong locator where it is 11.
pub fn put_with_k<const N: usize>(line: &mut Line<N>, number: u32, wrong: u32) {
    line.put(refusal(number));
    if number == 11 {
        line.fill(b" (k @)", &[u64::from(wrong)]);
    }
}

// The same at the end of a line.
pub fn put_refused<const N: usize>(line: &mut Line<N>, number: u32, wrong: u32) {
    put_with_k(line, number, wrong);
    line.put(b"\n");
}

// The cause of refusal 6 at the end of a line, with the mode and the stream that came.
pub fn put_other<const N: usize>(line: &mut Line<N>, mode: u8, stream: u8) {
    line.put(refusal(6));
    line.fill(
        b" (mode @, stream @ came)\n",
        &[u64::from(mode), u64::from(stream)],
    );
}
