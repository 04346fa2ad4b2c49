// Settings that change from PDU to PDU, in a text, on `named_settings`, `text` and the toolchain's `check`: each line has the number of a PDU, from 0, and what
// changes from it on, as in "120 gain=3 program=-".
// A number sign begins a comment.
#![tactic(auto)]

use named_settings::{Given, Name};
use text::Line;

// What is wrong with a line.
#[derive(Clone, Copy, Debug, PartialEq, Eq)]
enum Wrong {
    NoPdu,
    NotRising,
    NoSetting,
    Strange,
    NoValue,
    NoByte,
    NoNumber,
    AlwaysSent,
    NoFlag,
}

impl Wrong {
    // The words that say it, before the word of the line.
    fn words(self) -> &'static [u8] {
        match self {
            Wrong::NoPdu => b": does not begin with the number of a PDU: ",
            Wrong::NotRising => b": the PDU does not come after that of the line before: ",
            Wrong::NoSetting => b": names no setting for PDU ",
            Wrong::Strange => b": no setting has this name: ",
            Wrong::NoValue => b": has no value: ",
            Wrong::NoByte => b": not a number from 0 to 255: ",
            Wrong::NoNumber => b": not a number from 0 to 4294967295: ",
            Wrong::AlwaysSent => b": not an expansion field, which can be taken away: ",
            Wrong::NoFlag => b": takes no value but -: ",
        }
    }
}

// What is wrong with a word of a line.
#[derive(Clone, Copy, Debug)]
struct Misfit<'a> {
    wrong: Wrong,
    word: &'a [u8],
}

// What is wrong with a line of the text, by its number, from 1.
#[derive(Clone, Copy, Debug)]
pub struct Fault<'a> {
    pub line: u64,
    misfit: Misfit<'a>,
}

impl<'a> Fault<'a> {
    // What is wrong, after the label of the line: the words, and the word of the text.
    pub fn words(self) -> Line<4096> {
        let mut words = Line::new();
        words.put(self.misfit.wrong.words());
        words.put(self.misfit.word);
        words.put(b"\n");
        words
    }
}

// A change: the PDU from which on it holds, and what is given of the settings from there on; the number of its line, from 1, and the text after that.
#[derive(Clone, Copy, Debug)]
pub struct Change<'a> {
    pub pdu: u64,
    pub given: Given,
    pub line: u64,
    rest: &'a [u8],
}

fn is_blank(byte: u8) -> bool {
    (byte == b' ') | (byte == b'\t') | (byte == b'\r')
}

// The first word of a line, and what comes after it; nothing where there is none.
fn first_word(line: &[u8]) -> Option<(&[u8], &[u8])> {
    let from = line.iter().position(|&byte| !is_blank(byte))?;
    let begun = &line[from..];
    let to = begun.iter().position(|&byte| is_blank(byte));
    Some(begun.split_at(to.unwrap_or(begun.len())))
}

// What is given with a value of a name: a dash takes its field away.
fn with_value(given: Given, name: Name, value: &[u8]) -> Result<Given, Wrong> {
    if check::same(value, b"-") {
        if name.is_always_sent() {
            return Err(Wrong::AlwaysSent);
        }
        return Ok(given.without(name));
    }
    if name.is_flag() {
        return Err(Wrong::NoFlag);
    }
    match text::parse(value) {
        Some(number) if number <= name.most() => Ok(given.with(name, number)),
        _ if name.most() == 255 => Err(Wrong::NoByte),
        _ => Err(Wrong::NoNumber),
    }
}

// What is given with a word: a name, an equals sign and a value, or a flag.
fn with_word(given: Given, word: &[u8]) -> Result<Given, Wrong> {
    let equals = text::find(word, 0, word.len(), b'=');
    let name = Name::find(&word[..equals]).ok_or(Wrong::Strange)?;
    if equals < word.len() {
        return with_value(given, name, &word[equals + 1..]);
    }
    if name.is_flag() {
        return Ok(given.with(name, 1));
    }
    Err(Wrong::NoValue)
}

// What is given with all words of a line.
fn with_words(given: Given, line: &[u8]) -> Result<Given, Misfit> {
    let mut next = given;
    for word in line.split(|&byte| is_blank(byte)) {
        if !word.is_empty() {
            next = with_word(next, word).map_err(|wrong| Misfit { wrong, word })?;
        }
    }
    Ok(next)
}

// The number of a PDU that a word is, not below the least that may come, where other words follow.
fn pdu_of(word: &[u8], least: u64, rest: &[u8]) -> Result<u64, Wrong> {
    let number = text::parse(word).ok_or(Wrong::NoPdu)?;
    let pdu = u64::from(number);
    if pdu < least {
        return Err(Wrong::NotRising);
    }
    if first_word(rest).is_none() {
        return Err(Wrong::NoSetting);
    }
    Ok(pdu)
}

// The PDU of a line, by its first word, and what is given from it on, by the others.
fn read<'a>(
    word: &'a [u8],
    rest: &'a [u8],
    least: u64,
    given: Given,
) -> Result<(u64, Given), Misfit<'a>> {
    let pdu = pdu_of(word, least, rest).map_err(|wrong| Misfit { wrong, word })?;
    let next = with_words(given, rest)?;
    Ok((pdu, next))
}

// A line up to its comment.
fn content(line: &[u8]) -> &[u8] {
    let end = text::find(line, 0, line.len(), b'#');
    &line[..end]
}

// The first change of a text, of which so many lines come before, where no PDU below the least may come; nothing where there is none.
fn found(text: &[u8], before: u64, least: u64, given: Given) -> Result<Option<Change>, Fault> {
    let mut line = before;
    let mut at: usize = 0;
    for written in text.split(|&byte| byte == b'\n') {
        line = line.wrapping_add(1);
        at = at.wrapping_add(written.len()).wrapping_add(1);
        if let Some((word, others)) = first_word(content(written)) {
            let (pdu, given) = read(word, others, least, given).map_err(|misfit| Fault {
                line,
                misfit,
            })?;
            return Ok(Some(Change {
                pdu,
                given,
                line,
                rest: text.get(at..).unwrap_or(&[]),
            }));
        }
    }
    Ok(None)
}

// The first change of a text, with what is given before it; nothing where there is none.
pub fn first(text: &[u8], given: Given) -> Result<Option<Change>, Fault> {
    found(text, 0, 0, given)
}

impl<'a> Change<'a> {
    // The change after this one; nothing where there is none.
    pub fn next(self) -> Result<Option<Change<'a>>, Fault<'a>> {
        found(self.rest, self.line, self.pdu.wrapping_add(1), self.given)
    }
}

// The label of a line: that of its file, and the line's number.
pub fn put_label<const N: usize>(out: &mut Line<N>, label: &[u8], line: u64) {
    out.put(label);
    out.fill(b": line @", &[line]);
}
