// The fields of a line. A quote begins or ends a part in which a separator is a character as any other, so that a doubled one stands for itself.

// How many fields are told apart.
const MOST: usize = 16;

// How many fields a line has up to the last that is not empty, and the texts of the first ones.
#[derive(Clone, Copy, Debug)]
pub struct Fields<'a> {
    pub count: usize,
    texts: [&'a [u8]; MOST],
}

impl<'a> Fields<'a> {
    // The fields of a line.
    pub fn split(line: &'a [u8]) -> Fields<'a> {
        let mut fields = Fields {
            count: 0,
            texts: [&line[..0]; MOST],
        };
        let separator = separator(line);
        let mut quoted = false;
        let mut number: usize = 0;
        let mut from: usize = 0;
        for (i, &byte) in line.iter().enumerate() {
            if !quoted & (byte == separator) {
                fields.set(number, &line[from..i]);
                number += 1;
                from = i + 1;
            }
            quoted ^= byte == b'"';
        }
        fields.set(number, &line[from..]);
        fields
    }

    // Sets the text of a field, after those before it; one that is not among the first is only counted.
    fn set(&mut self, number: usize, text: &'a [u8]) {
        if number < MOST {
            self.texts[number] = text;
        }
        if !matches!(text, b"" | b"\"\"") {
            self.count = number.wrapping_add(1);
        }
    }

    // The text of a field, counted from 0, within its quotes, if it has some; nothing for one that there is none of.
    pub fn at(&self, number: usize) -> &'a [u8] {
        if (self.count <= number) | (MOST <= number) {
            return &[];
        }
        match self.texts[number] {
            [b'"', inside @ .., b'"'] => inside,
            text => text,
        }
    }

    // The same of a field that a line may not have.
    pub fn at_some(&self, number: Option<usize>) -> &'a [u8] {
        match number {
            Some(number) => self.at(number),
            None => &[],
        }
    }
}

// The separator of a line: its first comma, semicolon or tab outside of quotes, or a comma where there is none.
fn separator(line: &[u8]) -> u8 {
    let mut quoted = false;
    for &byte in line {
        if !quoted & matches!(byte, b',' | b';' | b'\t') {
            return byte;
        }
        quoted ^= byte == b'"';
    }
    b','
}
