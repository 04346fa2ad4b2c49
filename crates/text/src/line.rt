// A line of text, or several, in a buffer of its own.
ghost use Rattle.std.specs.Prelude.{◌≤◌};

// The bytes that were put, one after the other, as many as there is room for. A contract sees their list, `line_bytes`.
#[derive(Clone, Copy)]
pub struct Line<const N: usize> {
    room: [u8; N],
    length: usize,
    ghost has_room: { length ≤ N },
}

impl<const N: usize> Line<N> {
    ghost use Rattle.std.specs.Prelude.{◌≡◌, [], ◌++◌, length, take};
    ghost use Rattle.text.specs.LineBytes.{line_bytes};

    pub fn new() -> Line<N>
        ensures { line_bytes result ≡ [] }
    {
        Line {
            room: [0; N],
            length: 0,
        }
    }

    pub fn len(&self) -> usize
        ensures { result ≡ length (line_bytes self.now) }
    {
        self.length
    }

    pub fn bytes(&self) -> &[u8]
        ensures { result.now ≡ line_bytes self.now }
    {
        &self.room[..self.length]
    }

    // Takes everything out.
    pub fn clear(&mut self)
        ensures { line_bytes self.new ≡ [] }
    {
        self.length = 0;
    }

    // Puts bytes after what is there, as many as there is room for.
    pub fn put(&mut self, bytes: &[u8])
        ensures { line_bytes self.new ≡ take N (line_bytes self.old ++ bytes.now) }
    {
        self.length = crate::put(&mut self.room, self.length, bytes);
    }

    // Puts a number's decimal digits, as `put` puts bytes.
    pub fn put_decimal(&mut self, number: u64) {
        self.length = crate::put_decimal(&mut self.room, self.length, number);
    }

    // Puts a template with its numbers, as `put` puts bytes: the first at sign stands for the first number, and so on.
    pub fn fill(&mut self, template: &[u8], numbers: &[u64]) {
        self.length = crate::fill(&mut self.room, self.length, template, numbers);
    }
}
