//! A line that is cut where it gets too long.

ghost use Rattle.std.specs.Prelude.{◌≡◌, ◌≤◌, length};

use mic_base::Line;

/// The most bytes of a line.
const MOST: usize = 500;

/// The most bytes that are appended at once.
const LONGEST: usize = 64;

/// A line, and how far it may get now. What is longer is cut, with two dots in its place.
#[derive(Drop)]
pub(crate) struct Brief {
    line: Line,
    most: usize,
    is_cut: bool,
}

impl Brief {
    pub fn new() -> Brief {
        Brief {
            line: Line::new(),
            most: MOST,
            is_cut: false,
        }
    }

    /// What was appended.
    pub fn bytes(&self) -> &[u8] {
        self.line.bytes()
    }

    fn len(&self) -> usize
        ensures is { result ≡ length self.now.line }
        ensures fits { result ≤ 512 }
    {
        self.line.bytes().len()
    }

    /// Whether nothing more is appended.
    pub fn is_cut(&self) -> bool {
        self.is_cut
    }

    /// Whether it has more bytes than these.
    pub fn is_longer(&self, bytes: usize) -> bool {
        self.len() > bytes
    }

    /// From here on at most so many bytes are appended, up to `end_part`.
    pub fn begin_part(&mut self, bytes: u16) {
        self.most = (self.len() + usize::from(bytes)).min(MOST);
    }

    /// Goes on after a part, which may have been cut.
    pub fn end_part(&mut self) {
        if self.most < MOST {
            self.is_cut = false;
        }
        self.most = MOST;
    }

    /// Appends a text, where the line has room for it.
    fn add(&mut self, part: &str) {
        if part.len() <= LONGEST && self.len() + part.len() <= 512 {
            self.line.text(part);
        }
    }

    /// Appends a text, or the dots in its place.
    pub fn put(&mut self, part: &str) {
        if self.is_cut {
            return;
        }
        if part.len() <= LONGEST && self.len() + part.len() <= self.most {
            self.add(part);
        } else {
            self.cut();
        }
    }

    /// Appends the dots, and nothing after them.
    pub fn cut(&mut self) {
        if !self.is_cut {
            self.add("..");
            self.is_cut = true;
        }
    }

    /// Appends a number in decimal digits.
    pub fn put_decimal(&mut self, value: u32) {
        let digits = Line::numbered("", u64::from(value));
        self.put(digits.as_str());
    }

    /// Appends a number in three, four or eight hexadecimal digits.
    pub fn put_hex(&mut self, value: u32) {
        if self.is_cut {
            return;
        }
        if self.len() + 8 > MOST {
            self.cut();
        } else if value < 0x1000 {
            self.line.hex(u64::from(value), 3);
        } else if value < 0x1_0000 {
            self.line.hex(u64::from(value), 4);
        } else {
            self.line.hex(u64::from(value), 8);
        }
    }

    /// Appends a number below 1,000 in decimal digits, and a greater one in hexadecimal digits after `0x`.
    pub fn put_number(&mut self, value: u32) {
        if value < 1000 {
            self.put_decimal(value);
        } else {
            self.put("0x");
            self.put_hex(value);
        }
    }
}
