//! The parts of a case.

/// The parts, in the order in which they stand.
#[derive(Clone, Copy, Drop)]
pub enum Part {
    Start,
    Call,
    File,
    Console,
    Fails,
    Out,
    Err,
    Status,
    Left,
    Written,
}

impl Part {
    /// The part that a line with this first word begins.
    pub fn of(head: &str) -> Option<Part> {
        match head {
            "mic" | "mic-check" => Some(Part::Call),
            "file" => Some(Part::File),
            "console" => Some(Part::Console),
            "fails" => Some(Part::Fails),
            "out" => Some(Part::Out),
            "err" => Some(Part::Err),
            "status" => Some(Part::Status),
            "left" => Some(Part::Left),
            "written" => Some(Part::Written),
            _ => None,
        }
    }

    /// Whether the other part may stand after this one. The call is the first, and files and failing calls may be several.
    pub fn may_precede(self, next: Part) -> bool {
        match self {
            Part::Start => matches!(next, Part::Call),
            Part::File | Part::Fails | Part::Written => self as u8 <= next as u8,
            _ => (self as u8) < next as u8,
        }
    }

    /// Whether the part says what must come of the call.
    pub fn is_wanted(self) -> bool {
        self as u8 >= Part::Out as u8
    }

    /// Whether lines of contents may follow.
    pub fn has_contents(self) -> bool {
        !matches!(self, Part::Start | Part::Call | Part::Fails | Part::Status)
    }

    /// Whether the part is a file, which has a name.
    pub fn has_name(self) -> bool {
        matches!(self, Part::File | Part::Written)
    }
}
