//! What names the words of the control store and the instructions of the program.

ghost use Rattle.std.specs.Prelude.{◌≡◌, ◌<◌, ◌≤◌, ◌+◌, ◌++◌, length, Some, None, codes};
ghost use Rattle.mic_debugger.specs.Common.{Places, demands_of, IsKind, hex_text};
ghost use Rattle.mic_debugger.specs.Book.{BeginsAt, ByBook, unused_text};
ghost use Rattle.mic_debugger.specs.Lines.{clocked_line, cycle_text, place_line, place_text, next_line};
ghost use Rattle.mic_debugger.specs.View.{listing_of};

use ijvm_instr::{Instr, decode_at, print_instr};
use ijvm_verifier::{Kind, VerifiedImage};
use mal_parser::{MalProgram, print_fallback, print_statement};
use mic_base::Line;
use mic_clock::{Boundary, Counts};
use std::marker::Model;
use store_placement::Placement;

/// A placed microprogram, and the program that it runs.
#[derive(Drop)]
pub struct Listing {
    program: MalProgram,
    placement: Placement,
    image: VerifiedImage,
}

impl Model for Listing {
    ghost use Rattle.mic_debugger.specs.View.{ListingView, listing_of};
    ghost use Rattle.store_placement.specs.Prelude.{Places, demands_of};

    ghost Value = { ListingView };

    ghost view = { λ l. listing_of l.program l.placement l.image };

    ghost invariant = { λ l. Places (demands_of l.program) l.placement };
}

/// The instruction that begins at a byte address, where a reached one does.
fn reached(program: &VerifiedImage, at: u32) -> Option<Instr>
    ensures some { (i : Instr) → result ≡ Some i → BeginsAt program.now.image at i }
    ensures none { result ≡ None → IsKind program.now.image at Kind.Start → ⊥ }
{
    let image = program.image();
    match program.kind_at(at) {
        Kind::Start => decode_at(image.text(), at),
        _ => None,
    }
}

impl Listing {
    pub fn new(program: MalProgram, placement: Placement, image: VerifiedImage) -> Listing
        requires { Places (demands_of program) placement }
        ensures { result ≡ listing_of program placement image }
    {
        Listing {
            program,
            placement,
            image,
        }
    }

    /// The number of memory words.
    pub fn memory_words(&self) -> u32
        ensures value { result ≡ self.now.memory }
        ensures some { 0 < result }
    {
        self.image.map().stack_end
    }

    /// Appends the label of the statement at an address of the store.
    fn label(&self, mpc: u16, line: &mut Line)
        requires { length line.old + 64 ≤ 512 }
        ensures text { ByBook self.now (λ book. line.new ≡ line.old ++ book.label mpc) }
        ensures len { length line.new ≤ length line.old + 64 }
    {
        match self.placement.statement_at(mpc) {
            Some(s) => match self.program.statement(s).label {
                Some(label) => line.text(label.text()),
                None => line.text("-"),
            },
            None => line.text(".default"),
        }
    }

    /// Appends the text of the statement at an address of the store.
    fn text(&self, mpc: u16, line: &mut Line)
        requires { length line.old + 256 ≤ 512 }
        ensures text { ByBook self.now (λ book. line.new ≡ line.old ++ book.text mpc) }
        ensures len { length line.new ≤ length line.old + 256 }
    {
        match self.placement.statement_at(mpc) {
            Some(s) => print_statement(&self.program, s, line),
            None => self.unused_text(line),
        }
    }

    /// Appends the text of an unused word.
    fn unused_text(&self, line: &mut Line)
        requires { length line.old + 256 ≤ 512 }
        ensures text { line.new ≡ line.old ++ unused_text self.now.program }
        ensures len { length line.new ≤ length line.old + 256 }
    {
        if self.program.fallback().is_some() {
            print_fallback(&self.program, line);
        } else {
            line.text("goto 0x0fe");
        }
    }

    /// Appends the text of a cycle's statement, `stall` where the cycle was a stall.
    fn cycle_text(&self, mpc: u16, stalled: bool, line: &mut Line)
        requires { length line.old + 256 ≤ 512 }
        ensures text { ByBook self.now (λ book. line.new ≡ line.old ++ cycle_text book mpc stalled) }
        ensures len { length line.new ≤ length line.old + 256 }
    {
        if stalled {
            line.text("stall");
        } else {
            self.text(mpc, line);
        }
    }

    /// The line of a clocked cycle.
    #[tactic(auto, unfolding(crate::specs::Lines::clocked_line))]
    pub fn clocked_line(&self, cycles: u64, mpc: u16, stalled: bool) -> Line
        requires { mpc < 512 }
        ensures { ByBook self.now (λ book. result ≡ clocked_line book cycles mpc stalled) }
    {
        let mut line = Line::new();
        line.number("", cycles);
        line.text(" ");
        line.hex(u64::from(mpc), 3);
        line.text(" ");
        self.label(mpc, &mut line);
        line.text(" ");
        self.cycle_text(mpc, stalled, &mut line);
        line.text("\n");
        line
    }

    /// Appends the last boundary's address and instruction.
    fn place(&self, boundary: Option<Boundary>, line: &mut Line)
        requires { length line.old ≤ 256 }
        ensures { ByBook self.now (λ book. line.new ≡ line.old ++ place_text book boundary) }
    {
        match boundary {
            None => line.text("- -"),
            Some(boundary) => self.instruction(boundary.at, line),
        }
    }

    /// Appends a byte address and the instruction there.
    fn instruction(&self, at: u32, line: &mut Line)
        requires { length line.old ≤ 256 }
        ensures { ByBook self.now (λ book. line.new ≡ line.old ++ (hex_text 8 at ++ codes " " ++ book.instruction at)) }
    {
        line.hex(u64::from(at), 8);
        line.text(" ");
        match reached(&self.image, at) {
            Some(instr) => print_instr(instr, at, line),
            None => line.text("?"),
        }
    }

    /// Appends where a run stands.
    #[tactic(auto, unfolding(crate::specs::Lines::place_line))]
    pub fn place_line(&self, counts: &Counts, line: &mut Line)
        requires { length line.old ≤ 64 }
        ensures { ByBook self.now (λ book. line.new ≡ line.old ++ place_line book counts.now) }
    {
        line.number("cycle ", counts.cycles);
        line.text(" at ");
        self.place(counts.boundary, line);
    }

    /// The word that comes next.
    #[tactic(auto, unfolding(crate::specs::Lines::next_line))]
    pub fn next_line(&self, mpc: u16) -> Line
        requires { mpc < 512 }
        ensures { ByBook self.now (λ book. result ≡ next_line book mpc) }
    {
        let mut line = Line::new();
        line.text(" mpc ");
        line.hex(u64::from(mpc), 3);
        line.text(" ");
        self.label(mpc, &mut line);
        line.text(" ");
        self.text(mpc, &mut line);
        line.text("\n");
        line
    }
}
