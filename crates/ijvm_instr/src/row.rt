//! The instruction table: of each instruction its name, opcode, operands, where it leads, what it needs and gives, and what it costs.

ghost use Rattle.std.specs.Prelude.{◌≡◌, ◌≤◌, length, Some};
ghost use Rattle.ijvm_instr.specs.Instructions.{plain, wide, jump, branch, call, mnemonic_of, operand_index, row_of, operand_bytes, size_of};

use crate::instr::Instr;

/// What stands after an opcode.
#[derive(Clone, Copy, Debug, PartialEq, Eq)]
pub enum Operands {
    None,
    /// A signed byte.
    Byte(i8),
    /// A local of one byte.
    Local(u8),
    /// A local of one byte and a signed byte.
    LocalByte(u8, i8),
    /// A constant or a local of two bytes, the high one first.
    Index(u16),
    /// A local of two bytes and a signed number of two bytes.
    IndexHalf(u16, i16),
    /// The distance of a jump from its opcode's address, of two bytes, the high one first.
    Offset(i16),
}

/// Where an instruction leads.
#[derive(Clone, Copy, Debug, PartialEq, Eq)]
pub enum Flow {
    Next,
    Jump(i16),
    /// To the next instruction or to the jump's target.
    Branch(i16),
    /// Into the method whose entry this constant is, and from there to the next instruction.
    Call(u16),
    Return,
    End,
}

/// What a machine spends on an instruction, in cycles.
#[derive(Clone, Copy, Debug, PartialEq, Eq)]
pub enum Cost {
    Always(u64),
    IfTaken { taken: u64, not: u64 },
    /// `late` where the method's entry is 3 modulo 4.
    ByEntry { early: u64, late: u64 },
}

/// A row of the instruction table.
#[derive(Clone, Copy, Debug, PartialEq, Eq)]
pub struct Row {
    /// The opcode stands after the prefix WIDE.
    pub wide: bool,
    pub opcode: u8,
    pub operands: Operands,
    /// The operands that it needs on the stack; a call needs its method's parameters.
    pub needs: u32,
    /// The operands that stand in the place of those.
    pub gives: u32,
    pub flow: Flow,
    /// The constant that it names.
    pub constant: Option<u16>,
    /// The local that it reads.
    pub reads: Option<u16>,
    /// The local that it stores to without a read.
    pub stores: Option<u16>,
    pub mic1: Cost,
    pub mic2: Cost,
}

impl Operands {
    /// How many bytes they have.
    pub fn size(self) -> u32
        ensures { result ≡ length (operand_bytes self) }
    {
        match self {
            Operands::None => 0,
            Operands::Byte(_) | Operands::Local(_) => 1,
            Operands::LocalByte(_, _) | Operands::Index(_) | Operands::Offset(_) => 2,
            Operands::IndexHalf(_, _) => 4,
        }
    }

    /// The local or the constant that they name.
    fn index(self) -> Option<u16>
        ensures { result ≡ operand_index self }
    {
        match self {
            Operands::None | Operands::Byte(_) | Operands::Offset(_) => None,
            Operands::Local(local) | Operands::LocalByte(local, _) => Some(u16::from(local)),
            Operands::Index(index) | Operands::IndexHalf(index, _) => Some(index),
        }
    }
}

impl Row {
    /// A row without operands that goes on to the next instruction.
    fn plain(opcode: u8, needs: u32, gives: u32, mic1: u64, mic2: u64) -> Row
        ensures { result ≡ plain opcode needs gives mic1 mic2 }
    {
        Row {
            wide: false,
            opcode,
            operands: Operands::None,
            needs,
            gives,
            flow: Flow::Next,
            constant: None,
            reads: None,
            stores: None,
            mic1: Cost::Always(mic1),
            mic2: Cost::Always(mic2),
        }
    }

    /// Such a row with the prefix WIDE before its opcode.
    fn wide(opcode: u8, needs: u32, gives: u32, mic1: u64, mic2: u64) -> Row
        ensures { result ≡ wide opcode needs gives mic1 mic2 }
    {
        Row {
            wide: true,
            ..Row::plain(opcode, needs, gives, mic1, mic2)
        }
    }

    fn jump(opcode: u8, offset: i16, mic1: u64, mic2: u64) -> Row
        ensures { result ≡ jump opcode offset mic1 mic2 }
    {
        Row {
            operands: Operands::Offset(offset),
            flow: Flow::Jump(offset),
            ..Row::plain(opcode, 0, 0, mic1, mic2)
        }
    }

    /// A branch, with its cycles where it is taken and where it is not.
    fn branch(opcode: u8, needs: u32, offset: i16, mic1: (u64, u64), mic2: (u64, u64)) -> Row
        ensures { result ≡ branch opcode needs offset mic1.0 mic1.1 mic2.0 mic2.1 }
    {
        Row {
            operands: Operands::Offset(offset),
            flow: Flow::Branch(offset),
            mic1: Cost::IfTaken {
                taken: mic1.0,
                not: mic1.1,
            },
            mic2: Cost::IfTaken {
                taken: mic2.0,
                not: mic2.1,
            },
            ..Row::plain(opcode, needs, 0, 0, 0)
        }
    }

    /// A call of the constant's method, with its cycles on Mic-1, and on Mic-2 by the method's entry.
    fn call(opcode: u8, constant: u16, mic1: u64, mic2: (u64, u64)) -> Row
        ensures { result ≡ call opcode constant mic1 mic2.0 mic2.1 }
    {
        Row {
            flow: Flow::Call(constant),
            mic2: Cost::ByEntry {
                early: mic2.0,
                late: mic2.1,
            },
            ..Row::plain(opcode, 0, 1, mic1, 0).names(constant)
        }
    }

    /// The row with these operands.
    fn with(self, operands: Operands) -> Row
        ensures { result ≡ record self { operands = operands } }
    {
        Row { operands, ..self }
    }

    /// The row with a constant's index.
    fn names(self, constant: u16) -> Row
        ensures { result ≡ record self { operands = Operands.Index constant; constant = Some constant } }
    {
        Row {
            operands: Operands::Index(constant),
            constant: Some(constant),
            ..self
        }
    }

    /// The row with operands that name a local, which it reads.
    fn reads(self, operands: Operands) -> Row
        ensures { result ≡ record self { operands = operands; reads = operand_index operands } }
    {
        Row {
            operands,
            reads: operands.index(),
            ..self
        }
    }

    /// The row with operands that name a local, which it stores to.
    fn stores(self, operands: Operands) -> Row
        ensures { result ≡ record self { operands = operands; stores = operand_index operands } }
    {
        Row {
            operands,
            stores: operands.index(),
            ..self
        }
    }

    fn leads(self, flow: Flow) -> Row
        ensures { result ≡ record self { flow = flow } }
    {
        Row { flow, ..self }
    }

    /// How many bytes its instruction has, 1 to 6.
    pub fn size(self) -> u32
        ensures is { result ≡ size_of self }
        ensures least { 1 ≤ result }
        ensures most { result ≤ 6 }
    {
        let opcode = if self.wide { 2 } else { 1 };
        opcode + self.operands.size()
    }
}

/// The instruction table: each instruction's mnemonic and its row.
fn named_row(instr: Instr) -> (&'static str, Row)
    ensures name { result.0.now ≡ mnemonic_of instr }
    ensures len { length result.0.now ≤ 13 }
    ensures row { result.1 ≡ row_of instr }
{
    use Operands::{Byte, Index, IndexHalf, Local, LocalByte};
    match instr {
        // mnemonic, opcode, needs, gives, cycles on Mic-1, cycles on Mic-2
        Instr::Nop => ("NOP", Row::plain(0x00, 0, 0, 2, 1)),
        Instr::Bipush(b) => ("BIPUSH", Row::plain(0x10, 0, 1, 4, 2).with(Byte(b))),
        Instr::LdcW(k) => ("LDC_W", Row::plain(0x13, 0, 1, 8, 3).names(k)),
        Instr::Iload(k) => ("ILOAD", Row::plain(0x15, 0, 1, 6, 3).reads(Local(k))),
        Instr::Istore(k) => ("ISTORE", Row::plain(0x36, 1, 0, 7, 5).stores(Local(k))),
        Instr::Pop => ("POP", Row::plain(0x57, 1, 0, 4, 3)),
        Instr::Dup => ("DUP", Row::plain(0x59, 1, 2, 3, 2)),
        Instr::Swap => ("SWAP", Row::plain(0x5F, 2, 2, 7, 6)),
        Instr::Iadd => ("IADD", Row::plain(0x60, 2, 1, 4, 3)),
        Instr::Isub => ("ISUB", Row::plain(0x64, 2, 1, 4, 3)),
        Instr::Iand => ("IAND", Row::plain(0x7E, 2, 1, 4, 3)),
        Instr::Iinc(k, b) => ("IINC", Row::plain(0x84, 0, 0, 7, 3).reads(LocalByte(k, b))),
        Instr::Ifeq(o) => ("IFEQ", Row::branch(0x99, 1, o, (11, 8), (8, 6))),
        Instr::Iflt(o) => ("IFLT", Row::branch(0x9B, 1, o, (11, 8), (8, 6))),
        Instr::IfIcmpeq(o) => ("IF_ICMPEQ", Row::branch(0x9F, 2, o, (13, 10), (10, 8))),
        Instr::Goto(o) => ("GOTO", Row::jump(0xA7, o, 7, 4)),
        Instr::Ireturn => ("IRETURN", Row::plain(0xAC, 1, 0, 9, 8).leads(Flow::Return)),
        Instr::Ior => ("IOR", Row::plain(0xB0, 2, 1, 4, 3)),
        Instr::Invokevirtual(k) => ("INVOKEVIRTUAL", Row::call(0xB6, k, 23, (12, 13))),
        Instr::WideIload(k) => ("WIDE ILOAD", Row::wide(0x15, 0, 1, 9, 4).reads(Index(k))),
        Instr::WideIstore(k) => ("WIDE ISTORE", Row::wide(0x36, 1, 0, 10, 6).stores(Index(k))),
        Instr::WideIinc(k, n) => (
            "WIDE IINC",
            Row::wide(0x84, 0, 0, 12, 5).reads(IndexHalf(k, n)),
        ),
        Instr::In => ("IN", Row::plain(0xFC, 0, 1, 6, 5)),
        Instr::Out => ("OUT", Row::plain(0xFD, 1, 0, 8, 7)),
        Instr::Err => ("ERR", Row::plain(0xFE, 0, 0, 1, 0).leads(Flow::End)),
        Instr::Halt => ("HALT", Row::plain(0xFF, 0, 0, 1, 0).leads(Flow::End)),
    }
}

/// The mnemonic, after WIDE where its opcode is.
pub fn name(instr: Instr) -> &'static str
    ensures is { result.now ≡ mnemonic_of instr }
    ensures len { length result.now ≤ 13 }
{
    named_row(instr).0
}

impl Instr {
    /// Its row of the table.
    pub fn row(self) -> Row
        ensures { result ≡ row_of self }
    {
        named_row(self).1
    }
}
