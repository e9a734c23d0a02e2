//! The state line: the registers of a machine, by their names.

ghost use Rattle.std.specs.Prelude.{◌≡◌, ◌≤◌, ◌<◌, ◌+◌, ◌*◌, ◌++◌, All, codes, length, map};
ghost use Rattle.mic_base.specs.Prelude.{hex_text};
ghost use Rattle.mic_clock.specs.State.{fetched_rows, first_rows, further_rows, queue_text, rows_text, state_line, word};

use crate::registers::{Registers, Tail};
use mic_base::Line;

/// Appends a register of 32 bits.
fn word(line: &mut Line, name: &str, value: u32)
    requires { length line.old + length name.now + 10 ≤ 512 }
    ensures text { line.new ≡ line.old ++ (name.now ++ codes " " ++ hex_text 8 value ++ codes " ") }
    ensures len { length line.new ≡ length line.old + length name.now + 10 }
{
    line.text(name);
    line.text(" ");
    line.hex(u64::from(value), 8);
    line.text(" ");
}

/// Appends registers of 32 bits.
fn words(line: &mut Line, rows: &[(&str, u32)])
    requires short { All (λ row. length row.0.now ≤ 3) rows.now }
    requires room { length line.old + 13 * length rows.now ≤ 512 }
    ensures text { line.new ≡ line.old ++ rows_text (map (λ row. word row.0.now row.1) rows.now) }
    ensures len { length line.new ≤ length line.old + 13 * length rows.now }
{
    for (name, value) in rows {
        word(line, name, *value);
    }
}

/// Appends two digits for each byte, or a dash where there is none.
fn queue(line: &mut Line, bytes: &[u8])
    requires few { length bytes.now ≤ 6 }
    requires room { length line.old + 12 ≤ 512 }
    ensures text { line.new ≡ line.old ++ queue_text bytes.now }
    ensures len { length line.new ≤ length line.old + 12 }
{
    if bytes.is_empty() {
        line.text("-");
    }
    for byte in bytes {
        line.hex(u64::from(*byte), 2);
    }
}

/// Appends the fetched bytes.
fn fetched(line: &mut Line, tail: &Tail)
    requires { length line.old + 33 ≤ 512 }
    ensures text { line.new ≡ line.old ++ rows_text (fetched_rows tail.now) }
    ensures len { length line.new ≤ length line.old + 33 }
{
    match tail {
        Tail::Mbr(byte) => {
            line.text("MBR ");
            line.hex(u64::from(*byte), 2);
            line.text(" ");
        }
        Tail::Queue { bytes, imar } => {
            line.text("BYTES ");
            queue(line, bytes.as_slice());
            line.text(" ");
            word(line, "IMAR", *imar);
        }
    }
}

/// Appends the registers before the fetched bytes.
fn first(line: &mut Line, r: &Registers)
    requires { length line.old + 39 ≤ 512 }
    ensures text { line.new ≡ line.old ++ rows_text (first_rows r.now) }
    ensures len { length line.new ≤ length line.old + 39 }
{
    words(line, &[("MAR", r.mar), ("MDR", r.mdr), ("PC", r.pc)]);
}

/// Appends the registers after the fetched bytes.
fn further(line: &mut Line, r: &Registers)
    requires { length line.old + 78 ≤ 512 }
    ensures text { line.new ≡ line.old ++ rows_text (further_rows r.now) }
    ensures len { length line.new ≤ length line.old + 78 }
{
    words(
        line,
        &[
            ("SP", r.sp),
            ("LV", r.lv),
            ("CPP", r.cpp),
            ("TOS", r.tos),
            ("OPC", r.opc),
            ("H", r.h),
        ],
    );
}

/// Appends the state line of these registers, at most 160 bytes, without a newline.
pub fn print_state(registers: &Registers, line: &mut Line)
    requires mpc { registers.now.mpc < 512 }
    requires room { length line.old + 160 ≤ 512 }
    ensures text { line.new ≡ line.old ++ state_line registers.now }
    ensures len { length line.new ≤ length line.old + 160 }
{
    first(line, registers);
    fetched(line, &registers.tail);
    further(line, registers);
    line.text("MPC ");
    line.hex(u64::from(registers.mpc), 3);
}
