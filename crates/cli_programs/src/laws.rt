//! A file has one program.

ghost use Rattle.std.specs.Prelude.{ℕ, List};
ghost use Rattle.console_port.specs.declared.map.MemoryMap.{MemoryMap};
ghost use Rattle.cli_programs.specs.Program.{HasOneProgram, IsNotBoth};

use ijvm_asm::a_text_says_one_thing;
use ijvm_image::a_file_says_one_thing;

/// A file holds at most one program that is accepted for a map, and is not refused if it holds one. So two commands
/// over one file work over the same program.
pub fn a_file_has_one_program()
    ensures one_program { (map : MemoryMap) (bytes : List ℕ) → HasOneProgram map bytes }
    ensures not_both { (map : MemoryMap) (bytes : List ℕ) → IsNotBoth map bytes }
{
    a_file_says_one_thing();
    a_text_says_one_thing();
}
