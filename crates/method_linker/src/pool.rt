//! The constant pool of a linked program: its constants, then the entries of its methods.

ghost use Rattle.std.specs.Prelude.{◌≡◌, length, IfOk};
ghost use Rattle.ijvm_text.specs.Prelude.{pool_of};
ghost use Rattle.method_linker.specs.Linked.{entries_of, layout_of, pool_size};

use ijvm_program::Program;
use std::alloc::{AllocError, Global};

/// The number of constants and methods. 2^31 or more of either may be reported as out of memory.
#[tactic(auto, using(crate::proofs::Pools::words))]
pub fn pool_size(program: &Program) -> Result<u32, AllocError>
    ensures is { IfOk result (λ count. count ≡ pool_size program.now) }
    ensures words { IfOk result (λ count. count ≡ length (pool_of (layout_of program.now))) }
{
    let constants = program.constants().len();
    let methods = program.methods().len();
    if constants >= 1 << 31 || methods >= 1 << 31 {
        return Err(AllocError);
    }
    Ok(constants as u32 + methods as u32)
}

/// The constants, then the methods' entries.
#[tactic(auto, using(crate::proofs::Pools::pool_is))]
pub fn pool_of(alloc: Global, program: &Program, entries: &[u32]) -> Result<Vec<u32>, AllocError>
    requires { entries.now ≡ entries_of program.now }
    ensures { IfOk result (λ words. words.items ≡ pool_of (layout_of program.now)) }
{
    let mut pool = program
        .constants()
        .iter()
        .map(|c| c.value)
        .collect::<Vec<u32>>(alloc)?;
    pool.extend_from_slice(entries)?;
    Ok(pool)
}
