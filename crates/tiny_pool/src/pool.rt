//! The words of a pool.

ghost use Rattle.std.specs.Prelude.{◌≡◌, ◌∷◌, ◌++◌, IfOk};
ghost use Rattle.tiny_pool.specs.Places.{numbers_in};

use crate::table::Table;
use std::alloc::{AllocError, Global};

/// The pool of a table's program whose functions but main begin at these addresses.
pub fn make_pool(alloc: Global, table: &Table, begins: &[u32]) -> Result<Vec<u32>, AllocError>
    ensures { IfOk result (λ pool. pool.items ≡ 0 ∷ (begins.now ++ numbers_in table.now)) }
{
    let mut pool = Vec::new(alloc);
    pool.push(0)?;
    pool.extend_from_slice(begins)?;
    pool.extend_from_slice(table.numbers())?;
    Ok(pool)
}
