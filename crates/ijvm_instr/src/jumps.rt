//! How far jumps lead.

ghost use Rattle.std.specs.Prelude.{◌≡◌};
ghost use Rattle.ijvm_instr.specs.Jumps.{is_far};

/// Whether a distance is no signed number of 16 bits.
pub fn is_far(distance: i32) -> bool
    ensures { result ≡ is_far distance }
{
    distance < -32_768 || 32_767 < distance
}
