//! The verified image of a program's code.

ghost use Rattle.std.specs.Prelude.{◌≡◌, IfOk};
ghost use Rattle.tiny_compiler.specs.Common.{STANDARD, IsAccepted, IsCoded};

use crate::laws::coded_programs_are_accepted;
use console_port::MemoryMap;
use ijvm_image::Image;
use ijvm_verifier::{VerifiedImage, VerifyError, verify};
use std::alloc::{AllocError, Global};

/// Verifies the image of a program's code on the standard map. It is never refused; the only error is out of memory.
pub fn verified(alloc: Global, image: Image) -> Result<VerifiedImage, AllocError>
    requires { IsCoded image }
    ensures image { IfOk result (λ v. v.image ≡ image) }
    ensures map { IfOk result (λ v. v.map ≡ STANDARD) }
    ensures accepted { IfOk result IsAccepted }
{
    coded_programs_are_accepted();
    match verify(alloc, image, MemoryMap::STANDARD) {
        Ok(program) => Ok(program),
        Err(VerifyError::OutOfMemory) => Err(AllocError),
        Err(_) => unreachable!(),
    }
}
