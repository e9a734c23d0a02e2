//! The generated image, which is accepted.

ghost use Rattle.std.specs.Prelude.{◌≡◌, ◌≤◌, IfOk};
ghost use Rattle.console_port.specs.declared.map.TheConstants.MemoryMap.{STANDARD};
ghost use Rattle.verifier_facts.specs.Prelude.{IsAccepted};
ghost use Rattle.ijvm_soak.specs.Generated.{generated};

use crate::code::{push_main, push_method};
use crate::laws::{generated_images_are_accepted, generated_texts_are_short};
use console_port::MemoryMap;
use ijvm_image::Image;
use ijvm_verifier::{VerifiedImage, VerifyError, verify};
use std::alloc::{AllocError, Global};

/// The image of a seed and a size, 1 to 9,000.
fn generate(alloc: Global, seed: u32, size: u16) -> Result<Image, AllocError>
    requires { size ≤ 9000 }
    ensures { IfOk result (λ image. image ≡ generated seed size) }
{
    generated_texts_are_short();
    let mut text = Vec::new(alloc);
    push_main(&mut text, seed, size)?;
    let entry = text.len() as u32;
    push_method(&mut text)?;
    let pool = Vec::from_array(alloc, [0, entry])?;
    Ok(Image::new(text, pool))
}

/// The accepted image of a seed and a size. It is never refused: the only error is that memory runs out.
pub fn soak_image(alloc: Global, seed: u32, size: u16) -> Result<VerifiedImage, AllocError>
    requires { size ≤ 9000 }
    ensures image { IfOk result (λ program. program.image ≡ generated seed size) }
    ensures map { IfOk result (λ program. program.map ≡ STANDARD) }
    ensures accepted { IfOk result IsAccepted }
{
    generated_images_are_accepted();
    let image = generate(alloc, seed, size)?;
    match verify(alloc, image, MemoryMap::STANDARD) {
        Ok(program) => Ok(program),
        Err(VerifyError::OutOfMemory) => Err(AllocError),
        Err(_) => unreachable!(),
    }
}
