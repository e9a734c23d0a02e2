//! From a text to the verified image of its code.

ghost use Rattle.std.specs.Prelude.{◌≡◌, ◌<◌, ◌^◌, IfErr, IfOk, false, length};
ghost use Rattle.tiny_parser.specs.Prelude.{is_memory};
ghost use Rattle.tiny_compiler.specs.Compiled.{HasNoCode, IsCompiled, IsImageOf};

use crate::code_image::code_image;
use crate::verify_code::verified;
use ijvm_image::Image;
use ijvm_verifier::VerifiedImage;
use std::alloc::Global;
use tiny_parser::{TinyError, parse_tiny};

/// The image of the code of a text's program.
fn text_image(alloc: Global, text: &[u8]) -> Result<Image, TinyError>
    requires { length text.now < 2 ^ 30 }
    ensures ok { IfOk result (IsImageOf text.now) }
    ensures err { IfErr result (λ e. is_memory e ≡ false → HasNoCode text.now e) }
{
    let program = parse_tiny(alloc, text)?;
    code_image(alloc, program.functions(), program.main())
}

/// The verified image of the code of a text's program, or why the text has none.
pub fn compile(alloc: Global, text: &[u8]) -> Result<VerifiedImage, TinyError>
    requires { length text.now < 2 ^ 30 }
    ensures ok { IfOk result (IsCompiled text.now) }
    ensures err { IfErr result (λ e. is_memory e ≡ false → HasNoCode text.now e) }
{
    let image = text_image(alloc, text)?;
    match verified(alloc, image) {
        Ok(program) => Ok(program),
        Err(_) => Err(TinyError::OutOfMemory),
    }
}
