//! The image of a program.

ghost use Rattle.std.specs.Prelude.{◌≡◌, ◌≤◌, length};
ghost use Rattle.ijvm_image.specs.Image.{ImageView, IsWithinLimits};

use std::alloc::{AllocError, AllocFailed};
use std::marker::Model;
use thiserror::Error;

/// Why a file is no image file. The first fault from the front is reported.
#[derive(Clone, Copy, Debug, PartialEq, Eq, Error)]
pub enum ImageError {
    /// A field or a block is cut at the file's end, which is here.
    #[error("truncated at {0}")]
    Truncated(usize),
    #[error("bad magic")]
    BadMagic,
    /// An origin that is neither the text's nor the pool's, or comes twice.
    #[error("bad origin {0}")]
    BadOrigin(u32),
    /// A size above 65,536, or a pool's that is no whole number of words.
    #[error("bad size {0}")]
    BadSize(u32),
    /// Bytes follow the second block, from this place on.
    #[error("trailing bytes at {0}")]
    Trailing(usize),
    #[error("out of memory")]
    OutOfMemory,
}

impl From<AllocError> for ImageError {
    ghost use Rattle.ijvm_image.specs.declared.image.ImageError.TheVariants.{OutOfMemory};

    ghost from_gives = { λ _ e. e ≡ OutOfMemory };

    fn from(_error: AllocError) -> ImageError {
        ImageError::OutOfMemory
    }
}

/// The text, at most 65,536 bytes of methods' headers and instructions, and the pool, at most 16,384 constants.
#[derive(Drop)]
pub struct Image {
    text: Vec<u8>,
    pool: Vec<u32>,
}

impl Model for Image {
    ghost Value = { ImageView };

    ghost view = { λ image. record { text = image.text.items; pool = image.pool.items } };

    ghost invariant = { λ image. IsWithinLimits image.text.items image.pool.items };
}

impl Image {
    pub fn new(text: Vec<u8>, pool: Vec<u32>) -> Image
        requires { IsWithinLimits text.items pool.items }
        ensures text { result.text ≡ text.items }
        ensures pool { result.pool ≡ pool.items }
    {
        Image { text, pool }
    }

    pub fn text(&self) -> &[u8]
        ensures is { result.now ≡ self.now.text }
        ensures fits { length result.now ≤ 65536 }
    {
        &self.text
    }

    pub fn pool(&self) -> &[u32]
        ensures is { result.now ≡ self.now.pool }
        ensures fits { length result.now ≤ 16384 }
    {
        &self.pool
    }
}
