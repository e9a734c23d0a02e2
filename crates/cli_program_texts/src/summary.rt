//! What `verify` prints of an accepted program, and `assemble` of an image.

ghost use Rattle.std.specs.Prelude.{◌≡◌, length};
ghost use Rattle.cli_program_texts.specs.Summary.{Summarizes, sizes, summary};

use ijvm_image::Image;
use ijvm_verifier::VerifiedImage;
use mic_base::Line;

/// The line of four counts.
fn counts(text: usize, pool: usize, methods: u32, main: u32) -> Line
    ensures { result ≡ summary text pool methods main }
{
    let mut line = Line::numbered("ok text ", text as u64);
    line.number(" pool ", pool as u64);
    line.number(" methods ", u64::from(methods));
    line.number(" main ", u64::from(main));
    line.text("\n");
    line
}

/// The sizes of text and pool, and the numbers of reached methods and of main's locals.
pub fn summary_of(program: &VerifiedImage) -> Line
    ensures { Summarizes program.now result }
{
    let image = program.image();
    counts(
        image.text().len(),
        image.pool().len(),
        program.methods(),
        program.main_locals(),
    )
}

/// The sizes of text and pool.
pub fn sizes_of(image: &Image) -> Line
    ensures { result ≡ sizes (length image.now.text) (length image.now.pool) }
{
    let mut line = Line::numbered("text ", image.text().len() as u64);
    line.number(" pool ", image.pool().len() as u64);
    line.text("\n");
    line
}
