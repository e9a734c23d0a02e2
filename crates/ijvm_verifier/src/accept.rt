//! Verifies an image: the searches in their order, and then the size of main's frame.

ghost use Rattle.std.specs.Prelude.{◌≡◌, ◌≢◌, ◌⊎◌, ℕ, IfOk, IfErr};
ghost use Rattle.console_port.specs.Prelude.{IsMap};
ghost use Rattle.verifier_facts.specs.Prelude.{IsTrueOf, IsAccepted};
ghost use Rattle.verifier_reach.specs.Prelude.{States};
ghost use Rattle.ijvm_verifier.specs.Survey.{IsSurvey};

use crate::count::count_locals;
use crate::sweep::{count_methods, sweep_all};
use crate::verified::VerifiedImage;
use console_port::{FRAME, MemoryMap};
use ijvm_image::Image;
use std::alloc::Global;
use verifier_facts::{Kind, VerifyError, accepted_images_keep_sound};
use verifier_locals::{check_locals, graph_of};
use verifier_reach::search_all;

/// What the searches find in an image.
#[derive(Drop)]
struct Survey {
    main_locals: u32,
    methods: u32,
    kinds: Vec<Kind>,
}

/// What is found, if nothing is wrong but perhaps the size of main's frame.
fn survey_of(alloc: Global, image: &Image) -> Result<Survey, VerifyError>
    ensures ok { IfOk result (λ s. IsSurvey image.now s.main_locals s.methods s.kinds.items) }
    ensures err { IfErr result (λ e. States image.now e) }
{
    let seen = search_all(alloc, image)?;
    let graph = graph_of(alloc, image, &seen)?;
    check_locals(alloc, image, &seen, &graph)?;
    let kinds = sweep_all(alloc, image, &seen)?;
    let main_locals = count_locals(image, &seen, &graph);
    let methods = count_methods(image, &seen);
    Ok(Survey {
        main_locals,
        methods,
        kinds,
    })
}

/// The image, if it is accepted. A refused image is dropped. Where several facts of it are true, any one is returned.
pub fn verify(alloc: Global, image: Image, map: MemoryMap) -> Result<VerifiedImage, VerifyError>
    requires { IsMap map.stack_end }
    ensures image { IfOk result (λ v. v.image ≡ image) }
    ensures map { IfOk result (λ v. v.map ≡ map) }
    ensures accepted { IfOk result IsAccepted }
    ensures refused { IfErr result (λ e. (e ≡ VerifyError.OutOfMemory) ⊎ IsTrueOf image map.stack_end e) }
    // The large map has room for all locals that main may name.
    ensures large { map ≡ MemoryMap.LARGE → IfErr result (λ e. (count : ℕ) → e ≢ VerifyError.MainFrame count) }
{
    accepted_images_keep_sound();
    let found = survey_of(alloc, &image)?;
    if map.stack_end < FRAME + found.main_locals {
        return Err(VerifyError::MainFrame(found.main_locals));
    }
    Ok(VerifiedImage::new(image, found.main_locals, map, found.methods, found.kinds))
}
