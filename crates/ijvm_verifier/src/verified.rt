//! An accepted image with what verifying found of it, which its type keeps.

ghost use Rattle.std.specs.Prelude.{◌≡◌, ◌+◌, ◌≤◌};
ghost use Rattle.verifier_facts.specs.Prelude.{IsAccepted, IsMethodCount, IsKind};

use console_port::MemoryMap;
use ijvm_image::Image;
use std::marker::Model;
use verifier_facts::Kind;

/// An image that is accepted, which its type keeps, and what verifying has found.
#[derive(Drop)]
pub struct VerifiedImage {
    image: Image,
    main_locals: u32,
    map: MemoryMap,
    methods: u32,
    kinds: Vec<Kind>,
}

impl Model for VerifiedImage {
    ghost use Rattle.verifier_facts.specs.Prelude.{VerifiedView, IsVerified};

    ghost Value = { VerifiedView };

    ghost view = { λ v. record { image = v.image; main_locals = v.main_locals; map = v.map } };

    ghost invariant = { λ v. IsVerified (record { image = v.image; main_locals = v.main_locals; map = v.map }) v.methods v.kinds.items };
}

impl VerifiedImage {
    ghost use Rattle.verifier_facts.specs.Prelude.{VerifiedView, IsVerified};

    pub(crate) fn new(
        image: Image,
        main_locals: u32,
        map: MemoryMap,
        methods: u32,
        kinds: Vec<Kind>,
    ) -> VerifiedImage
        requires { IsVerified (record { image = image; main_locals = main_locals; map = map }) methods kinds.items }
        ensures image { result.image ≡ image }
        ensures main_locals { result.main_locals ≡ main_locals }
        ensures map { result.map ≡ map }
        ensures accepted { IsAccepted result }
    {
        VerifiedImage {
            image,
            main_locals,
            map,
            methods,
            kinds,
        }
    }

    pub fn image(&self) -> &Image
        ensures is { result.now ≡ self.now.image }
        ensures accepted { IsAccepted self.now }
    {
        &self.image
    }

    /// One more than the highest local that a reached instruction of main names, or 0.
    pub fn main_locals(&self) -> u32
        ensures is { result ≡ self.now.main_locals }
        ensures fits { 0x8000 + result ≤ self.now.map.stack_end }
        ensures accepted { IsAccepted self.now }
    {
        self.main_locals
    }

    /// The memory map for which it is accepted.
    pub fn map(&self) -> MemoryMap
        ensures is { result ≡ self.now.map }
        ensures accepted { IsAccepted self.now }
    {
        self.map
    }

    /// What stands at the byte address.
    pub fn kind_at(&self, at: u32) -> Kind
        ensures { IsKind self.now.image at result }
    {
        let at = at as usize;
        if at < self.kinds.len() {
            self.kinds[at]
        } else {
            Kind::Unreached
        }
    }

    /// The number of reached methods.
    pub fn methods(&self) -> u32
        ensures { IsMethodCount self.now.image result }
    {
        self.methods
    }
}
