//! The tokens of the lines so far.

ghost use Rattle.std.specs.Prelude.{◌≡◌, [], IfOk, OnOk};
ghost use Rattle.tiny_tokens.specs.Tokens.{kind_of, main_only, numbered};
ghost use Rattle.tiny_tokens.specs.Reading.{add_one};
ghost use Rattle.source_text.specs.Prelude.{place_of_name};

use mic_base::Name;
use source_text::{NamedList, NotAdded};
use std::alloc::{AllocError, Global};
use std::marker::Model;
use tiny_draft::{Kind, Token};
use tiny_lexemes::Lexeme;

/// The tokens of the lines so far, and the different names among them.
#[derive(Drop)]
pub(crate) struct Held {
    names: NamedList<Name>,
    tokens: Vec<Token>,
}

impl Model for Held {
    ghost use Rattle.tiny_tokens.specs.Reading.{HeldView};

    ghost Value = { HeldView };

    ghost view = { λ held. record { names = held.names; tokens = held.tokens.items } };
}

impl Held {
    /// No tokens, and the name `main`.
    pub(crate) fn new(alloc: Global) -> Result<Held, AllocError>
        ensures { IfOk result (λ held. held ≡ record { names = main_only; tokens = [] }) }
    {
        let mut names = NamedList::new(alloc);
        if let Some(main) = Name::new(b"main") {
            number_of(&mut names, main)?;
        }
        Ok(Held {
            names,
            tokens: Vec::new(alloc),
        })
    }

    pub(crate) fn into_tokens(self) -> Vec<Token>
        ensures { result.items ≡ self.tokens }
    {
        self.tokens
    }

    /// Adds a token of this line.
    pub(crate) fn add(&mut self, line: u32, lexeme: Lexeme) -> Result<(), AllocError>
        ensures { OnOk result (self.new ≡ add_one line self.old lexeme) }
    {
        let kind = kind_of(&mut self.names, lexeme)?;
        self.tokens.push(Token { kind, line })?;
        Ok(())
    }
}

/// The number of a name; a new one goes after the others.
fn number_of(names: &mut NamedList<Name>, name: Name) -> Result<u32, AllocError>
    ensures number { IfOk result (λ n. n ≡ (numbered names.old name (place_of_name names.old name)).0) }
    ensures names { OnOk result (names.new ≡ (numbered names.old name (place_of_name names.old name)).1) }
{
    let place = names.len();
    match names.add(name, u32::MAX) {
        Ok(()) => Ok(place),
        Err(NotAdded::Again(place)) => Ok(place),
        Err(_) => Err(AllocError),
    }
}

fn kind_of(names: &mut NamedList<Name>, lexeme: Lexeme) -> Result<Kind, AllocError>
    ensures kind { IfOk result (λ k. k ≡ (kind_of names.old lexeme).0) }
    ensures names { OnOk result (names.new ≡ (kind_of names.old lexeme).1) }
{
    match lexeme {
        Lexeme::Of(sign) => Ok(Kind::Of(sign)),
        Lexeme::Name(name) => {
            let number = number_of(names, name)?;
            Ok(Kind::Name(number))
        }
        Lexeme::Number(value) => Ok(Kind::Number(value)),
        Lexeme::Bad => Ok(Kind::Bad),
        Lexeme::Unread => Ok(Kind::Unread),
    }
}
