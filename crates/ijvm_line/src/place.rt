//! The places of a line, and the dotted words that stand alone there.

ghost use Rattle.std.specs.Prelude.{◌≡◌};
ghost use Rattle.ijvm_line.specs.Reading.{mark_of};

use ijvm_tokens::Sign;

/// Where a line stands.
#[derive(Clone, Copy, Debug, PartialEq, Eq)]
pub enum Place {
    /// Outside every section.
    Outside,
    Constants,
    Locals,
    /// In main or in a method, outside its locals.
    Code,
}

/// A dotted word that stands alone on its line.
#[derive(Clone, Copy, Debug, PartialEq, Eq)]
pub enum Mark {
    BeginConstants,
    EndConstants,
    BeginMain,
    EndMain,
    EndMethod,
    BeginLocals,
    EndLocals,
}

impl Mark {
    /// What a sign that stands alone at a place says.
    pub fn find(place: Place, sign: Sign) -> Option<Mark>
        ensures { result ≡ mark_of place sign }
    {
        match (place, sign) {
            (Place::Outside, Sign::Constant) => Some(Mark::BeginConstants),
            (Place::Outside, Sign::Main) => Some(Mark::BeginMain),
            (Place::Constants, Sign::EndConstant) => Some(Mark::EndConstants),
            (Place::Locals, Sign::EndVar) => Some(Mark::EndLocals),
            (Place::Code, Sign::EndMain) => Some(Mark::EndMain),
            (Place::Code, Sign::EndMethod) => Some(Mark::EndMethod),
            (Place::Code, Sign::Var) => Some(Mark::BeginLocals),
            _ => None,
        }
    }
}
