//! Why a microprogram or a store file is refused: what follows the file's name in the message.

ghost use Rattle.std.specs.Prelude.{◌≡◌, ◌<◌, ◌++◌, length, codes};
ghost use Rattle.cli_micro.specs.Common.{hex_text, of_file};
ghost use Rattle.cli_micro.specs.Reasons.{line_at, mal_reason, of_two_lines, place_reason, store_reason, NamesPlaces, NamesStatements};

use cli_outside::of_line;
use mal_parser::{MalError, MalProgram};
use mic_base::Line;
use store_placement::{PlaceError, StoreError};

/// Why a text is no program, unless memory ran out.
pub fn mal_reason(error: MalError) -> Option<Line>
    ensures { result ≡ mal_reason error }
{
    match error {
        MalError::BadToken(line) => Some(of_line(line, "bad token")),
        MalError::BadStatement(line) => Some(of_line(line, "bad statement")),
        MalError::WrongMachine(line) => Some(of_line(line, "not on this machine")),
        MalError::NoSuchOperation(line) => Some(of_line(line, "no such operation")),
        MalError::DuplicateLabel(line) => Some(of_line(line, "name used twice")),
        MalError::BadFix(line) => Some(of_line(line, "bad fixed address")),
        MalError::TooMany(line) => Some(of_line(line, "more than 512 statements")),
        MalError::UnknownLabel(line) => Some(of_line(line, "unknown name")),
        MalError::LastFalls(line) => Some(of_line(line, "no statement follows")),
        MalError::NoEntry => Some(Line::of(": no Main1")),
        MalError::OutOfMemory => None,
    }
}

/// The line of the source that a statement stands on.
fn line_at(program: &MalProgram, s: u16) -> u32
    requires { s < length program.now.statements }
    ensures { result ≡ line_at program.now.statements s }
{
    program.statement(s).line
}

fn of_two_lines(first: u32, second: u32) -> Line
    ensures { result ≡ of_two_lines first second }
{
    let mut line = Line::numbered(": lines ", u64::from(first));
    line.number(" and ", u64::from(second));
    line.text(" are forced to one address");
    line
}

/// Why a program has no placement.
pub fn place_reason(program: &MalProgram, error: PlaceError) -> Line
    requires { NamesStatements (length program.now.statements) error }
    ensures { result ≡ place_reason program.now.statements error }
{
    match error {
        PlaceError::PairClash(s) => of_line(line_at(program, s), "stands in two pairs"),
        PlaceError::FixedWrongHalf(s) => of_line(line_at(program, s), "fixed in the wrong half"),
        PlaceError::FixedClash(s, t) => of_two_lines(line_at(program, s), line_at(program, t)),
        PlaceError::NoRoom => Line::of(": no room for the pairs"),
    }
}

fn bad_word(address: u16) -> Line
    requires { address < 512 }
    ensures { result ≡ of_file (codes "bad word at " ++ hex_text 3 address) }
{
    let mut line = Line::of(": bad word at ");
    line.hex(u64::from(address), 3);
    line
}

/// Why bytes are no store file, unless memory ran out.
pub(crate) fn store_reason(error: StoreError) -> Option<Line>
    requires { NamesPlaces error }
    ensures { result ≡ store_reason error }
{
    match error {
        StoreError::BadMagic => Some(Line::of(": bad magic")),
        StoreError::BadLength(length) => Some(Line::numbered(": bad length ", length as u64)),
        StoreError::BadWord(address) => Some(bad_word(address)),
        StoreError::OutOfMemory => None,
    }
}
