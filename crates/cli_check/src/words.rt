//! What the words of a command line ask for.

ghost use Rattle.std.specs.Prelude.{◌≡◌, map, string_bytes};
ghost use Rattle.std.specs.Option.{option_map};
ghost use Rattle.cli_check.specs.Words.{asked, asked_in, asked_of, asked_of_four, asked_of_three, asked_of_two, asked_plain, is_file, machine_named, option_in};

/// The machines, by the names that `--machine` takes.
#[derive(Clone, Copy, Debug, PartialEq, Eq)]
pub(crate) enum MachineName {
    Mic1,
    Mic2,
    Mic3,
}

/// A microprogram's file, and the machine that it is for.
#[derive(Clone, Copy, Debug, PartialEq, Eq)]
pub(crate) struct Request<T> {
    pub file: T,
    pub machine: MachineName,
}

/// The machine of this name.
fn machine_named(word: &str) -> Option<MachineName>
    ensures { result ≡ machine_named word.now }
{
    match word {
        "mic1" => Some(MachineName::Mic1),
        "mic2" => Some(MachineName::Mic2),
        "mic3" => Some(MachineName::Mic3),
        _ => None,
    }
}

/// The machine of an option and its value in one word.
fn option_in(word: &str) -> Option<MachineName>
    ensures { result ≡ option_in word.now }
{
    match word {
        "--machine=mic1" => Some(MachineName::Mic1),
        "--machine=mic2" => Some(MachineName::Mic2),
        "--machine=mic3" => Some(MachineName::Mic3),
        _ => None,
    }
}

/// Whether a word names a file: it is not empty, and does not begin with a dash, or is a dash alone.
fn is_file(word: &[u8]) -> bool
    ensures { result ≡ is_file word.now }
{
    match word {
        [] => false,
        [_] => true,
        [first, ..] => *first != b'-',
    }
}

fn asked_of<'a>(file: &'a str, machine: Option<MachineName>) -> Option<Request<&'a str>>
    ensures { option_map asked result ≡ asked_of file.entry.now machine }
{
    match machine {
        Some(machine) if is_file(file.as_bytes()) => Some(Request { file, machine }),
        _ => None,
    }
}

/// A request for the file with this name, as it follows `--`: it may begin with a dash.
fn asked_plain<'a>(file: &'a str, machine: Option<MachineName>) -> Option<Request<&'a str>>
    ensures { option_map asked result ≡ asked_plain file.entry.now machine }
{
    match machine {
        Some(machine) if !file.is_empty() => Some(Request { file, machine }),
        _ => None,
    }
}

/// What two words ask for: one is the option, or the first is `--`.
fn asked_of_two<'a>(first: &'a str, second: &'a str) -> Option<Request<&'a str>>
    ensures { option_map asked result ≡ asked_of_two first.entry.now second.entry.now }
{
    if first == "--" {
        return asked_plain(second, Some(MachineName::Mic1));
    }
    match option_in(first) {
        Some(machine) => asked_of(second, Some(machine)),
        None => asked_of(first, option_in(second)),
    }
}

/// What three words ask for: the option's value stands after it, or `--` stands before the last word.
fn asked_of_three<'a>(first: &'a str, second: &'a str, third: &'a str) -> Option<Request<&'a str>>
    ensures { option_map asked result ≡ asked_of_three first.entry.now second.entry.now third.entry.now }
{
    if second == "--" {
        asked_plain(third, option_in(first))
    } else if first == "--machine" {
        asked_of(third, machine_named(second))
    } else if second == "--machine" {
        asked_of(first, machine_named(third))
    } else {
        None
    }
}

/// What four words ask for: the option and its value, `--`, and the file.
fn asked_of_four<'a>(
    first: &'a str,
    second: &'a str,
    third: &'a str,
    fourth: &'a str,
) -> Option<Request<&'a str>>
    ensures { option_map asked result ≡ asked_of_four first.entry.now second.entry.now third.entry.now fourth.entry.now }
{
    if first == "--machine" && third == "--" {
        asked_plain(fourth, machine_named(second))
    } else {
        None
    }
}

/// What the words after the program's name ask for; none where they are faulty.
pub(crate) fn read_words<'a>(words: &'a [String]) -> Option<Request<&'a str>>
    ensures { option_map asked result ≡ asked_in (map string_bytes words.entry.now) }
{
    match words {
        [file] => asked_of(file.as_str(), Some(MachineName::Mic1)),
        [first, second] => asked_of_two(first.as_str(), second.as_str()),
        [first, second, third] => {
            asked_of_three(first.as_str(), second.as_str(), third.as_str())
        }
        [first, second, third, fourth] => asked_of_four(
            first.as_str(),
            second.as_str(),
            third.as_str(),
            fourth.as_str(),
        ),
        _ => None,
    }
}
