//! The table of commands: the words that each takes.

ghost use Rattle.std.specs.Prelude.{◌≡◌, find, map};
ghost use Rattle.std.specs.Str.{bytes_eq};
ghost use Rattle.cli_words.specs.Table.{AreTableRows, IsRowOf, name_for, named_in};

/// The commands, each by its name.
#[derive(Clone, Copy, Debug, PartialEq, Eq)]
pub enum CommandName {
    Assemble,
    List,
    Verify,
    Run,
    Trace,
    Profile,
    Debug,
    Reference,
    Micro,
    PrintMicro,
    Soak,
    Cache,
    Rewind,
    Compile,
    Tiny,
}

/// A command's name, and what it takes: plain words, options with a value, and flags, by name.
#[derive(Clone, Copy)]
pub struct Row {
    pub command: CommandName,
    pub name: &'static str,
    pub plain: &'static [&'static str],
    /// Whether no plain word may be left out.
    pub is_whole: bool,
    pub options: &'static [&'static str],
    pub flags: &'static [&'static str],
}

macro_rules! rows {
    ($($command:ident $name:literal $plain:tt $is_whole:literal $options:tt $flags:tt)*) => {
        [$(Row {
            command: CommandName::$command,
            name: $name,
            plain: &$plain,
            is_whole: $is_whole,
            options: &$options,
            flags: &$flags,
        }),*]
    };
}

const COMMANDS: [Row; 15] = rows! {
    // command  name           plain words          whole  options                                           flags
    Assemble    "assemble"     ["FILE", "TARGET"]   true   []                                                []
    List        "list"         ["FILE"]             true   ["map"]                                           []
    Verify      "verify"       ["FILE"]             true   ["map"]                                           []
    Run         "run"          ["FILE"]             true   ["machine", "bound", "micro", "map"]              []
    Trace       "trace"        ["FILE"]             true   ["machine", "bound", "micro", "map"]              ["buses"]
    Profile     "profile"      ["FILE"]             true   ["machine", "bound", "micro", "map"]              []
    Debug       "debug"        ["FILE"]             true   ["machine", "bound", "micro", "input", "map"]     []
    Reference   "reference"    ["FILE"]             true   ["machine", "bound", "map"]                       []
    Micro       "micro"        ["FILE", "TARGET"]   true   ["machine"]                                       []
    PrintMicro  "print-micro"  ["micro"]            false  ["machine"]                                       []
    Soak        "soak"         ["SEED", "SIZE"]     true   ["machine"]                                       []
    Cache       "cache"        ["FILE", "LINES"]    true   ["bound", "map"]                                  []
    Rewind      "rewind"       ["FILE"]             true   ["machine", "input", "depth", "map"]              []
    Compile     "compile"      ["FILE", "TARGET"]   true   []                                                []
    Tiny        "tiny"         ["FILE"]             true   ["machine", "bound"]                              []
};

fn first_named(rows: &[Row], word: &str) -> Option<Row>
    ensures { result ≡ find (λ row. bytes_eq row.name.now word.now) rows.now }
{
    rows.iter().copied().find(|row| row.name == word)
}

#[tactic(auto, using(crate::proofs::Naming::first_is_row))]
fn row_in(rows: &[Row], word: &str) -> Option<Row>
    requires { AreTableRows rows.now }
    ensures { IsRowOf (named_in word.now (map (λ row. row.command) rows.now)) result }
{
    first_named(rows, word)
}

/// The row of the command that a word names.
pub(crate) fn named(word: &str) -> Option<Row>
    ensures { IsRowOf (name_for word.now) result }
{
    row_in(&COMMANDS, word)
}
