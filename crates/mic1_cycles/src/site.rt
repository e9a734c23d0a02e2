//! Where an access is.
ghost use Rattle.std.specs.Prelude.{◌≡◌, ◌==◌, ◌<◌, nat_lt, ℕ, IfSome, IsTrue, length};
ghost use Rattle.mic1_cycles.specs.Common.{console_at, Environment, Holds};
ghost use Rattle.mic1_cycles.specs.Questions.{AreAnswered};
ghost use Rattle.mic1_cycles.specs.Known.{Knows};
ghost use Rattle.mic1_cycles.specs.Sites.{IsSite};

use crate::known::{Known, is_below, known_word};
use crate::question::{Answer, Question, answered};
use micro_terms::Nodes;

/// The word address of the console.
const CONSOLE: u32 = 0xFFFF_FFFD;

/// What an access to the word of a number reaches.
#[derive(Clone, Copy, Debug, PartialEq, Eq)]
pub enum Site {
    Memory,
    Console,
    /// Past memory, and not at the console.
    Nowhere,
    /// The path has to answer the question first.
    Asks(Answer),
}

/// Whether a number stands for the address of the console.
fn at_console(at: u32, nodes: &Nodes, known: &Known, answers: &[Answer]) -> Option<bool>
    ensures { IfSome result (λ is. Holds nodes.now (λ e. Knows e known.now → AreAnswered e answers.now → (e.word at == console_at) ≡ is)) }
{
    if let Some(word) = nodes.word_of(at) {
        return Some(word == CONSOLE);
    }
    if is_below(at, CONSOLE, nodes, known) {
        return Some(false);
    }
    answered(Question::IsConsole, at, answers)
}

/// Where an access to a number is.
pub fn site_of(at: u32, nodes: &Nodes, known: &Known, answers: &[Answer]) -> Site
    ensures { Holds nodes.now (λ e. Knows e known.now → AreAnswered e answers.now → IsSite e at result) }
{
    if let Some(_) = known_word(at, &known.words) {
        return Site::Memory;
    }
    let console = at_console(at, nodes, known, answers);
    if console == Some(true) {
        return Site::Console;
    }
    let Some(inside) = answered(Question::IsInMemory, at, answers) else {
        return Site::Asks(Answer {
            number: at,
            question: Question::IsInMemory,
            is: true,
        });
    };
    if inside {
        return Site::Memory;
    }
    match console {
        Some(_) => Site::Nowhere,
        None => Site::Asks(Answer {
            number: at,
            question: Question::IsConsole,
            is: true,
        }),
    }
}
