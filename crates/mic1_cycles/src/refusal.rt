//! Whether the accesses of a cycle are refused.
ghost use Rattle.std.specs.Prelude.{◌≡◌, ◌/◌, nat_lt, ℕ, IfSome, Some, None, length};
ghost use Rattle.mic1_cycles.specs.Common.{byte_refusal, memory_refusal, Holds};
ghost use Rattle.mic1_cycles.specs.Cycle.{ports_of};
ghost use Rattle.mic1_cycles.specs.Questions.{AreAnswered};
ghost use Rattle.mic1_cycles.specs.Known.{Knows};
ghost use Rattle.mic1_cycles.specs.Paths.{AreRefused, refusal_of};

use crate::known::{Known, is_below};
use crate::laws::refusal_law;
use crate::question::{Answer, Question, answered};
use crate::site::{Site, site_of};
use crate::symbols::Symbols;
use micro_terms::Nodes;
use micro_word::Mem;

/// Why a cycle is refused.
#[derive(Clone, Copy, Debug, PartialEq, Eq)]
pub enum Stop {
    /// A write meets the stack's end.
    Limit,
    /// The map has nothing at the address.
    OutOfMap,
}

/// What the accesses of a cycle meet, before any is carried out.
#[derive(Clone, Copy, Debug, PartialEq, Eq)]
pub enum Forecast {
    Clear,
    Refused(Stop),
    /// The path has to answer the question first.
    Asks(Answer),
}

fn of_write(at: u32, nodes: &Nodes, known: &Known, answers: &[Answer]) -> Forecast
    ensures refused { (why : Stop) → result ≡ Forecast.Refused why → Holds nodes.now (λ e. Knows e known.now → AreAnswered e answers.now →
        memory_refusal (length e.start.words) Mem.Write (e.word at) ≡ Some (refusal_of why (e.word at))) }
    ensures clear { result ≡ Forecast.Clear → Holds nodes.now (λ e. Knows e known.now → AreAnswered e answers.now →
        memory_refusal (length e.start.words) Mem.Write (e.word at) ≡ None) }
{
    refusal_law();
    match site_of(at, nodes, known, answers) {
        Site::Memory => Forecast::Clear,
        Site::Console => Forecast::Clear,
        Site::Nowhere => {
            let Some(is) = answered(Question::IsStackSide, at, answers) else {
                return Forecast::Asks(Answer {
                    number: at,
                    question: Question::IsStackSide,
                    is: true,
                });
            };
            if is {
                Forecast::Refused(Stop::Limit)
            } else {
                Forecast::Refused(Stop::OutOfMap)
            }
        }
        Site::Asks(answer) => Forecast::Asks(answer),
    }
}

fn of_read(at: u32, nodes: &Nodes, known: &Known, answers: &[Answer]) -> Forecast
    ensures refused { (why : Stop) → result ≡ Forecast.Refused why → Holds nodes.now (λ e. Knows e known.now → AreAnswered e answers.now →
        memory_refusal (length e.start.words) Mem.Read (e.word at) ≡ Some (refusal_of why (e.word at))) }
    ensures clear { result ≡ Forecast.Clear → Holds nodes.now (λ e. Knows e known.now → AreAnswered e answers.now →
        memory_refusal (length e.start.words) Mem.Read (e.word at) ≡ None) }
{
    refusal_law();
    match site_of(at, nodes, known, answers) {
        Site::Memory => Forecast::Clear,
        Site::Console => Forecast::Clear,
        Site::Nowhere => Forecast::Refused(Stop::OutOfMap),
        Site::Asks(answer) => Forecast::Asks(answer),
    }
}

fn of_memory(mem: Mem, at: u32, nodes: &Nodes, known: &Known, answers: &[Answer]) -> Forecast
    ensures refused { (why : Stop) → result ≡ Forecast.Refused why → Holds nodes.now (λ e. Knows e known.now → AreAnswered e answers.now →
        memory_refusal (length e.start.words) mem (e.word at) ≡ Some (refusal_of why (e.word at))) }
    ensures clear { result ≡ Forecast.Clear → Holds nodes.now (λ e. Knows e known.now → AreAnswered e answers.now →
        memory_refusal (length e.start.words) mem (e.word at) ≡ None) }
{
    match mem {
        Mem::None => Forecast::Clear,
        Mem::Write => of_write(at, nodes, known, answers),
        Mem::Read => of_read(at, nodes, known, answers),
    }
}

/// Whether memory has the byte at the byte address of a number, if it is known or was answered.
pub fn is_fetchable(at: u32, nodes: &Nodes, known: &Known, answers: &[Answer]) -> Option<bool>
    ensures { IfSome result (λ is. Holds nodes.now (λ e. Knows e known.now → AreAnswered e answers.now → nat_lt (e.word at / 4) (length e.start.words) ≡ is)) }
{
    if is_below(at, 0x20000, nodes, known) {
        return Some(true);
    }
    answered(Question::IsFetchable, at, answers)
}

fn of_fetch(is: bool, at: u32, nodes: &Nodes, known: &Known, answers: &[Answer]) -> Forecast
    ensures { (why : Stop) → result ≡ Forecast.Refused why → Holds nodes.now (λ e. Knows e known.now → AreAnswered e answers.now →
        byte_refusal (length e.start.words) is (e.word at) ≡ Some (refusal_of why (e.word at / 4))) }
{
    refusal_law();
    if !is {
        return Forecast::Clear;
    }
    let Some(fetchable) = is_fetchable(at, nodes, known, answers) else {
        return Forecast::Asks(Answer {
            number: at,
            question: Question::IsFetchable,
            is: true,
        });
    };
    if fetchable {
        Forecast::Clear
    } else {
        Forecast::Refused(Stop::OutOfMap)
    }
}

/// Whether the accesses of a cycle with these registers are refused.
pub fn refusal_in(
    mem: Mem,
    fetch: bool,
    s: &Symbols,
    nodes: &Nodes,
    known: &Known,
    answers: &[Answer],
) -> Forecast
    ensures { (why : Stop) → result ≡ Forecast.Refused why → Holds nodes.now (λ e. Knows e known.now → AreAnswered e answers.now →
        AreRefused e mem fetch why (ports_of e.word e.start s.now)) }
{
    match of_memory(mem, s.mar, nodes, known, answers) {
        Forecast::Clear => of_fetch(fetch, s.pc, nodes, known, answers),
        Forecast::Refused(why) => Forecast::Refused(why),
        Forecast::Asks(answer) => Forecast::Asks(answer),
    }
}
