//! Where a statement goes next.
ghost use Rattle.std.specs.Prelude.{◌≡◌, ◌<◌, ◌+◌, ℕ, IfSome, if◌then◌else◌};
ghost use Rattle.mic1_cycles.specs.Common.{flag, next_address, Holds};
ghost use Rattle.mic1_cycles.specs.Questions.{AreAnswered, question_on};

use crate::question::{Answer, Question, answered};
use micro_terms::Nodes;
use micro_word::{PlacedNext, Test};

#[derive(Clone, Copy, Debug, PartialEq, Eq)]
pub enum Next {
    To(u16),
    /// The path has to answer the question first.
    Asks(Answer),
    /// The byte of a dispatch is not known.
    Unknown,
}

fn flag_of(test: Test, word: u32) -> bool
    ensures { result ≡ flag test word }
{
    match test {
        Test::N => word >= 0x8000_0000,
        Test::Z => word == 0,
    }
}

fn question_of(test: Test) -> Question
    ensures { result ≡ question_on test }
{
    match test {
        Test::N => Question::IsNegative,
        Test::Z => Question::IsZero,
    }
}

/// The number of a word with the sign of the word of `x`: that of which it is half, or of which that is half.
fn with_its_sign(x: u32, nodes: &Nodes) -> u32
    ensures { Holds nodes.now (λ e. flag Test.N (e.word result) ≡ flag Test.N (e.word x)) }
{
    let mut number = x;
    for _ in 0..32 {
        let Some(of) = nodes.halved(number) else {
            return number;
        };
        number = of;
    }
    number
}

/// The number whose flag decides that of `x`.
fn decisive(test: Test, x: u32, nodes: &Nodes) -> u32
    ensures { Holds nodes.now (λ e. flag test (e.word result) ≡ flag test (e.word x)) }
{
    match test {
        Test::N => with_its_sign(x, nodes),
        Test::Z => x,
    }
}

/// The flag of the ALU's result `x`, if it is known or was answered.
fn decided(test: Test, x: u32, nodes: &Nodes, answers: &[Answer]) -> Option<bool>
    ensures { IfSome result (λ is. Holds nodes.now (λ e. AreAnswered e answers.now → flag test (e.word x) ≡ is)) }
{
    if let Some(word) = nodes.word_of(x) {
        return Some(flag_of(test, word));
    }
    let number = decisive(test, x, nodes);
    answered(question_of(test), number, answers)
}

/// The target of a branch or a dispatch.
fn high_or_low(low: u16, high: bool) -> u16
    requires { low < 256 }
    ensures { result ≡ (if high then low + 256 else low) }
{
    if high { low + 256 } else { low }
}

/// The next address. `x` is the number of the ALU's result, and `mbr` that of the byte that a dispatch takes.
pub fn next_of(next: PlacedNext, x: u32, mbr: u32, nodes: &Nodes, answers: &[Answer]) -> Next
    ensures { (to : ℕ) → result ≡ Next.To to → Holds nodes.now (λ e. AreAnswered e answers.now → next_address next (e.word x) (e.word mbr) ≡ to) }
{
    match next {
        PlacedNext::Goto(to) => Next::To(to),
        PlacedNext::Dispatch { high } => {
            match nodes.word_of(mbr) {
                Some(byte) => {
                    if byte < 256 {
                        Next::To(high_or_low(byte as u16, high))
                    } else {
                        Next::Unknown
                    }
                }
                None => Next::Unknown,
            }
        }
        PlacedNext::Branch { test, no } => {
            if no >= 256 {
                return Next::Unknown;
            }
            match decided(test, x, nodes, answers) {
                Some(yes) => Next::To(high_or_low(no, yes)),
                None => Next::Asks(Answer {
                    number: decisive(test, x, nodes),
                    question: question_of(test),
                    is: true,
                }),
            }
        }
    }
}
