//! What a path may ask of a word, and what it has answered.
ghost use Rattle.std.specs.Prelude.{◌≡◌, ℕ, IfSome};
ghost use Rattle.micro_terms.specs.Prelude.{Environment};
ghost use Rattle.mic1_cycles.specs.Questions.{AreAnswered, truth};

/// A question about a word, answered by yes or no.
#[derive(Clone, Copy, Debug, PartialEq, Eq)]
pub enum Question {
    IsNegative,
    IsZero,
    /// Whether memory has a word at this address.
    IsInMemory,
    /// Whether this is the address of the console.
    IsConsole,
    /// Whether the address is below 0x80000000, where a write past memory meets the stack's end.
    IsStackSide,
    /// Whether memory has the byte at this byte address.
    IsFetchable,
}

/// The answer to a question about the word of a number.
#[derive(Clone, Copy, Debug, PartialEq, Eq)]
pub struct Answer {
    pub number: u32,
    pub question: Question,
    pub is: bool,
}

/// What the answer to one question about a word says of another: what is negative is not 0.
fn implied(question: Question, answer: Answer) -> Option<bool>
    ensures { IfSome result (λ is. (e : Environment) (x : ℕ) → truth e answer.question x ≡ answer.is → truth e question x ≡ is) }
{
    if answer.question == question {
        return Some(answer.is);
    }
    match (question, answer.question, answer.is) {
        (Question::IsZero, Question::IsNegative, true) => Some(false),
        (Question::IsNegative, Question::IsZero, true) => Some(false),
        _ => None,
    }
}

/// The answer that follows from those that a path has given, if one does.
pub fn answered(question: Question, number: u32, answers: &[Answer]) -> Option<bool>
    ensures { IfSome result (λ is. (e : Environment) → AreAnswered e answers.now → truth e question (e.word number) ≡ is) }
{
    for answer in answers {
        if answer.number == number {
            if let Some(is) = implied(question, *answer) {
                return Some(is);
            }
        }
    }
    None
}
