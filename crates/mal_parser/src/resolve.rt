//! Labels become the numbers of their statements.

ghost use Rattle.std.specs.Prelude.{◌≡◌, ◌≤◌, ◌<◌, ◌-◌, length, option_map, map, slice_get, find, min, IfOk, IfErr, Ok, Some};
ghost use Rattle.source_text.specs.Prelude.{FailsBy};
ghost use Rattle.mal_parser.specs.Text.{falls, is_memory};
ghost use Rattle.mal_parser.specs.Reading.{earlier, falling, first_falling, first_unknown, fixed_of, IsSound, knows, main1, resolved_next, resolved_program, resolved, target_number, unknown_draft, unknown_fix, unknown_in};

use crate::error::MalError;
use crate::program::MalProgram;
use crate::source::{Draft, Fix, SourceReader};
use crate::statement::{MalNext, Statement};
use mal_line::Next;
use mic_base::Name;
use source_text::NamedList;
use std::alloc::AllocError;

fn knows(drafts: &NamedList<Draft>, next: &Next<Name>) -> bool
    ensures { result ≡ knows drafts.now next.now }
{
    match next {
        Next::Goto(label) => drafts.has(label),
        Next::Branch { yes, no, .. } => drafts.has(yes) && drafts.has(no),
        Next::Following | Next::Dispatch { .. } => true,
    }
}

fn unknown_draft(drafts: &NamedList<Draft>) -> Option<u32>
    ensures { result ≡ unknown_draft drafts.now drafts.now }
{
    drafts
        .items()
        .iter()
        .find(|draft| !knows(drafts, &draft.parts.next))
        .map(|draft| draft.line)
}

fn unknown_fix(drafts: &NamedList<Draft>, fixes: &NamedList<Fix>) -> Option<u32>
    ensures { result ≡ unknown_fix drafts.now fixes.now }
{
    fixes
        .items()
        .iter()
        .find(|fix| !drafts.has(&fix.label))
        .map(|fix| fix.line)
}

fn unknown_in(drafts: &NamedList<Draft>, fallback: &Option<Draft>) -> Option<u32>
    ensures { result ≡ unknown_in drafts.now fallback.now }
{
    match fallback {
        None => None,
        Some(draft) => {
            if knows(drafts, &draft.parts.next) {
                None
            } else {
                Some(draft.line)
            }
        }
    }
}

/// The smaller of two lines, where there is one.
fn earlier(a: Option<u32>, b: Option<u32>) -> Option<u32>
    ensures { result ≡ earlier a b }
{
    match (a, b) {
        (None, _) => b,
        (Some(_), None) => a,
        (Some(a), Some(b)) => Some(a.min(b)),
    }
}

fn falls(next: &Next<Name>) -> bool
    ensures { result ≡ falls next.now }
{
    matches!(next, Next::Following)
}

fn falling(draft: Option<Draft>) -> Option<u32>
    ensures { result ≡ falling draft }
{
    match draft {
        None => None,
        Some(draft) => {
            if falls(&draft.parts.next) {
                Some(draft.line)
            } else {
                None
            }
        }
    }
}

fn last_of(drafts: &NamedList<Draft>) -> Option<Draft>
    ensures { result ≡ slice_get drafts.now (length drafts.now - 1) }
{
    drafts.items().last().copied()
}

fn target_number(drafts: &NamedList<Draft>, label: &Name) -> u16
    requires { length drafts.now ≤ 512 }
    ensures { result ≡ target_number drafts.now label.now }
{
    drafts.find(label).unwrap_or(0) as u16
}

fn resolved_next(drafts: &NamedList<Draft>, next: &Next<Name>) -> MalNext
    requires { length drafts.now ≤ 512 }
    ensures { result ≡ resolved_next drafts.now next.now }
{
    match next {
        Next::Following => Next::Following,
        Next::Goto(label) => Next::Goto(target_number(drafts, label)),
        Next::Dispatch { high } => Next::Dispatch { high: *high },
        Next::Branch { test, yes, no } => Next::Branch {
            test: *test,
            yes: target_number(drafts, yes),
            no: target_number(drafts, no),
        },
    }
}

fn fixed_of(fixes: &NamedList<Fix>, label: &Option<Name>) -> Option<u16>
    ensures { result ≡ fixed_of fixes.now label.now }
{
    match label {
        Some(label) => Some(fixes.get(label)?.address),
        None => None,
    }
}

fn resolved(drafts: &NamedList<Draft>, fixes: &NamedList<Fix>, draft: &Draft) -> Statement
    requires { length drafts.now ≤ 512 }
    ensures { result ≡ resolved drafts.now fixes.now draft.now }
{
    Statement {
        label: draft.label,
        line: draft.line,
        part: draft.parts.part,
        next: resolved_next(drafts, &draft.parts.next),
        fixed: fixed_of(fixes, &draft.label),
    }
}

fn all_resolved(reader: &SourceReader) -> Result<Vec<Statement>, AllocError>
    requires { length reader.now.statements ≤ 512 }
    ensures { IfOk result (λ v. v.items ≡ map (resolved reader.now.statements reader.now.fixes) reader.now.statements) }
{
    let drafts = &reader.statements;
    let fixes = &reader.fixes;
    drafts
        .items()
        .iter()
        .map(|draft| resolved(drafts, fixes, draft))
        .collect(reader.alloc)
}

fn fallback_of(reader: &SourceReader) -> Option<Statement>
    requires { length reader.now.statements ≤ 512 }
    ensures { result ≡ option_map (resolved reader.now.statements reader.now.fixes) reader.now.fallback }
{
    match &reader.fallback {
        Some(draft) => Some(resolved(&reader.statements, &reader.fixes, draft)),
        None => None,
    }
}

fn first_unknown(reader: &SourceReader) -> Option<u32>
    ensures { result ≡ first_unknown reader.now }
{
    let fixes = unknown_fix(&reader.statements, &reader.fixes);
    let fallback = unknown_in(&reader.statements, &reader.fallback);
    earlier(unknown_draft(&reader.statements), earlier(fixes, fallback))
}

fn first_falling(reader: &SourceReader) -> Option<u32>
    ensures { result ≡ first_falling reader.now }
{
    earlier(
        falling(last_of(&reader.statements)),
        falling(reader.fallback),
    )
}

fn main1() -> Name
    ensures { result ≡ main1 }
{
    Name::new(b"Main1").unwrap()
}

/// The program that the lines make, or the first refusal of the whole source.
#[tactic(auto, unfolding(crate::specs::Reading::resolved_program))]
pub(crate) fn resolved_program(reader: &SourceReader) -> Result<MalProgram, MalError>
    requires { IsSound reader.now }
    ensures ok { IfOk result (λ p. resolved_program reader.now ≡ Ok p) }
    ensures err { IfErr result (λ e. FailsBy is_memory e (resolved_program reader.now)) }
{
    if let Some(line) = first_unknown(reader) {
        return Err(MalError::UnknownLabel(line));
    }
    if let Some(line) = first_falling(reader) {
        return Err(MalError::LastFalls(line));
    }
    let Some(entry) = reader.statements.find(&main1()) else {
        return Err(MalError::NoEntry);
    };
    let Ok(statements) = all_resolved(reader) else {
        return Err(MalError::OutOfMemory);
    };
    Ok(MalProgram::new(
        reader.machine,
        statements,
        fallback_of(reader),
        entry as u16,
    ))
}
