//! The parts of a statement, gathered one by one.
ghost use Rattle.std.specs.Prelude.{◌≡◌, ◌≤◌, if◌then◌else◌, length, not, None, Some};
ghost use Rattle.std.specs.List.{prefix_len};
ghost use Rattle.mal_line.specs.Reading.{add, add_after, add_else, add_free, add_tokens, ended, tree_of};
ghost use Rattle.mal_line.specs.Statements.{is_semicolon};

use crate::next::Next;
use crate::piece::{Piece, piece_of};
use crate::tree::Tree;
use mal_tokens::{Sign, Token};
use mic_base::Name;
use micro_word::{Machine, Mem, Test};

/// An `if` that waits for its `else`.
#[derive(Clone, Copy)]
struct PendingIf {
    test: Test,
    high: Name,
}

/// The parts so far.
#[derive(Clone, Copy)]
struct Gathered {
    tree: Tree,
    waiting: Option<PendingIf>,
}

/// Adds a part where no `if` waits and there is no jump yet, if it may stand there.
fn add_free(gathered: &mut Gathered, piece: Piece) -> bool
    requires { gathered.old.waiting ≡ None }
    ensures { add_free gathered.old.tree piece ≡ (if result then Some gathered.new else None) }
{
    match piece {
        Piece::Nothing => {}
        Piece::Assign(assignment) => {
            if gathered.tree.assignment.is_some() {
                return false;
            }
            gathered.tree.assignment = Some(assignment);
        }
        Piece::Mem(mem) => match gathered.tree.mem {
            Mem::None => gathered.tree.mem = mem,
            _ => return false,
        },
        Piece::Fetch => {
            if gathered.tree.fetch {
                return false;
            }
            gathered.tree.fetch = true;
        }
        Piece::Jump(jump) => gathered.tree.next = Some(jump),
        Piece::If(test, high) => gathered.waiting = Some(PendingIf { test, high }),
        Piece::Else(_) => return false,
    }
    true
}

/// Adds the `else` of the `if` that waits.
fn add_else(gathered: &mut Gathered, half: PendingIf, piece: Piece) -> bool
    ensures { add_else gathered.old.tree half piece ≡ (if result then Some gathered.new else None) }
{
    match piece {
        Piece::Else(low) => {
            gathered.tree.next = Some(Some(Next::Branch {
                test: half.test,
                yes: half.high,
                no: low,
            }));
            gathered.waiting = None;
            true
        }
        _ => false,
    }
}

/// After a jump all parts are empty.
fn add_after(gathered: &mut Gathered, piece: Piece) -> bool
    requires { gathered.old.waiting ≡ None }
    ensures { add_after gathered.old.tree piece ≡ (if result then Some gathered.new else None) }
{
    matches!(piece, Piece::Nothing)
}

/// Adds a part, if it may stand after those so far.
fn add(gathered: &mut Gathered, piece: Piece) -> bool
    ensures { add gathered.old piece ≡ (if result then Some gathered.new else None) }
{
    if let Some(half) = gathered.waiting {
        return add_else(gathered, half, piece);
    }
    if gathered.tree.next.is_some() {
        return add_after(gathered, piece);
    }
    add_free(gathered, piece)
}

fn add_tokens(machine: Machine, gathered: &mut Gathered, tokens: &[Token]) -> bool
    ensures { add_tokens machine gathered.old tokens.now ≡ (if result then Some gathered.new else None) }
{
    match piece_of(machine, tokens) {
        Some(piece) => add(gathered, piece),
        None => false,
    }
}

fn ended(gathered: Gathered) -> Option<Tree>
    ensures { result ≡ ended gathered }
{
    match gathered.waiting {
        None => Some(gathered.tree),
        Some(_) => None,
    }
}

fn is_semicolon(token: Token) -> bool
    ensures { result ≡ is_semicolon token }
{
    matches!(token, Token::Sign(Sign::Semicolon))
}

fn piece_len(tokens: &[Token]) -> usize
    ensures value { result ≡ prefix_len (λ t. not (is_semicolon t)) tokens.now }
    ensures small { result ≤ length tokens.now }
{
    tokens
        .iter()
        .take_while(|token| !is_semicolon(**token))
        .count()
}

/// The parts of the statement that these tokens spell.
pub(crate) fn tree_of(machine: Machine, tokens: &[Token]) -> Option<Tree>
    ensures { result ≡ tree_of machine tokens.now }
{
    let mut gathered = Gathered {
        tree: Tree::EMPTY,
        waiting: None,
    };
    let mut rest = tokens;
    loop {
        let (piece, following) = rest.split_at(piece_len(rest));
        if !add_tokens(machine, &mut gathered, piece) {
            return None;
        }
        match following.split_first() {
            Some((_, after)) => rest = after,
            None => return ended(gathered),
        }
    }
}
