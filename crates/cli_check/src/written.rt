//! Symbolic words as people write them: `SP - 1`, `mem[LV + byte[PC + 1]]`.

ghost use Rattle.std.specs.Prelude.{◌≤◌};

use crate::brief::Brief;
use micro_terms::{Kind, Node, Nodes, Part, Term};
use std::alloc::{AllocError, Global};

/// The most pieces of a word.
const MOST_PIECES: u32 = 400;

/// A piece of a word.
#[derive(Clone, Copy)]
enum Piece {
    Text(&'static str),
    Number(u32),
    /// The word of a number.
    Word(u32),
    /// The same inside a longer one: in parentheses where it has several parts.
    Operand(u32),
}

/// The name of a number that no node defines: what the registers hold where a run starts.
fn free_name(number: u32) -> &'static str {
    match number {
        0 => "old MAR",
        1 => "old MDR",
        2 => "PC",
        3 => "SP",
        4 => "LV",
        5 => "TOS",
        6 => "old OPC",
        7 => "old H",
        8 => "old MBRU",
        9 => "old MBR",
        10 => "the word on its way",
        _ => "?",
    }
}

/// Whether a word stands for a negative number.
fn is_negative(word: u32) -> bool {
    word >= 0x8000_0000
}

/// Adds a multiple of a word, after this sign.
fn push_part(
    pieces: &mut Vec<Piece>,
    sign: &'static str,
    coefficient: u32,
    number: u32,
) -> Result<(), AllocError> {
    pieces.push(Piece::Text(sign))?;
    if coefficient != 1 {
        pieces.push(Piece::Number(coefficient))?;
        pieces.push(Piece::Text(" * "))?;
    }
    pieces.push(Piece::Operand(number))?;
    Ok(())
}

/// Adds the parts that are added.
fn push_added(pieces: &mut Vec<Piece>, parts: &[Part]) -> Result<(), AllocError> {
    for part in parts {
        if !is_negative(part.coefficient) {
            let sign = if pieces.is_empty() { "" } else { " + " };
            push_part(pieces, sign, part.coefficient, part.number)?;
        }
    }
    Ok(())
}

/// Adds the parts that are taken away.
fn push_taken(pieces: &mut Vec<Piece>, parts: &[Part]) -> Result<(), AllocError> {
    for part in parts {
        if is_negative(part.coefficient) {
            let sign = if pieces.is_empty() { "-" } else { " - " };
            push_part(pieces, sign, part.coefficient.wrapping_neg(), part.number)?;
        }
    }
    Ok(())
}

/// Adds the constant of a sum, if there is one, or if nothing else is there.
fn push_constant(pieces: &mut Vec<Piece>, constant: u32) -> Result<(), AllocError> {
    let is_first = pieces.is_empty();
    if constant == 0 && !is_first {
        return Ok(());
    }
    let sign = match (is_first, is_negative(constant)) {
        (true, true) => "-",
        (true, false) => "",
        (false, true) => " - ",
        (false, false) => " + ",
    };
    let amount = if is_negative(constant) {
        constant.wrapping_neg()
    } else {
        constant
    };
    pieces.push(Piece::Text(sign))?;
    pieces.push(Piece::Number(amount))?;
    Ok(())
}

/// Adds what is added, what is taken away, and the constant.
fn push_sum(pieces: &mut Vec<Piece>, term: &Term) -> Result<(), AllocError> {
    push_added(pieces, &term.parts)?;
    push_taken(pieces, &term.parts)?;
    push_constant(pieces, term.constant)
}

/// Two words whose bits are joined in a sum, and the rest of that sum.
#[derive(Drop)]
struct Joined {
    left: u32,
    right: u32,
    rest: Term,
}

/// The sum as two words joined by OR, if this part takes away what both have: `a OR b` is kept as `a + b - (a AND b)`.
fn joined_by(
    term: &Term,
    part: Part,
    nodes: &Nodes,
    alloc: Global,
) -> Result<Option<Joined>, AllocError> {
    let Some(Node::Other(Kind::And { left, right })) = nodes.nodes.get(part.number as usize) else {
        return Ok(None);
    };
    let left = *left;
    let right = *right;
    let all = term.plus(&Term::once(part.number, alloc)?, alloc)?;
    let without = all.minus(&nodes.term_of(left, alloc)?, alloc)?;
    let rest = without.minus(&nodes.term_of(right, alloc)?, alloc)?;
    if part.coefficient == u32::MAX && rest.parts.len() < all.parts.len() {
        return Ok(Some(Joined { left, right, rest }));
    }
    Ok(None)
}

/// The sum as two words joined by OR, if it is one.
fn joined_in(term: &Term, nodes: &Nodes, alloc: Global) -> Result<Option<Joined>, AllocError> {
    for part in &term.parts {
        if let Some(joined) = joined_by(term, *part, nodes, alloc)? {
            return Ok(Some(joined));
        }
    }
    Ok(None)
}

/// Whether the sum is the constant 0.
fn is_nothing(term: &Term) -> bool {
    term.parts.is_empty() && term.constant == 0
}

/// The pieces of a sum.
fn sum_pieces(term: &Term, nodes: &Nodes, alloc: Global) -> Result<Vec<Piece>, AllocError> {
    let mut pieces = Vec::new(alloc);
    let Some(joined) = joined_in(term, nodes, alloc)? else {
        push_sum(&mut pieces, term)?;
        return Ok(pieces);
    };
    let Joined { left, right, rest } = joined;
    let is_alone = is_nothing(&rest);
    pieces.push(Piece::Text(if is_alone { "" } else { "(" }))?;
    pieces.push(Piece::Operand(left))?;
    pieces.push(Piece::Text(" OR "))?;
    pieces.push(Piece::Operand(right))?;
    pieces.push(Piece::Text(if is_alone { "" } else { ")" }))?;
    push_sum(&mut pieces, &rest)?;
    Ok(pieces)
}

/// The pieces of a word that is no sum.
fn kind_pieces(kind: Kind, alloc: Global) -> Result<Vec<Piece>, AllocError> {
    use Piece::{Number, Operand, Text, Word};
    match kind {
        Kind::And { left, right } => {
            Vec::from_slice(alloc, &[Operand(left), Text(" AND "), Operand(right)])
        }
        Kind::Half { of } => Vec::from_slice(alloc, &[Operand(of), Text(" >> 1")]),
        Kind::Word { at } => Vec::from_slice(alloc, &[Text("mem["), Word(at), Text("]")]),
        Kind::Byte { at } => Vec::from_slice(alloc, &[Text("byte["), Word(at), Text("]")]),
        Kind::SignedByte { at } => {
            Vec::from_slice(alloc, &[Text("signed byte["), Word(at), Text("]")])
        }
        Kind::Input { before: 0 } => Vec::from_slice(alloc, &[Text("input")]),
        Kind::Input { before } => {
            Vec::from_slice(alloc, &[Text("input after "), Number(before)])
        }
        Kind::Quarter { of } => Vec::from_slice(alloc, &[Operand(of), Text(" / 4")]),
        Kind::Piece { of, at } => Vec::from_slice(
            alloc,
            &[Text("byte["), Word(at), Text("] of "), Operand(of)],
        ),
        Kind::SignedPiece { of, at } => Vec::from_slice(
            alloc,
            &[Text("signed byte["), Word(at), Text("] of "), Operand(of)],
        ),
        Kind::Choice {
            left,
            right,
            same,
            other,
        } => Vec::from_slice(
            alloc,
            &[
                Operand(same),
                Text(" if "),
                Word(left),
                Text(" = "),
                Word(right),
                Text(", else "),
                Operand(other),
            ],
        ),
    }
}

/// The pieces of the word of a number.
fn pieces_of(nodes: &Nodes, number: u32, alloc: Global) -> Result<Vec<Piece>, AllocError> {
    match nodes.nodes.get(number as usize) {
        Some(Node::Sum(term)) => sum_pieces(term, nodes, alloc),
        Some(Node::Other(kind)) => kind_pieces(*kind, alloc),
        _ => Vec::from_slice(alloc, &[Piece::Text(free_name(number))]),
    }
}

/// Whether a sum of one part is written with a sign or a constant.
fn is_taken(term: &Term) -> bool {
    match term.parts.first() {
        Some(part) => term.constant != 0 || is_negative(part.coefficient),
        None => false,
    }
}

/// Whether a word has several parts, so that it stands in parentheses inside another one.
fn has_parts(nodes: &Nodes, number: u32) -> bool {
    match nodes.nodes.get(number as usize) {
        Some(Node::Sum(term)) => term.parts.len() > 1
            || is_negative(term.constant)
            || is_taken(term),
        Some(Node::Other(kind)) => !matches!(
            kind,
            Kind::Word { .. }
                | Kind::Byte { .. }
                | Kind::SignedByte { .. }
                | Kind::Input { before: 0 }
        ),
        _ => false,
    }
}

/// Adds pieces to those that are left, so that the first of them comes first.
fn push_all(left: &mut Vec<Piece>, pieces: &[Piece]) -> Result<(), AllocError> {
    for piece in pieces.iter().rev() {
        left.push(*piece)?;
    }
    Ok(())
}

/// Appends a piece, or adds what it is made of to what is left.
fn put_piece(
    text: &mut Brief,
    nodes: &Nodes,
    piece: Piece,
    left: &mut Vec<Piece>,
    alloc: Global,
) -> Result<(), AllocError> {
    match piece {
        Piece::Text(part) => text.put(part),
        Piece::Number(value) => text.put_number(value),
        Piece::Word(number) => push_all(left, &pieces_of(nodes, number, alloc)?)?,
        Piece::Operand(number) if has_parts(nodes, number) => {
            push_all(
                left,
                &[Piece::Text("("), Piece::Word(number), Piece::Text(")")],
            )?
        }
        Piece::Operand(number) => left.push(Piece::Word(number))?,
    }
    Ok(())
}

/// Appends the word of a number, in at most so many bytes.
pub(crate) fn put_word(
    text: &mut Brief,
    nodes: &Nodes,
    number: u32,
    bytes: u16,
    alloc: Global,
) -> Result<(), AllocError> {
    text.begin_part(bytes);
    let mut left = Vec::new(alloc);
    left.push(Piece::Word(number))?;
    for _ in 0..MOST_PIECES {
        let Some(piece) = left.pop() else {
            break;
        };
        put_piece(text, nodes, piece, &mut left, alloc)?;
        if text.is_cut() {
            break;
        }
    }
    if !left.is_empty() {
        text.cut();
    }
    text.end_part();
    Ok(())
}
