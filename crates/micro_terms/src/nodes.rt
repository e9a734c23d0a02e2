//! The table of nodes.
ghost use Rattle.std.specs.Prelude.{◌≡◌, ◌≢◌, ◌<◌, ◌^◌, ℕ, IfOk, IfSome, IsTrue, bit_and};
ghost use Rattle.mic_words.specs.Arithmetic.{half};
ghost use Rattle.micro_terms.specs.Value.{value};
ghost use Rattle.micro_terms.specs.Ranges.{IsIn, IsLimited, IsWithin};
ghost use Rattle.micro_terms.specs.Environment.{Environment};
ghost use Rattle.micro_terms.specs.Meaning.{Grows, Holds, IsNode};

use crate::node::{Kind, Node, is_byte_kind, is_same};
use crate::range::{Range, bounds, differ, range_at};
use crate::term::Term;
use std::alloc::{AllocError, Global};

/// What each number stands for, by its place. A number past the end stands for any word. The table only grows, so what
/// holds of its numbers goes on to hold.
#[derive(Drop)]
pub struct Nodes {
    pub nodes: Vec<Node>,
}

/// The term of a number with this node.
fn term_in(node: &Node, number: u32, alloc: Global) -> Result<Term, AllocError>
    ensures { IfOk result (λ t. (e : Environment) → e.word number < 2 ^ 32 → IsNode e (e.word number) node.now → value e.word t ≡ e.word number) }
{
    if let Node::Sum(term) = node {
        let copy = term.copy(alloc)?;
        return Ok(copy);
    }
    let once = Term::once(number, alloc)?;
    Ok(once)
}

/// The word of a number with this node, if that is one word in every environment.
fn word_in(node: &Node, _number: u32) -> Option<u32>
    ensures { IfSome result (λ w. (e : Environment) → IsNode e (e.word _number) node.now → e.word _number ≡ w) }
{
    if let Node::Sum(term) = node {
        return term.word();
    }
    None
}

/// Whether the word of a number with this node is a byte.
fn byte_in_node(node: &Node, _number: u32) -> bool
    ensures { IsTrue result → (e : Environment) → IsNode e (e.word _number) node.now → e.word _number < 256 }
{
    match node {
        Node::Other(kind) => is_byte_kind(*kind),
        _ => false,
    }
}

/// The number of the word of which a number with this node is half, if it is half of one.
fn halved_in(node: &Node, _number: u32) -> Option<u32>
    ensures { IfSome result (λ of. (e : Environment) → IsNode e (e.word _number) node.now → e.word _number ≡ half (e.word of)) }
{
    match node {
        Node::Other(Kind::Half { of }) => Some(*of),
        _ => None,
    }
}

/// The range of the word of a number with this node.
fn range_in(node: &Node, number: u32, table: &[Node], ranges: &[Range]) -> Option<Range>
    ensures { IfSome result (λ r. (e : Environment) → IsNode e (e.word number) node.now → IsLimited e.word table.now ranges.now → IsWithin r (e.word number)) }
{
    if let Node::Sum(term) = node {
        return bounds(term, table, ranges);
    }
    Some(range_at(table, ranges, number))
}

impl Nodes {
    /// The number of this node, if the table has it.
    fn find(&self, node: &Node) -> Option<u32>
        ensures { IfSome result (λ i. Holds self.now (λ e. IsNode e (e.word i) node.now)) }
    {
        for (i, other) in self.nodes.iter().enumerate() {
            if is_same(other, node) {
                let Ok(place) = u32::try_from(i) else {
                    return None;
                };
                return Some(place);
            }
        }
        None
    }

    fn push(&mut self, node: Node) -> Result<u32, AllocError>
        ensures value { IfOk result (λ i. Holds self.new (λ e. IsNode e (e.word i) node)) }
        ensures grows { Grows self.old self.new }
    {
        let Ok(place) = u32::try_from(self.nodes.len()) else {
            return Err(AllocError);
        };
        self.nodes.push(node)?;
        Ok(place)
    }

    fn of_node(&mut self, node: Node) -> Result<u32, AllocError>
        ensures value { IfOk result (λ i. Holds self.new (λ e. IsNode e (e.word i) node)) }
        ensures grows { Grows self.old self.new }
    {
        if let Some(place) = self.find(&node) {
            return Ok(place);
        }
        self.push(node)
    }

    /// The number of a word that is no sum.
    pub fn of_kind(&mut self, kind: Kind) -> Result<u32, AllocError>
        ensures value { IfOk result (λ i. Holds self.new (λ e. IsNode e (e.word i) (Node.Other kind))) }
        ensures grows { Grows self.old self.new }
    {
        self.of_node(Node::Other(kind))
    }

    /// The number of a sum.
    pub fn of_term(&mut self, term: Term) -> Result<u32, AllocError>
        ensures value { IfOk result (λ i. Holds self.new (λ e. e.word i ≡ value e.word term)) }
        ensures grows { Grows self.old self.new }
    {
        if let Some(number) = term.single() {
            return Ok(number);
        }
        self.of_node(Node::Sum(term))
    }

    /// The number of a word.
    pub fn of_word(&mut self, word: u32, alloc: Global) -> Result<u32, AllocError>
        ensures value { IfOk result (λ i. Holds self.new (λ e. e.word i ≡ word)) }
        ensures grows { Grows self.old self.new }
    {
        let place = self.of_term(Term::of_word(word, alloc))?;
        Ok(place)
    }

    /// The sum that a number stands for.
    pub fn term_of(&self, number: u32, alloc: Global) -> Result<Term, AllocError>
        ensures { IfOk result (λ t. Holds self.now (λ e. value e.word t ≡ e.word number)) }
    {
        match self.nodes.get(number as usize) {
            Some(node) => {
                let term = term_in(node, number, alloc)?;
                Ok(term)
            }
            None => {
                let once = Term::once(number, alloc)?;
                Ok(once)
            }
        }
    }

    /// The word that a number stands for in every environment, if that is known.
    pub fn word_of(&self, number: u32) -> Option<u32>
        ensures { IfSome result (λ w. Holds self.now (λ e. e.word number ≡ w)) }
    {
        match self.nodes.get(number as usize) {
            Some(node) => word_in(node, number),
            None => None,
        }
    }

    /// The number of the word of which a number's word is half, if the table says so.
    pub fn halved(&self, number: u32) -> Option<u32>
        ensures { IfSome result (λ of. Holds self.now (λ e. e.word number ≡ half (e.word of))) }
    {
        match self.nodes.get(number as usize) {
            Some(node) => halved_in(node, number),
            None => None,
        }
    }

    /// Whether a number's word is a byte without a sign.
    fn is_byte(&self, number: u32) -> bool
        ensures { IsTrue result → Holds self.now (λ e. e.word number < 256) }
    {
        match self.nodes.get(number as usize) {
            Some(node) => byte_in_node(node, number),
            None => false,
        }
    }

    /// Whether two words share no bit because the first one's low byte is 0 and the second one is a byte.
    pub fn share_nothing(&self, a: &Term, b: &Term) -> bool
        ensures { IsTrue result → Holds self.now (λ e. bit_and (value e.word a.now) (value e.word b.now) ≡ 0) }
    {
        let Some(number) = b.single() else {
            return false;
        };
        a.has_no_low_byte() && self.is_byte(number)
    }

    /// The range of a number's word, by the ranges of others; `None` if that is not known.
    pub fn range_of(&self, number: u32, ranges: &[Range]) -> Option<Range>
        ensures { IfSome result (λ r. Holds self.now (λ e. IsIn e.word ranges.now → IsWithin r (e.word number))) }
    {
        match self.nodes.get(number as usize) {
            Some(node) => {
                let range = range_in(node, number, &self.nodes, ranges)?;
                Some(range)
            }
            None => None,
        }
    }

    /// Whether the ranges show that two numbers stand for different words.
    pub fn are_apart(
        &self,
        a: u32,
        b: u32,
        ranges: &[Range],
        alloc: Global,
    ) -> Result<bool, AllocError>
        ensures { IfOk result (λ is. IsTrue is → Holds self.now (λ e. IsIn e.word ranges.now → e.word a ≢ e.word b)) }
    {
        let first = self.term_of(a, alloc)?;
        let second = self.term_of(b, alloc)?;
        let is = differ(&first, &second, &self.nodes, ranges, alloc)?;
        Ok(is)
    }
}
