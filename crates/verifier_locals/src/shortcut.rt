//! Shortcuts past the instructions that name no local and lead to only one address, so that no search comes to them
//! again and again. Ways to instructions that read no local and lead nowhere are left out.

ghost use Rattle.std.specs.Prelude.{◌≡◌, ◌<◌, length, Option, ℕ, IsTrue, IfOk, IfSome};
ghost use Rattle.verifier_locals.specs.declared.graph.Node.{Node};
ghost use Rattle.verifier_locals.specs.Graph.{LeadsTo, IsInside};
ghost use Rattle.verifier_locals.specs.Shortcut.{IsPlain, first_way, IsEnd, IsPast, IsShort};

use crate::graph::Node;
use std::alloc::{AllocError, Global};

/// The most rounds: each at least doubles how far a way goes, up to the longest text.
const ROUNDS: u32 = 16;

/// The address to which the node leads, if there is only one.
fn one_way(node: Node) -> Option<u32>
    ensures { IfSome result (λ to. LeadsTo node to × ((other : ℕ) → LeadsTo node other → other ≡ to)) }
{
    match node.next {
        None => node.jump,
        Some(next) => match node.jump {
            None => Some(next),
            Some(jump) => if next == jump { Some(next) } else { None },
        },
    }
}

/// Where the node leads, if it names no local and leads to only one address.
fn onward(node: Node) -> Option<u32>
    ensures { IfSome result (IsPlain node) }
{
    match (node.reads, node.stores) {
        (None, None) => one_way(node),
        _ => None,
    }
}

/// Where the node leads, to the next address if it leads there.
fn first_way(node: Node) -> Option<u32>
    ensures { result ≡ first_way node.next node.jump }
{
    match node.next {
        Some(next) => Some(next),
        None => node.jump,
    }
}

/// The node reads no local and leads nowhere.
fn is_end(node: Node) -> bool
    ensures { IsTrue result → IsEnd node }
{
    node.next.is_none() && node.jump.is_none() && node.reads.is_none()
}

/// The way, past the node to which it leads where it need not stop there; none, to a dead end.
fn past(graph: &[Node], short: &[Node], way: Option<u32>) -> Option<u32>
    requires short { IsShort graph.now short.now }
    requires inside { IfSome way (λ at. at < length graph.now) }
    ensures { (from : Option ℕ) → IsPast graph.now from way → IsPast graph.now from result }
{
    let at = way?;
    match onward(graph[at as usize]) {
        Some(_) => first_way(short[at as usize]),
        None => if is_end(graph[at as usize]) {
            None
        } else {
            way
        },
    }
}

/// One of the node's ways is another than these.
fn leads_elsewhere(node: Node, next: Option<u32>, jump: Option<u32>) -> bool {
    next != node.next || jump != node.jump
}

/// Each way goes on past the node to which it leads, as far as the way from there. Returns whether one did.
fn shorten(graph: &[Node], short: &mut Vec<Node>) -> bool
    requires inside { IsInside graph.now }
    requires short { IsShort graph.now short.old.items }
    ensures { IsShort graph.now short.new.items }
{
    let mut changed = false;
    for at in 0..graph.len() {
        let node = short[at];
        let next = past(graph, short, node.next);
        let jump = past(graph, short, node.jump);
        changed |= leads_elsewhere(node, next, jump);
        short[at] = Node { next, jump, ..node };
    }
    changed
}

/// The graph with shortcuts.
pub fn shortened(alloc: Global, graph: &[Node]) -> Result<Vec<Node>, AllocError>
    requires { IsInside graph.now }
    ensures { IfOk result (λ short. IsShort graph.now short.items) }
{
    let mut short = Vec::from_slice(alloc, graph)?;
    for _round in 0..ROUNDS {
        if !shorten(graph, &mut short) {
            return Ok(short);
        }
    }
    Ok(short)
}
