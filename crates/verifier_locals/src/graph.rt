//! Where the reached instructions lead in their units, and which locals they name.

ghost use Rattle.std.specs.Prelude.{◌<◌, ◌≤◌, ◌+◌, length, Some, None, IfOk};
ghost use Rattle.ijvm_instr.specs.Prelude.{size_of};
ghost use Rattle.verifier_reach.specs.Prelude.{IsClosed};
ghost use Rattle.verifier_locals.specs.Graph.{IsNodeOf, IsNodeAt, IsGraph};

use ijvm_image::Image;
use ijvm_instr::{Flow, Row, target_of};
use std::alloc::{AllocError, Global};
use verifier_reach::{Kept, decode};

/// An instruction: where its unit goes on, where it branches to, and the local that it names.
#[derive(Clone, Copy)]
pub struct Node {
    pub next: Option<u32>,
    pub jump: Option<u32>,
    pub reads: Option<u16>,
    pub stores: Option<u16>,
}

/// The node of the instruction with this row.
fn node_of(at: u32, row: Row) -> Node
    requires { at + size_of row ≤ 65536 }
    ensures { IsNodeOf at row result }
{
    let after = Some(at + row.size());
    let (next, jump) = match row.flow {
        Flow::Next => (after, None),
        Flow::Jump(offset) => (Some(target_of(at, offset)), None),
        Flow::Branch(offset) => (after, Some(target_of(at, offset))),
        Flow::Call(_) => (after, None),
        Flow::Return => (None, None),
        Flow::End => (None, None),
    };
    Node {
        next,
        jump,
        reads: row.reads,
        stores: row.stores,
    }
}

/// The node at an address, which leads nowhere where nothing is reached.
fn node_at(image: &Image, seen: &[Option<Kept>], at: u32) -> Node
    requires inside { at < length image.now.text }
    requires long { length image.now.text ≤ 65536 }
    requires closed { IsClosed image.now seen.now }
    ensures { IsNodeAt image.now seen.now at result }
{
    let nowhere = Node {
        next: None,
        jump: None,
        reads: None,
        stores: None,
    };
    match seen[at as usize] {
        None => nowhere,
        Some(_) => match decode(image, at) {
            None => nowhere,
            Some(instr) => node_of(at, instr.row()),
        },
    }
}

/// The nodes of all addresses.
pub fn graph_of(
    alloc: Global,
    image: &Image,
    seen: &[Option<Kept>],
) -> Result<Vec<Node>, AllocError>
    requires long { length image.now.text ≤ 65536 }
    requires closed { IsClosed image.now seen.now }
    ensures { IfOk result (λ graph. IsGraph image.now seen.now graph.items) }
{
    let mut graph = Vec::new(alloc);
    for at in 0..seen.len() {
        graph.push(node_at(image, seen, at as u32))?;
    }
    Ok(graph)
}
