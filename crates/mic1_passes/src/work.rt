//! What following paths costs, and what it leaves.
use mic1_cycles::Path;
use micro_terms::{Node, Nodes};

/// The table of some paths, and the budget that is left for following them.
#[derive(Drop)]
pub struct Work {
    pub nodes: Nodes,
    /// What is left of the budget. A path is followed no further once it is 0.
    pub left: u64,
    /// The addresses that were clocked, the oldest first.
    pub clocked: Vec<u16>,
}

/// How many parts the sums of a table have.
#[derive(Clone, Copy, Debug, PartialEq, Eq)]
struct Size {
    all: u64,
    largest: u64,
}

fn parts_of(node: &Node) -> u64 {
    match node {
        Node::Sum(term) => term.parts.len() as u64 + 1,
        _ => 1,
    }
}

fn size_of(table: &[Node]) -> Size {
    let mut size = Size { all: 0, largest: 0 };
    for node in table {
        let parts = parts_of(node);
        size = Size {
            all: size.all.saturating_add(parts),
            largest: size.largest.max(parts),
        };
    }
    size
}

/// What it costs to find a number, beside the parts that are looked at.
const NUMBER: u64 = 64;

/// How many numbers a cycle finds at most, beside its accesses.
const NUMBERS: u64 = 8;

/// As how many numbers it counts to compare the address of an access with that of a write.
const WRITE: u64 = 4;

/// The most that the next cycle of a path costs, in parts that are looked at. To find the number of a word may take a sum of
/// two words, part by part, and then a look at the whole table.
pub fn cost_of(path: &Path, nodes: &Nodes) -> u64 {
    let size = size_of(&nodes.nodes);
    let number = size
        .largest
        .saturating_mul(size.largest)
        .saturating_add(size.all)
        .saturating_add(NUMBER);
    let writes = WRITE.saturating_mul(path.writes.len() as u64);
    number.saturating_mul(NUMBERS.saturating_add(writes))
}
