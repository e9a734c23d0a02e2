//! The number of main's locals.

ghost use Rattle.std.specs.Prelude.{◌≡◌, ◌+◌, ◌<◌, ◌≤◌, ◌⊎◌, ℕ, Some, length};
ghost use Rattle.verifier_facts.specs.Prelude.{IsMainCount};
ghost use Rattle.verifier_reach.specs.Prelude.{IsClosed};
ghost use Rattle.verifier_locals.specs.Prelude.{IsGraph};
ghost use Rattle.ijvm_verifier.specs.Counted.{NodeNames, IsCounted};

use ijvm_image::Image;
use verifier_locals::Node;
use verifier_reach::Kept;

/// The count, raised above this local.
fn larger(count: u32, named: Option<u16>) -> u32
    requires { count ≤ 65536 }
    ensures small { result ≤ 65536 }
    ensures keeps { count ≤ result }
    ensures above { (k : ℕ) → named ≡ Some k → k < result }
    ensures least { (result ≡ count) ⊎ ((k : ℕ) × (named ≡ Some k) × (result ≡ k + 1)) }
{
    match named {
        None => count,
        Some(local) => if count <= u32::from(local) {
            u32::from(local) + 1
        } else {
            count
        },
    }
}

/// The count, raised above the local that the node names.
fn count_node(node: Node, count: u32) -> u32
    requires { count ≤ 65536 }
    ensures small { result ≤ 65536 }
    ensures keeps { count ≤ result }
    ensures above { (k : ℕ) → NodeNames node k → k < result }
    ensures least { (result ≡ count) ⊎ ((k : ℕ) × NodeNames node k × (result ≡ k + 1)) }
{
    larger(larger(count, node.reads), node.stores)
}

fn count_at(image: &Image, seen: &[Option<Kept>], graph: &[Node], at: u32, count: u32) -> u32
    requires inside { at < length image.now.text }
    requires closed { IsClosed image.now seen.now }
    requires graph { IsGraph image.now seen.now graph.now }
    requires counted { IsCounted image.now at count }
    requires small { count ≤ 65536 }
    ensures counted { IsCounted image.now (at + 1) result }
    ensures small { result ≤ 65536 }
{
    match seen[at as usize] {
        None => count,
        Some(here) => match here.unit {
            Some(_) => count,
            None => count_node(graph[at as usize], count),
        },
    }
}

/// One more than the highest local that a reached instruction of main names, or 0.
pub fn count_locals(image: &Image, seen: &[Option<Kept>], graph: &[Node]) -> u32
    requires long { length image.now.text ≤ 65536 }
    requires closed { IsClosed image.now seen.now }
    requires graph { IsGraph image.now seen.now graph.now }
    ensures counted { IsMainCount image.now result }
    ensures small { result ≤ 65536 }
{
    let mut count: u32 = 0;
    for at in 0..seen.len() {
        count = count_at(image, seen, graph, at as u32, count);
    }
    count
}
