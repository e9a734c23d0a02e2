//! The search of a graph for reads of locals that no store comes before, 64 locals at a time.

ghost use Rattle.std.specs.Prelude.{◌≡◌, ◌≢◌, ◌+◌, ◌/◌, ◌%◌, ◌<◌, ◌↔◌, ℕ, length, Some, None, Ok, IfOk, OnOk, IfSome, IfNone};
ghost use Rattle.verifier_locals.specs.declared.graph.Node.{Node};
ghost use Rattle.verifier_locals.specs.declared.trace.Mark.{Mark};
ghost use Rattle.verifier_locals.specs.LocalSet.{Has, IsIn};
ghost use Rattle.verifier_locals.specs.Graph.{LeadsTo, IsInside};
ghost use Rattle.verifier_locals.specs.Trace.{HoldsMore, AllPass, OnlyPass, ReadsMarked, IsHeld, IsReady, ReadsUnset, ReadsNone, held_at, HoldsAll, IfNoRead, IsMarkedMore, IsPlaceOf};

use crate::graph::Node;
use crate::local_set::LocalSet;
use std::alloc::{AllocError, Global};

/// The locals with which the search of this number has come to an address.
#[derive(Clone, Copy)]
pub struct Mark {
    search: u32,
    locals: LocalSet,
}

/// The marks of all addresses, and the addresses that wait to be visited. Each search has a higher number than those
/// before, whose marks then count no more.
#[derive(Drop)]
pub struct Trace {
    marks: Vec<Mark>,
    todo: Vec<u32>,
}

/// The place of a local in its group, if it is of this group.
fn place_in(named: Option<u16>, group: u32) -> Option<u32>
    ensures some { IfSome result (IsPlaceOf named group) }
    ensures none { IfNone result ((k : ℕ) → named ≡ Some k → k / 64 ≢ group) }
{
    let local = u32::from(named?);
    if local / 64 == group {
        Some(local % 64)
    } else {
        None
    }
}

/// The set after an instruction that stores to this local.
fn passed(locals: LocalSet, stores: Option<u16>, group: u32) -> LocalSet
    ensures { (k : ℕ) → k / 64 ≡ group → IsIn group result k ↔ (IsIn group locals k × (stores ≢ Some k)) }
{
    match place_in(stores, group) {
        Some(place) => locals.without(place),
        None => locals,
    }
}

/// The instruction reads this local of the set.
fn read_of(locals: LocalSet, reads: Option<u16>, group: u32) -> Option<u16>
    ensures some { IfSome result (λ k. IsIn group locals k × (reads ≡ Some k)) }
    ensures none { IfNone result ((k : ℕ) → IsIn group locals k → reads ≢ Some k) }
{
    match place_in(reads, group) {
        Some(place) => if locals.has(place) { reads } else { None },
        None => None,
    }
}

impl Trace {
    /// For a graph of this many nodes.
    pub fn new(alloc: Global, many: usize) -> Result<Trace, AllocError>
        ensures { IfOk result (λ t. IsReady 1 many t.marks.items t.todo.items) }
    {
        let blank = Mark {
            search: 0,
            locals: LocalSet::EMPTY,
        };
        Ok(Trace {
            marks: vec![in alloc; blank; many]?,
            todo: Vec::new(alloc),
        })
    }

    /// The locals with which the search has come to the address.
    fn held(&self, search: u32, at: u32) -> LocalSet
        requires { at < length self.now.marks.items }
        ensures { result.bits ≡ held_at search self.now.marks.items at }
    {
        let mark = self.marks[at as usize];
        if mark.search == search {
            mark.locals
        } else {
            LocalSet::EMPTY
        }
    }

    /// The search comes to the address with these locals.
    fn mark(&mut self, search: u32, at: u32, locals: LocalSet) -> Result<(), AllocError>
        requires { at < length self.old.marks.items }
        ensures more { OnOk result (IsMarkedMore search self.old self.new) }
        ensures here { OnOk result ((place : ℕ) → Has locals place → IsHeld search self.new.marks.items at place) }
        ensures only { OnOk result (HoldsMore (λ to. to ≡ at) locals search self.old.marks.items self.new.marks.items) }
    {
        let held = self.held(search, at);
        let joined = held.joined(locals);
        if joined.bits == held.bits {
            return Ok(());
        }
        self.todo.push(at)?;
        self.marks[at as usize] = Mark {
            search,
            locals: joined,
        };
        Ok(())
    }

    fn mark_way(
        &mut self,
        search: u32,
        way: Option<u32>,
        locals: LocalSet,
    ) -> Result<(), AllocError>
        requires { IfSome way (λ at. at < length self.old.marks.items) }
        ensures more { OnOk result (IsMarkedMore search self.old self.new) }
        ensures here { OnOk result (HoldsAll (λ to. way ≡ Some to) locals search self.new.marks.items) }
        ensures only { OnOk result (HoldsMore (λ to. way ≡ Some to) locals search self.old.marks.items self.new.marks.items) }
    {
        match way {
            Some(at) => self.mark(search, at, locals),
            None => Ok(()),
        }
    }

    /// The search goes on with these locals wherever the node leads.
    fn mark_ways(&mut self, search: u32, node: Node, locals: LocalSet) -> Result<(), AllocError>
        requires { (to : ℕ) → LeadsTo node to → to < length self.old.marks.items }
        ensures more { OnOk result (IsMarkedMore search self.old self.new) }
        ensures here { OnOk result (HoldsAll (LeadsTo node) locals search self.new.marks.items) }
        ensures only { OnOk result (HoldsMore (LeadsTo node) locals search self.old.marks.items self.new.marks.items) }
    {
        self.mark_way(search, node.next, locals)?;
        self.mark_way(search, node.jump, locals)
    }
}

impl Trace {
    /// The waiting address is looked at. A local that is read here unset is returned; otherwise the search goes on
    /// where the node leads.
    fn visit(
        &mut self,
        graph: &[Node],
        search: u32,
        group: u32,
        at: u32,
    ) -> Result<Option<u16>, AllocError>
        requires long { length self.old.marks.items ≡ length graph.now }
        requires inside { IsInside graph.now }
        requires at { at < length graph.now }
        ensures more { IfNoRead result (IsMarkedMore search self.old self.new) }
        ensures done { IfNoRead result (AllPass graph.now search group at self.old.marks.items self.new.marks.items) }
        ensures ways { IfNoRead result (OnlyPass graph.now search group at self.old.marks.items self.new.marks.items) }
        ensures read { IfOk result (λ read. IfSome read (ReadsMarked graph.now search group at self.old.marks.items)) }
    {
        let node = graph[at as usize];
        let held = self.held(search, at);
        if let Some(local) = read_of(held, node.reads, group) {
            return Ok(Some(local));
        }
        self.mark_ways(search, node, passed(held, node.stores, group))?;
        Ok(None)
    }

    /// A read of a local of the set, its address and the local, to which a way leads from the start with no store to
    /// that local; none, if there is none.
    pub fn trace(
        &mut self,
        graph: &[Node],
        search: u32,
        group: u32,
        start: u32,
        locals: LocalSet,
    ) -> Result<Option<(u32, u16)>, AllocError>
        requires ready { IsReady search (length graph.now) self.old.marks.items self.old.todo.items }
        requires inside { IsInside graph.now }
        requires start { start < length graph.now }
        ensures ready { IfNoRead result (IsReady (search + 1) (length graph.now) self.new.marks.items self.new.todo.items) }
        ensures none { IfNoRead result (ReadsNone graph.now group start locals) }
        ensures some { IfOk result (λ read. IfSome read (λ r. ReadsUnset graph.now group start locals r.0 r.1)) }
    {
        self.mark(search, start, locals)?;
        while let Some(at) = self.todo.pop() {
            if let Some(local) = self.visit(graph, search, group, at)? {
                return Ok(Some((at, local)));
            }
        }
        Ok(None)
    }
}
