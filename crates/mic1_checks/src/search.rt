//! What was found of a control store so far.
ghost use Rattle.std.specs.Prelude.{◌≡◌, None};

use crate::finding::{Asked, Difference, Finding};
use crate::leaf::Counts;
use std::alloc::{AllocError, Global};

/// What both stores spend, leaf by leaf, and what is not shown.
#[derive(Drop)]
pub struct Search {
    pub leaves: Vec<Counts>,
    /// The first path that is not shown.
    pub first: Option<Finding>,
    /// What else is not.
    pub others: Vec<Asked>,
    /// That of which nothing is known, because too much is asked.
    pub too_much: Vec<Asked>,
    /// What is left of the budget.
    pub left: u64,
}

impl Search {
    pub fn new(left: u64, alloc: Global) -> Search {
        Search {
            leaves: Vec::new(alloc),
            first: None,
            others: Vec::new(alloc),
            too_much: Vec::new(alloc),
            left,
        }
    }

    /// Notes what is not shown, if something is not.
    pub fn note(&mut self, finding: Option<Finding>) -> Result<(), AllocError>
        ensures noted { self.new.first ≡ None → finding ≡ None }
        ensures first { self.new.first ≡ None → self.old.first ≡ None }
        ensures leaves { self.new.leaves.items ≡ self.old.leaves.items }
    {
        let Some(finding) = finding else {
            return Ok(());
        };
        if self.first.is_none() {
            self.first = Some(finding);
            return Ok(());
        }
        if finding.difference == Difference::TooMuch {
            self.too_much.push(finding.asked)?;
        } else {
            self.others.push(finding.asked)?;
        }
        Ok(())
    }
}
