//! One cycle.
ghost use Rattle.std.specs.Prelude.{◌≡◌, Ok, IfOk, IfSome, None, true};
ghost use Rattle.micro_terms.specs.Prelude.{Grows, Holds};
ghost use Rattle.mic1_cycles.specs.Cycle.{ports_of};
ghost use Rattle.mic1_cycles.specs.Trail.{Trail};
ghost use Rattle.mic1_cycles.specs.Access.{IsFetched, IsTransferred};
ghost use Rattle.mic1_cycles.specs.Questions.{AreAnswered};
ghost use Rattle.mic1_cycles.specs.Known.{Knows};
ghost use Rattle.mic1_cycles.specs.Paths.{IsPath, LeadsOn, MeetsRefusal, trail_of};

use crate::access::{byte_at, read_at};
use crate::compute::computed;
use crate::known::Known;
use crate::laws::{access_law, cycle_law, refusal_law};
use crate::next::{Next, next_of};
use crate::path::Path;
use crate::question::Answer;
use crate::refusal::{Forecast, Stop, is_fetchable, refusal_in};
use crate::site::{Site, site_of};
use crate::symbols::{Byte, Symbols, Write, assigned};
use micro_terms::Nodes;
use micro_word::{Mem, Placed};
use std::alloc::{AllocError, Global};

/// What came of a cycle.
#[derive(Clone, Copy, Debug, PartialEq, Eq)]
pub enum Stepped {
    Done,
    /// The path has to answer the question first.
    Asks(Answer),
    /// The cycle is refused; the path is as it was.
    Refused(Stop),
    /// It is not known where the cycle leads.
    Unknown,
}

/// The byte that a fetch has under way; the outer `None` if it is not known that memory has it.
fn fetch(
    is: bool,
    pc: u32,
    writes: &[Write],
    answers: &[Answer],
    nodes: &mut Nodes,
    known: &Known,
    alloc: Global,
) -> Result<Option<Option<Byte>>, AllocError>
    ensures value { IfOk result (λ found. IfSome found (λ byte. (s : Symbols) (t : Trail) → s.pc ≡ pc → t.writes ≡ writes.now →
        Holds nodes.new (λ e. Knows e known.now → AreAnswered e answers.now → IsFetched e.word e.start is (ports_of e.word e.start s) t byte))) }
    ensures grows { Grows nodes.old nodes.new }
{
    access_law();
    if !is {
        return Ok(Some(None));
    }
    let Some(fetchable) = is_fetchable(pc, nodes, known, answers) else {
        return Ok(None);
    };
    if !fetchable {
        return Ok(None);
    }
    let byte = byte_at(pc, writes, nodes, known, alloc)?;
    Ok(Some(Some(byte)))
}

impl Path {
    /// Writes to memory or to the console; `Ok(false)` if it is not known to which.
    fn put(&mut self, at: u32, value: u32, nodes: &Nodes, known: &Known) -> Result<bool, AllocError>
        ensures value { result ≡ Ok true → (s : Symbols) → s.mar ≡ at → s.mdr ≡ value →
            Holds nodes.now (λ e. Knows e known.now → AreAnswered e self.old.answers.items →
            IsTransferred e.word e.start Mem.Write (ports_of e.word e.start s) (trail_of self.old) None (trail_of self.new)) }
        ensures symbols { self.new.symbols ≡ self.old.symbols }
        ensures answers { self.new.answers.items ≡ self.old.answers.items }
    {
        access_law();
        match site_of(at, nodes, known, &self.answers) {
            Site::Memory => {
                self.writes.push(Write { at, value })?;
                Ok(true)
            }
            Site::Console => {
                self.given.push(value)?;
                Ok(true)
            }
            _ => Ok(false),
        }
    }

    /// Writes or reads: the word that is then under way; the outer `None` if it is not known where the access is.
    fn transfer(
        &mut self,
        mem: Mem,
        s: &Symbols,
        nodes: &mut Nodes,
        known: &Known,
        alloc: Global,
    ) -> Result<Option<Option<u32>>, AllocError>
        ensures value { IfOk result (λ found. IfSome found (λ word. Holds nodes.new (λ e. Knows e known.now → AreAnswered e self.old.answers.items →
            IsTransferred e.word e.start mem (ports_of e.word e.start s.now) (trail_of self.old) word (trail_of self.new)))) }
        ensures grows { Grows nodes.old nodes.new }
        ensures symbols { self.new.symbols ≡ self.old.symbols }
        ensures answers { self.new.answers.items ≡ self.old.answers.items }
    {
        access_law();
        match mem {
            Mem::None => Ok(Some(None)),
            Mem::Write => {
                if self.put(s.mar, s.mdr, nodes, known)? {
                    Ok(Some(None))
                } else {
                    Ok(None)
                }
            }
            Mem::Read => {
                match read_at(
                    s.mar,
                    &self.writes,
                    self.taken,
                    &self.answers,
                    nodes,
                    known,
                    alloc,
                )? {
                    Some(read) => {
                        self.taken = read.taken;
                        Ok(Some(Some(read.word)))
                    }
                    None => Ok(None),
                }
            }
        }
    }

    /// Clocks a statement. An error, and any outcome but `Done` and `Refused`, leaves a path of which nothing is said.
    pub fn step(
        &mut self,
        p: &Placed,
        nodes: &mut Nodes,
        known: &Known,
        alloc: Global,
    ) -> Result<Stepped, AllocError>
        ensures done { result ≡ Ok Stepped.Done → Holds nodes.new (λ e. Knows e known.now → IsPath e self.old → LeadsOn e p.now self.old self.new) }
        ensures refused { (why : Stop) → result ≡ Ok (Stepped.Refused why) →
            Holds nodes.new (λ e. Knows e known.now → IsPath e self.old → MeetsRefusal e p.now why self.old) }
        ensures stays { (why : Stop) → result ≡ Ok (Stepped.Refused why) → self.new ≡ self.old }
        ensures grows { Grows nodes.old nodes.new }
    {
        cycle_law();
        access_law();
        refusal_law();
        let values = computed(&p.part, &self.symbols, nodes, alloc)?;
        let loaded = assigned(p.part.dests, values.v, &self.symbols);
        match refusal_in(
            p.part.mem,
            p.part.fetch,
            &loaded,
            nodes,
            known,
            &self.answers,
        ) {
            Forecast::Clear => {}
            Forecast::Refused(why) => return Ok(Stepped::Refused(why)),
            Forecast::Asks(answer) => return Ok(Stepped::Asks(answer)),
        }
        let to = match next_of(p.next, values.x, loaded.mbr.plain, nodes, &self.answers) {
            Next::To(to) => to,
            Next::Asks(answer) => return Ok(Stepped::Asks(answer)),
            Next::Unknown => return Ok(Stepped::Unknown),
        };
        let Some(word) = self.transfer(p.part.mem, &loaded, nodes, known, alloc)? else {
            return Ok(Stepped::Unknown);
        };
        let Some(byte) = fetch(
            p.part.fetch,
            loaded.pc,
            &self.writes,
            &self.answers,
            nodes,
            known,
            alloc,
        )?
        else {
            return Ok(Stepped::Unknown);
        };
        self.symbols = Symbols {
            mpc: to,
            word,
            byte,
            ..loaded
        };
        Ok(Stepped::Done)
    }
}
