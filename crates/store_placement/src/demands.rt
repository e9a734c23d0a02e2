//! What a program asks of a placement.
ghost use Rattle.std.specs.Prelude.{◌≡◌, ◌++◌, ◌+◌, ◌<◌, ◌≤◌, [], length, map};
ghost use Rattle.std.specs.List.{filter_map};
ghost use Rattle.std.specs.Option.{ForSome, option_to_list};
ghost use Rattle.mal_parser.specs.Prelude.{IsMalProgram};
ghost use Rattle.store_placement.specs.Demands.{IsOfStatements};
ghost use Rattle.store_placement.specs.Program.{demands_of, pair_of, statement_pair};

use crate::constraints::Constraints;
use crate::pair::Pair;
use mal_parser::{MalNext, MalProgram};

fn pair_of(next: MalNext) -> Option<Pair>
    ensures { result ≡ pair_of next }
{
    match next {
        MalNext::Branch { yes, no, .. } => Some(Pair { yes, no }),
        _ => None,
    }
}

fn add_pair(constraints: &mut Constraints, next: MalNext)
    requires room { length constraints.old.pairs < 513 }
    requires targets { ForSome (pair_of next) (IsOfStatements (length constraints.old.fixed)) }
    ensures fixed { constraints.new.fixed ≡ constraints.old.fixed }
    ensures pairs { constraints.new.pairs ≡ constraints.old.pairs ++ option_to_list (pair_of next) }
    ensures count { length constraints.new.pairs ≤ length constraints.old.pairs + 1 }
{
    if let Some(pair) = pair_of(next) {
        constraints.pair(pair);
    }
}

/// Only the fixed addresses.
fn fixed_of(program: &MalProgram) -> Constraints
    ensures fixed { result.fixed ≡ map (λ s. s.fixed) program.now.statements }
    ensures pairs { result.pairs ≡ [] }
{
    let mut constraints = Constraints::new();
    for s in 0..program.len() {
        constraints.add(program.statement(s).fixed);
    }
    constraints
}

/// Adds the pairs of the statements' conditionals.
fn add_pairs(constraints: &mut Constraints, program: &MalProgram)
    requires statements { length constraints.old.fixed ≡ length program.now.statements }
    requires empty { constraints.old.pairs ≡ [] }
    ensures fixed { constraints.new.fixed ≡ constraints.old.fixed }
    ensures pairs { constraints.new.pairs ≡ filter_map statement_pair program.now.statements }
    ensures count { length constraints.new.pairs ≤ 512 }
    ensures program { IsMalProgram program.now }
{
    for s in 0..program.len() {
        add_pair(constraints, program.statement(s).next);
    }
}

/// The fixed addresses, and the pairs of the conditionals, the one of `.default` included.
#[tactic(auto, unfolding(crate::specs::Program::demands_of))]
pub fn constraints_of(program: &MalProgram) -> Constraints
    ensures demands { result ≡ demands_of program.now }
    ensures count { length result.fixed ≡ length program.now.statements }
{
    let mut constraints = fixed_of(program);
    add_pairs(&mut constraints, program);
    if let Some(fallback) = program.fallback() {
        add_pair(&mut constraints, fallback.next);
    }
    constraints
}
