//! Where the pool has what instructions name.

ghost use Rattle.std.specs.Prelude.{◌≡◌, IfOk, map};
ghost use Rattle.ijvm_instr.specs.declared.instr.Instr.TheVariants.{Invokevirtual};
ghost use Rattle.tiny_tree.specs.Prelude.{function_tree};
ghost use Rattle.tiny_code.specs.Prelude.{number_code};
ghost use Rattle.tiny_pool.specs.Places.{IsPoolLength, IsTableOf, numbers_in, places_in};

use crate::constants::Constants;
use crate::numbers::add_functions;
use ijvm_instr::Instr;
use std::alloc::{AllocError, Global};
use tiny_tree::Function;

/// The places of a program's pool, and its numbers.
#[derive(Drop)]
pub struct Table {
    main: u32,
    constants: Constants,
}

impl Table {
    /// The table of the program that has these functions, of which main is at this position.
    pub fn new(alloc: Global, functions: &[Function], main: u32) -> Result<Table, AllocError>
        ensures { IfOk result (λ t. IsTableOf t (record { functions = map function_tree functions.now; main = main })) }
    {
        let Ok(count) = u32::try_from(functions.len()) else {
            return Err(AllocError);
        };
        let mut constants = Constants::new(alloc, count);
        add_functions(&mut constants, functions)?;
        Ok(Table { main, constants })
    }

    /// The numbers of the pool.
    pub fn numbers(&self) -> &[u32]
        ensures { result.now ≡ numbers_in self.now }
    {
        &self.constants.numbers
    }

    /// How many words the pool has.
    pub fn pool_length(&self) -> u32
        ensures { IsPoolLength self.now result }
    {
        self.constants.end
    }

    /// The instruction that pushes a number.
    pub fn number(&self, number: u32) -> Result<Instr, AllocError>
        ensures { IfOk result (λ i. i ≡ number_code (places_in self.now) 0 number) }
    {
        if number <= 127 {
            return Ok(Instr::Bipush(number as i8));
        }
        let place = self.constants.place(number);
        if place >= 65536 {
            return Err(AllocError);
        }
        Ok(Instr::LdcW(place as u16))
    }

    /// The instruction that calls a function.
    pub fn call(&self, function: u32) -> Result<Instr, AllocError>
        ensures { IfOk result (λ i. i ≡ Invokevirtual ((places_in self.now).entry function)) }
    {
        if function >= 65535 {
            return Err(AllocError);
        }
        if function < self.main {
            Ok(Instr::Invokevirtual((function + 1) as u16))
        } else {
            Ok(Instr::Invokevirtual(function as u16))
        }
    }
}
