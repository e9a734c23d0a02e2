//! What the datapaths of Mic-1 and Mic-2 share: nine registers and the buses between them, the ALU by its control
//! lines, the memory's ports, and the next address.
#![tactic(auto)]

pub mod accesses;
pub mod alu;
pub mod c_bus;
pub mod jam;
pub mod laws;
pub mod memory;
pub mod ports;
pub mod signs;

pub use accesses::{Sampled, access_tested, check_memory, transfer};
pub use alu::{operate, shift_by};
pub use c_bus::{Places, arrive, arrived, port, settle};
pub use jam::next_address;
pub use laws::{console_law, side_law};
pub use memory::{access_memory, fetch_alone, is_in_memory, read_alone, write_alone};
pub use ports::Ports;
pub use signs::sign_extended;
