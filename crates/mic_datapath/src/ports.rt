//! What the memory ports are given.

/// What the two memory ports are given at a clock edge: MAR and MDR at the word port, PC at the byte port.
#[derive(Clone, Copy, Debug, PartialEq, Eq)]
pub struct Ports {
    pub mar: u32,
    pub mdr: u32,
    pub pc: u32,
}
