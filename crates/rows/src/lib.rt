// The rows of the tables: channels, devices and segments, and every loop over arrays that the kernel needs.
#![tactic(auto)]

pub mod sizes; // the chain's length and the EXOS boundary
pub mod segments; // the list, the classes and the chain
pub mod channels; // the rows of channels
pub mod devices; // the rows of devices, and names

#[derive(Clone, Copy, PartialEq, Eq)]
pub struct Channel {
    pub number: u8,
    pub device: u8,
    pub unit: u8,
    pub n: u16,
}

#[derive(Clone, Copy, PartialEq, Eq)]
pub struct Device {
    pub name: [u8; 28],
    pub length: u8,
    pub enabled: bool,
}
