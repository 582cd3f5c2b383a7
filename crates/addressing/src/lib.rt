//! The addresses of devices in a directory, under any address plan, and the devices at addresses.

#![tactic(auto)]

mod device;
mod lookup;
mod show;

pub use device::{Device, Refused};
pub use lookup::{address, trace};

#[cfg(test)]
mod tests;
