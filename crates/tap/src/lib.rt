//! A device that copies what passes through it to an observer.
//!
//! A `TappedDevice` reads and writes as the device in it does, byte for byte and fault for fault.
//! If it has a `Tap`, the tap gets each piece that was read or written, once it has passed.
#![tactic(auto)]

mod tapped_device;

pub use tapped_device::{Tap, TappedDevice};
