// The model table: ports, connections and buffers; reading one from bytes into two slices of numbers, `ports` and `links`.
#![tactic(auto)]

mod four_bytes;
pub mod links;
pub mod ports;
pub mod reading;
pub mod record;
pub mod slices;

pub use slices::Table;
