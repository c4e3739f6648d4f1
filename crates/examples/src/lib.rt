//! Callers of each kind, by public paths of the library and of `form` alone: what the pages show, and users of
//! multihashes.
#![tactic(auto)]

pub mod capacities;
pub mod content;
pub mod encodings;
pub mod loops;
pub mod parts;
pub mod peer_id;
pub mod slices;
pub mod std_reader;
