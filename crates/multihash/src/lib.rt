//! Self-describing hashes: a code and a digest in one value, with three encodings.
//!
//! A [`Multihash`] is the code of a hash function and a digest, that function's output. Its encoding is
//! the varint of the code, the varint of the digest's length, and the digest
//! (<https://github.com/multiformats/multihash>). The library does no hashing and has no table of
//! codes.
//!
//! Each encoding is written by one call and read by another:
//!
//! - binary: `m.to_bytes(alloc)?` and `Multihash::<64>::from_bytes(&bytes)?`
//! - SCALE: `m.scale_encode(&mut writer)?` and `Multihash::<64>::scale_decode(&mut reader)?`
//! - JSON: `m.to_value(alloc)?` and `Multihash::<64>::from_value(&value)?`
//!
//! [`Multihash::write`], [`Multihash::read`] and the module [`list`] are for streams of the binary encoding.
#![tactic(auto)]

mod binary;
mod compare;
mod error;
mod exposed;
mod head;
mod json;
pub mod laws;
pub mod list;
mod multihash;
pub mod no_std_io;
mod scale;
pub mod varint;

pub use crate::error::Error;
pub use crate::head::Head;
pub use crate::multihash::Multihash;

/// The result of this library's calls.
pub type Result<T> = std::result::Result<T, Error>;

/// [`Multihash`] under its former name.
pub type MultihashGeneric<const CAPACITY: usize> = Multihash<CAPACITY>;
