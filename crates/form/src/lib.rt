//! Formats made of parts. A [`Form`] is a value with one encoding, and a format is a type, such as
//! `Both<Number, Block<1000>>`. What is proved of the parts holds of the whole: a value that was written is read
//! back, a truncated input is reported as truncated, and no encoding is a prefix of another. `CALLING.md` lists the
//! parts and the calls.
#![tactic(auto)]

mod all;
mod array;
mod block;
mod both;
mod byte_count;
mod case;
mod cases;
mod choice;
mod counted;
mod error;
mod exposed;
mod fixed;
mod form;
pub mod laws;
mod located;
mod number;
mod of_multihash;
mod stream;
mod tag;
mod whole;

pub use all::{all_from_bytes, head_and_all_from_bytes};
pub use array::Bytes;
pub use block::Block;
pub use both::{Both, write_three, write_two};
pub use byte_count::ByteCount;
pub use case::{Case, Others, Tagged};
pub use cases::Cases;
pub use choice::Choice;
pub use counted::{Counted, read_items, write_items};
pub use error::FormError;
pub use fixed::{BigEndian, Fixed, LittleEndian};
pub use form::Form;
pub use located::{LocatedError, first_error};
pub use number::Number;
pub use stream::Stream;
pub use tag::Tag;
pub use whole::{encoded_len, from_bytes, read, read_front, to_bytes};
