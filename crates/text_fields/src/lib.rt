//! Lines of text as fields with one space between each two, and the fields that a trace and a report
//! share, both ways: decimal numbers, IPv4 addresses, octets in hexadecimal. Which fields a line has
//! is left to the crates above.
//!
//! ```
//! use std::test::Fail;
//! use text_fields::{Text, cut, read_number};
//!
//! fn main(rt: HostRuntime) -> Result<(), Fail> {
//!     let (first, _) = cut(b' ', b"70 0a2f");
//!     assert_eq!(rt; read_number(first, 0, 255), Some(70));
//!     let mut line = Text::new(rt.alloc());
//!     line.push_number(70)?;
//!     line.push_octets(&[0x0a, 0x2f])?;
//!     assert_eq!(rt; line.as_slice(), b" 70 0a2f".as_slice());
//!     Ok(())
//! }
//! ```
#![tactic(auto)]

mod address;
mod blocks;
mod encoding;
mod fields;
mod head;
mod hexadecimal;
mod kept;
mod laws;
mod number;

pub use address::read_address;
pub use fields::{cut, has_empty_field, next_piece};
pub use head::Head;
pub use hexadecimal::{decode, read_lower_octets, read_octets};
pub use kept::Text;
pub use laws::{
    fields_stand_apart, one_lower_text_of_octets, one_text_of_a_number, one_text_of_an_address,
    one_text_of_octets,
};
pub use number::read_number;
