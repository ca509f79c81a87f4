//! A trace made of a seed: so many subscribers attach, and then packets both ways, rates and moves are
//! drawn for them. A line is made at a time. What becomes of the lines is left to who reads them.
//!
//! ```
//! use std::test::Fail;
//! use text_fields::Text;
//! use trace_lines::push_text;
//! use trace_maker::{Maker, made_line};
//!
//! fn main(rt: HostRuntime) -> Result<(), Fail> {
//!     let mut maker = Maker::new(1, 1, 0);
//!     let Some(line) = made_line(rt.alloc(), &mut maker)? else {
//!         return Err("a line".into());
//!     };
//!     let mut text = Text::new(rt.alloc());
//!     push_text(&mut text, &line)?;
//!     let attach = b"0 ATTACH 001010000000000 198.51.100.1 00000001 100000 100000";
//!     assert_eq!(rt; text.as_slice(), attach.as_slice());
//!     Ok(())
//! }
//! ```
#![tactic(auto)]

mod draws;
mod laws;
mod maker;
mod making;
mod packets;
mod said;

pub use draws::Draws;
pub use laws::{a_made_trace_is_read, made_lines_stand_in_order};
pub use maker::{Maker, made_line};
pub use making::make;
