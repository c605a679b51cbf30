//! What a row does to the members of a type, to a type and to a file (Visual Basic Language Specification 11.0, 6, 7 and 9).
//!
//! Proved: each call does the step of the definitions of `vb_blocks`.
//!
//! Only tested: nothing.
//!
//! Assumed: nothing but memory.
#![tactic(auto)]

mod events;
mod files;
mod frames;
mod interfaces;
mod members;
mod procedures;
mod properties;
mod types;
mod wholes;

pub use frames::frame_turn;
pub use wholes::{property_frame, put, with_statement};
