//! Boxes, the objects that make up a file (ISO/IEC 14496-12, 4.2), both ways.
//!
//! A box has a head (a size in four or in eight bytes, and a type of four characters) and a body. The
//! `put_` calls put big-endian numbers, bytes and whole boxes at the end of a byte string; `begin_box`
//! and `end_box` write a box whose size is not known at first. `read_head` reads one head, `children`
//! the boxes that tile some bytes, or the first fault, and `leading` those up to the first fault.
#![tactic(auto)]

mod laws;
mod reading;
mod types;
mod writing;

pub use laws::{
    all_are_leading, box_read_back, boxes_by_steps, boxes_met, leading_by_steps, numbers_read_back,
    tiled_read_back, written_lengths,
};
pub use reading::{
    body, children, first_head, leading, next_head, read_head, read_u16, read_u32, read_u64,
};
pub use types::{BoxFault, BoxHead, ChildrenFault, FourCc, Heads};
pub use writing::{begin_box, end_box, put_box, put_bytes, put_u16, put_u32, put_u64};

#[cfg(test)]
mod tests;
