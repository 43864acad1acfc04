//! The words of points in the source where some labels are left: those of a point's site, and of the frames around it that no label of their own pays for.
//!
//! It stands on `label_order` for the order of points, and on what this stands on. Its main contract: `words` answers exactly the site words of a point, or that they are too many for a number.
//!
//! The ranks of the labels that are left are an ordered set, and a map has for each rank the first site of its point (`tables`). A point's words are a walk outward over sites (`walking`).
#![tactic(auto)]

pub mod tables;
pub mod walking;

pub use tables::{find, left_ranks, site_numbers};
pub use walking::words;
