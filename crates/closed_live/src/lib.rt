//! The variables that live in the bodies of a `Closed` program, for all bodies at once, and along one body.
//!
//! It stands on `place_laws`, which says what lives before a body, on `closure_ir` and on what these stand on. Its main contract: `live_variables` answers for each body, by number, exactly the variables that live before it.
//!
//! Bodies are met from the last to the first, so that those that stand in a body are done before it. In a body what is bound goes out of an ordered set and what is used comes in, from its end up. So the time is that of one insertion for each use and for each variable that lives before a body.
#![tactic(auto)]

mod binds;
pub mod lives;
pub mod set;

pub use lives::{live_along, live_variables, row};
pub use set::insert;
