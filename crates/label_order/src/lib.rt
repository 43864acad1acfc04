//! The functions of a `Cps` program by label, and the points that are left.
//!
//! It stands on `close_laws` for the definitions, on `cps_survey`, `variable_users` and `used_values`, and on what these stand on. Its main contract: `left_points` answers exactly the points that are left in a program, in order.
//!
//! Each function puts its number into the slot of its label (`order`). No two functions of a slim program have one point, so no slot is taken twice.
#![tactic(auto)]

ghost use Rattle.std.specs.Prelude.{◌≡◌};
ghost use Rattle.cps_ir.specs.Code.{Code};
ghost use Rattle.cps_ir.specs.Slim.{layouts};
ghost use Rattle.close_laws.specs.Layouts.{Facts};
ghost use Rattle.close_laws.specs.Close.{labelled, points_of};
ghost use Rattle.label_order.specs.Order.{by_label_in, points_in};

pub mod order;
pub mod points;

pub use order::in_order;
pub use points::left_points;

/// The functions of the definition by label are the functions of a program by label.
pub fn labelled_are_in_order()
    ensures { (A : Facts) (c : Code) → A.all ≡ layouts c → points_of (labelled A c) ≡ points_in (by_label_in (layouts c) (layouts c)) }
{}
