//! The passes behind the front end, from a typed tree to its image and the text of its plan.
//!
//! It stands on `sml_middle`, `closure_share`, `reg_spill` and `rv_codegen` for the passes, on `plan_text`, on `convert_slim` for what `closure_share` asks of the program that `sml_middle` answers, and on what these stand on. Its main contract: the image that `image` answers is exactly what the definitions of the passes make of the typed tree.
#![tactic(auto)]

pub mod passes;

pub use passes::{PlacedPlan, image, placed_plan, plan_lines};
