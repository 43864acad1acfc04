//! What primitives and tests of matches mean, for the values of any machine: a machine says how it sees a value, and carries out what is answered.
//!
//! It stands on `smlc_base` alone. Its main law, `meaning_alike`: two machines whose values are related, and seen alike, come to related outcomes of each primitive.
//! Laws over any type of values can't stand in a contract; they are the `pub` lemmas of `proofs/`.
#![tactic(auto)]
