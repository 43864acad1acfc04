//! Names whose schemes are known.

use sml_types::Scheme;

/// The scheme of a name. The forms from number `from` up to the scheme's type have all their parts among them.
#[derive(Drop)]
pub struct Settled {
    pub from: u32,
    pub scheme: Scheme,
}
