//! Tables by spelling.

ghost use Rattle.std.specs.Prelude.{◌≡◌, map};
ghost use Rattle.sml_prelude.specs.Entries.{row, first_of};

/// A spelling, and what it stands for.
#[derive(Clone, Copy, Debug)]
pub struct Entry<T> {
    pub text: &'static [u8],
    pub meaning: T,
}

/// What the first entry with this spelling stands for, if there is one.
pub(crate) fn first_of<T: Copy>(entries: &[Entry<T>], text: &[u8]) -> Option<T>
    ensures { result ≡ first_of (map row entries.now) text.now }
{
    for entry in entries {
        if entry.text == text {
            return Some(entry.meaning);
        }
    }
    None
}
