//! Comments, which nest.

ghost use Rattle.std.specs.Prelude.{◌≡◌, ◌≤◌, length, IfSome};
ghost use Rattle.sml_lexer.specs.CommentScan.{mark_at, close_at};

use crate::bytes::byte_at;

/// What begins at a byte of a comment.
#[derive(Clone, Copy)]
enum Mark {
    /// `(*`
    Open,
    /// `*)`
    Close,
    Neither,
}

#[tactic(auto, unfolding(crate::specs::CommentScan::mark_at))]
fn mark_at(bytes: &[u8]) -> Mark
    ensures { result ≡ mark_at bytes.now }
{
    let first = byte_at(bytes, 0);
    let second = byte_at(bytes, 1);
    if first == b'(' && second == b'*' {
        Mark::Open
    } else if first == b'*' && second == b')' {
        Mark::Close
    } else {
        Mark::Neither
    }
}

/// Behind the `(*` of a comment, the bytes up to and with the `*)` that closes it; None where the bytes end before.
pub fn comment_len(bytes: &[u8]) -> Option<usize>
    ensures value { result ≡ close_at 0 bytes.now }
    ensures bound { IfSome result (λ len. len ≤ length bytes.now) }
{
    let mut depth = 0usize;
    let mut at = 0usize;
    while at + 1 < bytes.len() {
        match mark_at(&bytes[at..]) {
            Mark::Open => {
                depth += 1;
                at += 2;
            }
            Mark::Close => {
                at += 2;
                if depth == 0 {
                    return Some(at);
                }
                depth -= 1;
            }
            Mark::Neither => at += 1,
        }
    }
    None
}
