//! Places, counted byte by byte.

ghost use Rattle.std.specs.Prelude.{◌≡◌, ◌+◌, ◌≤◌, ◌<◌, ◌^◌, length};
ghost use Rattle.std.specs.List.{fold};
ghost use Rattle.sml_lexer.specs.PlaceScan.{next_place};

use smlc_base::Place;

/// The place behind these bytes, from the place before them.
pub fn advance(place: Place, bytes: &[u8]) -> Place
    requires line { place.line + length bytes.now < 2 ^ 32 }
    requires col { place.col + length bytes.now + 1 < 2 ^ 32 }
    ensures { result ≡ fold next_place place bytes.now }
{
    let mut place = place;
    for c in bytes {
        if *c == b'\n' {
            place = Place {
                file: place.file,
                line: place.line + 1,
                col: 1,
            };
        } else {
            place = Place {
                file: place.file,
                line: place.line,
                col: place.col + 1,
            };
        }
    }
    place
}
