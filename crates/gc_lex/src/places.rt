ghost use Rattle.std.specs.Prelude.{◌≡◌, ◌≤◌, length, take};
ghost use Rattle.gc_lex.specs.Places.{place_after, place_at};

use gc_base::Place;

/// The place before the first byte.
pub const START: Place = Place { line: 1, column: 1 };

/// The place of an offset of a text, from that of an earlier one.
pub fn moved(text: &[u8], from: usize, to: usize, place: Place) -> Place
    requires ordered { from ≤ to }
    requires within { to ≤ length text.now }
    requires start { place ≡ place_at text.now from }
    ensures { result ≡ place_at text.now to }
{
    let mut place = place;
    for i in from..to {
        place = if text[i] == b'\n' {
            Place {
                line: place.line + 1,
                column: 1,
            }
        } else {
            Place {
                line: place.line,
                column: place.column + 1,
            }
        };
    }
    place
}
