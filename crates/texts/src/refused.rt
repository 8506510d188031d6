// The line of a refusal.
ghost use Rattle.std.specs.Prelude.{◌≡◌};
ghost use Rattle.texts.specs.Refused.{refused_text};
ghost use Rattle.texts.specs.Texts.{written};

use crate::text::Text;
use faults::fault::Diagnosis;

// The word refused, the layer, the number and the place, with blanks between, and a line feed.
// By hand: `write!` says what it wrote only where it answers Ok, and a writer that never fails cannot say so.
pub fn refused_line(diagnosis: Diagnosis) -> Text
    ensures { written result ≡ refused_text diagnosis }
{
    let mut text = Text::new();
    text.push_all(b"refused ");
    text.push_all(diagnosis.layer.word());
    text.push(b' ');
    text.push_decimal(u64::from(diagnosis.number));
    text.push(b' ');
    // No From of std takes a usize to a u64.
    text.push_decimal(diagnosis.place as u64);
    text.push(b'\n');
    text
}
