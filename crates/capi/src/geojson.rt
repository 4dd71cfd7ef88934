// GeoJSON's bbox arrays: read from a lent text, written as a text that comes by value, and turned into
// radians.
ghost use Rattle.std.specs.Prelude.{◌≡◌};
ghost use Rattle.bbox.specs.Reading.{read_of};
ghost use Rattle.degrees.specs.Degrees.{to_rect};
ghost use Rattle.c_records.specs.Texts.{box_text};

use bbox::Answer as BoundsAnswer;
use bounds::Bounds;
use c_records::{CText, text_of};
use s2::rect::Answer;

// The box of a bbox array.
#[unsafe(no_mangle)]
pub extern "C" fn sjurnabel_bbox_read(text: &[u8]) -> BoundsAnswer
    ensures { result ≡ read_of text.now }
{
    BoundsAnswer::from(bbox::read(text))
}

// The bbox array of a box.
#[unsafe(no_mangle)]
pub extern "C" fn sjurnabel_bbox_write(b: Bounds) -> CText
    ensures { result ≡ box_text b }
{
    text_of(b)
}

// The rectangle of a box, in radians.
#[unsafe(no_mangle)]
pub extern "C" fn sjurnabel_bbox_rect(b: Bounds) -> Answer
    ensures { result ≡ to_rect b }
{
    Answer::from(degrees::to_rect(b))
}
