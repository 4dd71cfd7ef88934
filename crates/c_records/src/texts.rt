// The text of a box. The port writes texts into memory that is lent, and this one comes by value, so the
// record is C's own.
ghost use Rattle.std.specs.Prelude.{◌≡◌};
ghost use Rattle.c_records.specs.Texts.{box_text};

use bounds::Bounds;

// The most bytes of a text that is written, 51, and a zero after it.
const ROOM: usize = 52;

// A text and its length; every byte after it is zero.
#[repr(C)]
#[derive(Clone, Copy)]
pub struct CText {
    pub refusal: u8,
    pub length: usize,
    pub text: [u8; ROOM],
}

// The bbox array of a box. It is written into zeros, and no text is as long as they are, so that a zero
// ends it.
// Laws: Laws.left-given, capi.Promises.text-given, capi.Promises.always-room.
// Ruled out: a text with a space after it; a refusal, and a byte that is no zero.
pub fn text_of(b: Bounds) -> CText
    ensures { result ≡ box_text b }
{
    let mut text = [0u8; ROOM];
    match bbox_text::write(b, &mut text) {
        Ok(length) => CText {
            refusal: 0,
            length,
            text,
        },
        Err(why) => CText {
            refusal: why.into(),
            length: 0,
            text,
        },
    }
}
