//! Laws of the frames of a scene: functions without effect, each of which carries one law.
ghost use Rattle.request_frame.specs.Laws.{BadIsNoScene, OneFirstBad, OneScene, OneSpelling, PackThenShow, ShowThenPack};

/// Bytes are the frames of one scene at most.
pub fn one_scene()
    ensures { OneScene }
{}

/// A scene has one list of frames.
pub fn one_spelling()
    ensures { OneSpelling }
{}

/// Bytes have one first bad frame at most, for one reason.
pub fn one_first_bad()
    ensures { OneFirstBad }
{}

/// Bytes with a first bad frame are the frames of no scene.
pub fn bad_is_no_scene()
    ensures { BadIsNoScene }
{}

/// A text that is packed into frames and shown again is that text.
pub fn pack_then_show()
    ensures { PackThenShow }
{}

/// Frames that are shown as a text and packed again are those frames.
pub fn show_then_pack()
    ensures { ShowThenPack }
{}
