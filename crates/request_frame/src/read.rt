//! A scene, read from its frames.
ghost use Rattle.std.specs.Prelude.{◌≡◌, ◌≤◌, ◌⊎◌, ◌++◌, [], length, take, IfOk, IfErr};
ghost use Rattle.request_frame.specs.Reading.{IsFaultOf, Reached, fault_at};
ghost use Rattle.request_frame.specs.Spelling.{IsFrames};
ghost use Rattle.scene_text.specs.declared.order.Place.{Place};
ghost use Rattle.str_scene.specs.Drafts.{empty_draft};

use crate::read_frame::{split_frame, take_frame};
use scene_text::Reader;
use std::alloc::Global;
use str_scene::{Scene, SceneFault, Why};

/// Why bytes are no scene's frames.
#[derive(Clone, Copy, Debug, PartialEq, Eq)]
pub enum FrameFault {
    /// The frame whose first byte is at this place, counted from 0, is the first bad one, for this reason.
    Bad { place: u64, why: Why },
    /// There was not enough memory.
    Memory,
}

/// The version that the first five bytes give.
fn read_version(bytes: &[u8]) -> Result<u8, FrameFault>
    ensures known { IfOk result (λ v. (v ≡ 1) ⊎ (v ≡ 2)) }
    ensures long { IfOk result (λ v. 5 ≤ length bytes.now) }
    ensures read { IfOk result (λ v. Reached (take 5 bytes.now) (record { place = Place.AfterVersion; draft = empty_draft v; ops = [] })) }
    ensures bad { IfErr result (λ f. IsFaultOf bytes.now f) }
{
    let form = FrameFault::Bad {
        place: 0,
        why: Why::Form,
    };
    let [a, b, c, d, version, ..] = bytes else {
        return Err(FrameFault::Bad {
            place: 0,
            why: Why::Cut,
        });
    };
    if [*a, *b, *c, *d] != *b"STRF" {
        return Err(form);
    }
    match version {
        1 => Ok(1),
        2 => Ok(2),
        _ => Err(form),
    }
}

/// The fault of a frame for which a call was refused.
fn fault_at(place: u64, fault: SceneFault) -> FrameFault
    ensures { result ≡ fault_at place fault }
{
    match fault {
        SceneFault::Form => FrameFault::Bad {
            place,
            why: Why::Form,
        },
        SceneFault::Range => FrameFault::Bad {
            place,
            why: Why::Range,
        },
        SceneFault::Count => FrameFault::Bad {
            place,
            why: Why::Count,
        },
        SceneFault::Memory => FrameFault::Memory,
    }
}

/// The scene whose frames these bytes are. `Bad` names the first frame that makes them no scene's, by the place of its first
/// byte, and why it does.
pub fn read_frames(alloc: Global, bytes: &[u8]) -> Result<Scene, FrameFault>
    ensures read { IfOk result (λ s. IsFrames bytes.now s) }
    ensures bad { IfErr result (λ f. IsFaultOf bytes.now f) }
{
    let version = read_version(bytes)?;
    let mut reader = Reader::new(alloc, version);
    let mut left = &bytes[5..];
    while !reader.is_at_end() {
        let place = (bytes.len() - left.len()) as u64;
        let Some((kind, payload, rest)) = split_frame(left) else {
            return Err(FrameFault::Bad {
                place,
                why: Why::Cut,
            });
        };
        if let Err(fault) = take_frame(&mut reader, kind, payload) {
            return Err(fault_at(place, fault));
        }
        left = rest;
    }
    if !left.is_empty() {
        return Err(FrameFault::Bad {
            place: (bytes.len() - left.len()) as u64,
            why: Why::Form,
        });
    }
    Ok(reader.finish())
}

#[cfg(test)]
mod tests {
    use super::*;
    use crate::write::write_frames;
    use std::test::Fail;

    /// One node, one partition, one session that puts 5, one client step, the drain.
    const ONE_PUT: &[u8] =
        b"STRF\x01\x01\x00\x01\x01\x02\x00\x01\x01\x03\x00\x01\x01\x04\x00\x0c\x02\x01\x01a\x00\x00\x00\x00\x00\x00\x00\x05\x05\x00\x09\x01\x00\x00\x00\x00\x00\x00\x00\x0a\x07\x00\x00\x08\x00\x00";

    #[test]
    fn bad_frames(rt: HostRuntime) {
        let cases: [(&[u8], u64, Why); 12] = [
            (b"", 0, Why::Cut),
            (b"STRF", 0, Why::Cut),
            (b"STRF\x03", 0, Why::Form),
            (b"STRF\x01", 5, Why::Cut),
            (b"STRF\x01\x09\x00\x02\x00", 5, Why::Cut),
            (b"STRF\x01\x09\x00\x00", 5, Why::Form),
            (b"STRF\x01\x01\x00\x01\x09", 5, Why::Range),
            (b"STRF\x01\x01\x00\x01\x01\x02\x00\x00", 9, Why::Form),
            (
                b"STRF\x01\x01\x00\x01\x01\x02\x00\x02\x01\x01",
                9,
                Why::Range,
            ),
            (
                b"STRF\x01\x01\x00\x01\x01\x02\x00\x01\x01\x03\x00\x01\x01\x04\x00\x05\x07\x01\x01a\x00",
                17,
                Why::Form,
            ),
            (
                b"STRF\x02\x01\x00\x01\x01\x02\x00\x01\x01\x03\x00\x01\x01\x04\x00\x05\x07\x01\x01a\x01",
                17,
                Why::Form,
            ),
            (
                b"STRF\x01\x01\x00\x01\x01\x02\x00\x01\x01\x08\x00\x00\x08",
                16,
                Why::Form,
            ),
        ];
        for (bytes, place, why) in cases {
            match read_frames(rt.alloc(), bytes) {
                Ok(_) => assert!(rt; false),
                Err(fault) => assert_eq!(rt; fault, FrameFault::Bad { place, why }),
            }
        }
    }

    #[test]
    fn reads_and_writes(rt: HostRuntime) -> Result<(), Fail> {
        match read_frames(rt.alloc(), ONE_PUT) {
            Ok(scene) => {
                let again = write_frames(rt.alloc(), &scene)?;
                assert_eq!(rt; again.as_slice(), ONE_PUT);
            }
            Err(fault) => assert_eq!(rt; fault, FrameFault::Memory),
        }
        match read_frames(rt.alloc(), &ONE_PUT[..49]) {
            Ok(_) => assert!(rt; false),
            Err(fault) => assert_eq!(rt;
                fault,
                FrameFault::Bad {
                    place: 47,
                    why: Why::Cut
                }
            ),
        }
        Ok(())
    }
}
