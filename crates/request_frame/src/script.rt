//! The operations of a transaction, looked at before any of them is taken.
ghost use Rattle.std.specs.Option.{SomeIff};
ghost use Rattle.std.specs.Prelude.{◌≡◌, ◌≤◌, ◌++◌, IfSome, IsNone, length};
ghost use Rattle.str_base.specs.declared.limits.TheConstants.{PARTITIONS};
ghost use Rattle.request_frame.specs.FrameBytes.{IsOpForm, op_bytes};
ghost use Rattle.request_frame.specs.Reading.{ReadsNoScript, ReadsScript, is_known_in};
ghost use Rattle.scene_text.specs.LineTexts.{Fits};
ghost use Rattle.scene_text.specs.Taking.{in_range, is_up_to};
ghost use Rattle.scene_text.specs.declared.lines.Line.{Line as AnyLine};
ghost use Rattle.std.specs.Prelude.{List, ℕ};
ghost use Rattle.str_scene.specs.Scenes.{Scene as AnyScene};

use crate::ops::read_op;
use scene_text::Line;
use str_base::PartId;

/// The partition is one of so many.
fn is_part(parts: usize, part: PartId) -> bool
    ensures { result ≡ is_up_to parts part.0 }
{
    1 <= part.0 && usize::from(part.0) <= parts
}

/// The numbers of an operation are in range where there are so many partitions.
fn is_ranged(parts: usize, op: &Option<Line>) -> bool
    requires { parts ≤ PARTITIONS }
    ensures { (d : AnyScene) (l : AnyLine) → length d.parts ≡ parts → IsOpForm l → SomeIff op.now (Fits l) l → in_range d l ≡ result }
{
    match op {
        None => false,
        Some(Line::Get(_, part)) => is_part(parts, *part),
        Some(Line::Put(_, part, _)) => is_part(parts, *part),
        Some(Line::Puts(_, part, _)) => is_part(parts, *part),
        Some(Line::Add(_, part, _)) => is_part(parts, *part),
        Some(Line::Del(_, part)) => is_part(parts, *part),
        Some(Line::Need(_, part, _)) => is_part(parts, *part),
        Some(_) => true,
    }
}

/// The operation with which the bytes begin may stand in a scene of this version.
fn is_known(version: u8, bytes: &[u8]) -> bool
    ensures { (op : AnyLine) (rest : List ℕ) → IsOpForm op → bytes.now ≡ op_bytes op ++ rest → is_known_in version op ≡ result }
{
    match bytes.first() {
        Some(7) => version == 2,
        _ => true,
    }
}

/// Whether the numbers of the operations are in range where there are so many partitions; `None` where the payload is that of
/// no transaction of this version.
pub fn check_script(version: u8, parts: usize, payload: &[u8]) -> Option<bool>
    requires { parts ≤ PARTITIONS }
    ensures script { IfSome result (λ ranged. ReadsScript version parts payload.now ranged) }
    ensures none { IsNone result → ReadsNoScript version payload.now }
{
    if payload.is_empty() {
        return None;
    }
    let mut left = payload;
    let mut ranged = true;
    while !left.is_empty() {
        if !is_known(version, left) {
            return None;
        }
        let (op, rest) = read_op(left)?;
        ranged = ranged && is_ranged(parts, &op);
        left = rest;
    }
    Some(ranged)
}
