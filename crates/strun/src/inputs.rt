//! What a run reads: the text of a scene, or its frames.
ghost use Rattle.run_io.specs.Inputs.{HasRead, InputFails};
ghost use Rattle.std.specs.Prelude.{IfErr, IfOk};
ghost use Rattle.strun.specs.Inputs.{form_of};

use run_io::{read_packed, read_text};
use std::alloc::Global;
use str_outer::Source;
use str_scene::Scene;
use top_status::Failure;

/// Reads a scene, as its text or as its frames.
pub(crate) fn read_either<S: Source>(
    alloc: Global,
    frames: bool,
    src: &mut S,
) -> Result<Scene, Failure>
    ensures taken { IfOk result (λ scene. HasRead (form_of frames) (S.left src.old) (S.left src.new) scene) }
    ensures failed { IfErr result (InputFails (form_of frames) (S.left src.old) (S.left src.new) (S.faults src.old) (S.faults src.new)) }
{
    if frames {
        read_packed(alloc, src)
    } else {
        read_text(alloc, src)
    }
}
