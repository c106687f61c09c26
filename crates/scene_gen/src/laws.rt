//! The law of made scenes: a function without effect, which carries it.
ghost use Rattle.std.specs.Prelude.{ℕ, ◌<◌, ◌^◌};
ghost use Rattle.scene_gen.specs.Made.{made};
ghost use Rattle.str_scene.specs.SceneLimits.{IsScene};

/// The made scene of each seed keeps all limits of a scene, and all that it names exists.
pub fn limits_hold()
    ensures { (seed : ℕ) → seed < 2 ^ 64 → IsScene (made seed) }
{}
