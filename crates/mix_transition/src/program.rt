//! What the program shows.
ghost use Rattle.std.specs.Prelude.{◌≡◌, IsTrue};
ghost use Rattle.mix_model.specs.Program.{is_fading, shown_after, shown_without, target_of};
ghost use Rattle.mix_model.specs.Program.{weights_of};
ghost use Rattle.mix_model.specs.Voices.{ends_of};
ghost use Rattle.mix_model.specs.WholeShape.{is_shown};

use mix_base::Serial;

/// What the program shows: a scene at rest, or a fade from one scene to another.
///
/// ```text
///             set, with a fade
///  ┌────────┐ ────────────────▶ ┌────────┐
///  │ AtRest │                   │ Fading │
///  └────────┘ ◀──────────────── └────────┘
///             the last frame;
///             set, with a cut;
///             forget an end
///
///  AtRest ──▶ AtRest: set, with a cut; forget the scene
///  Fading ──▶ Fading: a frame before the last; set, with a fade, which begins anew
/// ```
#[derive(Clone, Copy)]
pub enum Program {
    AtRest(Serial),
    /// Some of the frames that it takes have passed, and not all.
    Fading {
        from: Serial,
        to: Serial,
        passed: u32,
        frames: u32,
    },
}

impl Program {
    ghost use Rattle.mix_transition.specs.Seen.{shown_by};

    /// The scene at rest, or the one that the fade goes to.
    pub fn target(self) -> Serial
        ensures value { result ≡ target_of (shown_by self) }
    {
        match self {
            Program::AtRest(scene) => scene,
            Program::Fading { to, .. } => to,
        }
    }

    /// The scene at rest, or the two of the fade.
    pub fn ends(self) -> (Serial, Option<Serial>)
        ensures value { result ≡ ends_of (shown_by self) }
    {
        match self {
            Program::AtRest(scene) => (scene, None),
            Program::Fading { from, to, .. } => (from, Some(to)),
        }
    }

    /// How many frames of how many have passed, 0 of 1 at rest.
    pub fn weights(self) -> (u32, u32)
        ensures value { result ≡ weights_of (shown_by self) }
    {
        match self {
            Program::AtRest(_) => (0, 1),
            Program::Fading { passed, frames, .. } => (passed, frames),
        }
    }

    pub fn is_fading(self) -> bool
        ensures value { result ≡ is_fading (shown_by self) }
    {
        matches!(self, Program::Fading { .. })
    }

    /// What is shown a frame later.
    pub fn a_frame_later(self) -> Program
        requires running { IsTrue (is_shown (shown_by self)) }
        ensures value { shown_by result ≡ shown_after (shown_by self) }
    {
        match self {
            Program::AtRest(scene) => Program::AtRest(scene),
            Program::Fading {
                from,
                to,
                passed,
                frames,
            } => {
                if passed + 1 < frames {
                    Program::Fading {
                        from,
                        to,
                        passed: passed + 1,
                        frames,
                    }
                } else {
                    Program::AtRest(to)
                }
            }
        }
    }

    /// What is shown without a scene: the other end of its fade, or the other scene in its place.
    pub fn without(self, scene: Serial, other: Serial) -> Program
        ensures value { shown_by result ≡ shown_without scene other (shown_by self) }
    {
        match self {
            Program::AtRest(resting) => {
                if resting == scene {
                    Program::AtRest(other)
                } else {
                    self
                }
            }
            Program::Fading { from, to, .. } => {
                if from == scene {
                    Program::AtRest(to)
                } else if to == scene {
                    Program::AtRest(from)
                } else {
                    self
                }
            }
        }
    }
}
