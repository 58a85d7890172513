//! What is on the program and on the preview.
ghost use Rattle.std.specs.Prelude.{◌≡◌, IsTrue, true};
ghost use Rattle.std.specs.List.{list_all};
ghost use Rattle.mix_model.specs.Lookups.{named_by};
ghost use Rattle.mix_model.specs.Program.{channel_of, set_program};
ghost use Rattle.mix_model.specs.Sets.{has};
ghost use Rattle.mix_model.specs.Shape.{GraphShape};
ghost use Rattle.mix_model.specs.Studio.{mode_preview, program_set, scene_previewed};
ghost use Rattle.mix_model.specs.Studio.{transition_chosen};
ghost use Rattle.mix_model.specs.Values.{is_duration};
ghost use Rattle.mix_model.specs.WholeShape.{StudioShape};
ghost use Rattle.mix_transition.specs.Shape.{BusShape};

use crate::Studio;
use mix_base::Serial;
use mix_transition::BusChange;

impl Studio {
    ghost use Rattle.mix_studio.specs.Studios.{mode_set, studio_edited, studio_with};
    ghost use Rattle.mix_studio.specs.Programs.{on_program};

    /// Chooses how the next change of the program goes: by a fade or by a cut, a fade taking so
    /// many milliseconds. A running fade goes on as it is.
    pub fn choose_transition(&mut self, fade: bool, ms: u32)
        requires shape { StudioShape self.old.present }
        requires range { IsTrue (is_duration ms) }
        ensures state { self.new ≡ studio_with (transition_chosen fade ms) self.old }
        ensures shape { StudioShape self.new.present }
    {
        self.bus.choose(fade);
        self.bus.set_duration(ms);
    }

    /// Sets the program to a scene of the registry, as SetCurrentProgramScene of obs-websocket 5
    /// does.
    pub fn set_program(&mut self, scene: Serial) -> BusChange
        requires shape { StudioShape self.old.present }
        requires scene { IsTrue (has scene self.old.present.graph.scenes) }
        ensures reply { result
            ≡ (set_program self.old.present.program self.old.present.rate scene).change }
        ensures state { self.new ≡ studio_edited (program_set scene) self.old }
        ensures shape { StudioShape self.new.present }
    {
        let change = self.bus.set(scene, self.rate);
        self.show_program();
        change
    }

    /// Channel 0 names what the program shows.
    pub(crate) fn show_program(&mut self)
        requires sources { GraphShape self.old.present.graph }
        requires scenes { IsTrue (list_all (λ x. has x self.old.present.graph.scenes)
            (named_by (channel_of self.old.present.program.shown))) }
        ensures state { self.new ≡ studio_edited on_program self.old }
        ensures sources { GraphShape self.new.present.graph }
        ensures program { BusShape self.new.present.program }
    {
        self.bus.has_shape();
        let (first, second) = self.bus.ends();
        let _ = self.graph.set_channel(0, Some(first), second);
        self.graph.has_shape();
    }

    /// Sets studio mode, as SetStudioModeEnabled of obs-websocket 5 does: it begins with the target
    /// of the program as its preview, and ends with no preview.
    pub fn set_studio_mode(&mut self, enabled: bool)
        requires shape { StudioShape self.old.present }
        ensures state { self.new ≡ mode_set enabled self.old }
        ensures shape { StudioShape self.new.present }
    {
        if self.studio_mode == enabled {
            return;
        }
        let preview = self.mode_preview(enabled);
        self.studio_mode = enabled;
        let _ = self.graph.set_preview(preview);
        self.graph.has_shape();
    }

    /// The preview with which studio mode begins or ends.
    fn mode_preview(&self, enabled: bool) -> Option<Serial>
        ensures value { result ≡ mode_preview enabled self.now.present }
    {
        if enabled {
            Some(self.bus.target())
        } else {
            None
        }
    }

    /// Sets the preview to a scene of the registry, as SetCurrentPreviewScene of obs-websocket 5
    /// does.
    pub fn set_preview(&mut self, scene: Serial)
        requires shape { StudioShape self.old.present }
        requires mode { self.old.present.studio_mode ≡ true }
        requires scene { IsTrue (has scene self.old.present.graph.scenes) }
        ensures state { self.new ≡ studio_edited (scene_previewed scene) self.old }
        ensures shape { StudioShape self.new.present }
    {
        let _ = self.graph.set_preview(Some(scene));
        self.graph.has_shape();
    }
}
