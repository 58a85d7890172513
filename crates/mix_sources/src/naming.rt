//! The kinds of input by their ids.
ghost use Rattle.std.specs.Prelude.{◌≡◌};
ghost use Rattle.mix_model.specs.Texts.{kind_named};

use mix_base::Text;
use mix_model::Kind;

/// The kind of input of this id, as obs-websocket has it: `None` for every other text.
pub fn kind_of(id: &Text) -> Option<Kind>
    ensures value { result ≡ kind_named id.now }
{
    let id = id.as_str();
    if "checker_source" == id {
        Some(Kind::Checker)
    } else if "color_source_v3" == id {
        Some(Kind::Color)
    } else if "raster_source" == id {
        Some(Kind::Raster)
    } else if "scroll_source" == id {
        Some(Kind::Scroll)
    } else if "tone_source" == id {
        Some(Kind::Tone)
    } else {
        None
    }
}
