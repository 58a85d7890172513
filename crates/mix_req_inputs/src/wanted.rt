//! What CreateInput asks for.
ghost use Rattle.std.specs.Prelude.{◌≡◌};
ghost use Rattle.std.specs.Result.{result_map_both};
ghost use Rattle.mix_req_inputs.specs.CreateInput.{input_wanted, wanted_in};

use mix_base::{JsonObj, Name, Text};
use mix_json::{opt_bool, opt_obj};
use mix_requests::{new_name, sought_name};

/// What is asked for. The item of the input is enabled or not.
#[derive(Drop)]
pub struct Wanted<'a> {
    pub scene: &'a Text,
    pub name: Name,
    pub kind: &'a Text,
    pub settings: Option<&'a JsonObj>,
    pub enabled: bool,
}

/// The fields, in the order in which they are looked at: 300, 401, 403 and 400.
#[tactic(auto, unfolding(crate::specs::CreateInput::input_wanted))]
pub fn input_wanted(fields: &JsonObj) -> Result<Wanted<'_>, u16>
    ensures value { result_map_both wanted_in (λ e. e) result ≡ input_wanted fields.now }
{
    let scene = sought_name(fields, "sceneName")?;
    let name = new_name(fields, "inputName")?;
    let kind = sought_name(fields, "inputKind")?;
    let settings = opt_obj(fields, "inputSettings")?;
    let enabled = opt_bool(fields, "sceneItemEnabled", true)?;
    Ok(Wanted {
        scene,
        name,
        kind,
        settings,
        enabled,
    })
}
