//! CreateInput.
ghost use Rattle.std.specs.Prelude.{◌≡◌, [], IfOk, IsTrue, option_map};
ghost use Rattle.mix_model.specs.Rows.{is_input};
ghost use Rattle.mix_model.specs.Values.{are_settings, is_canvas};
ghost use Rattle.mix_model.specs.WholeShape.{StudioShape};
ghost use Rattle.mix_requests.specs.Outcomes.{Answers, DoesLast};
ghost use Rattle.mix_requests.specs.Ready.{IsReady};
ghost use Rattle.mix_req_inputs.specs.CreateInput.{IsMakeable, create_input, input_found};
ghost use Rattle.mix_req_inputs.specs.CreateInput.{kind_sought, new_settings, wanted_in};

use crate::new_input::{NewInput, new_spec};
use crate::telling::tell_input;
use crate::wanted::{Wanted, input_wanted};
use mix_base::{Json, JsonObj, Text};
use mix_model::{Body, Kind, Notes, Settings};
use mix_requests::{Caller, Events, Refused, make_input, needed_fields, scene_sought};
use mix_sources::{BadSetting, SettingFault, check_settings, kind_of};
use mix_studio::Studio;
use std::alloc::Global;

/// An input more, last in the registry, with an item on top of a scene.
#[tactic(auto, unfolding(crate::specs::CreateInput::create_input))]
pub fn create_input(
    alloc: Global,
    studio: &mut Studio,
    notes: &mut Notes,
    caller: Caller,
    body: &Body,
    events: &mut Events,
) -> Result<Option<Json>, Refused>
    requires ready { IsReady studio.old notes.old }
    requires empty { events.old ≡ [] }
    ensures does { DoesLast result studio.old studio.new notes.old notes.new events.new
        (create_input studio.old.present notes.old caller body.now) }
    ensures shape { StudioShape studio.new.present }
{
    let _ = caller;
    let fields = needed_fields(body)?;
    let wanted = input_wanted(fields)?;
    let found = input_found(alloc, studio, &wanted);
    drop(wanted);
    let input = found?;
    let Ok(answer) = tell_input(alloc, studio.graph(), &input, events) else {
        drop(input);
        return Err(Refused::NoMemory);
    };
    let made = make_input(
        studio,
        input.name,
        input.kind,
        input.settings,
        input.parent,
        input.spec,
    );
    match made {
        Ok(()) => Ok(Some(answer)),
        Err(refused) => {
            drop(answer);
            Err(refused)
        }
    }
}

/// The input that is asked for, or what refuses it: 600, 602, 605, 601, or that of its settings.
#[tactic(auto, unfolding(crate::specs::CreateInput::input_found))]
fn input_found(alloc: Global, studio: &Studio, wanted: &Wanted<'_>) -> Result<NewInput, Refused>
    requires shape { StudioShape studio.now.present }
    ensures value { Answers result (input_found studio.now.present (wanted_in wanted.now)) }
    ensures makeable { IfOk result (IsMakeable studio.now.present.graph) }
{
    let parent = scene_sought(studio.graph(), wanted.scene)?;
    let kind = kind_sought(wanted.kind)?;
    if studio.graph().has_name(&wanted.name) {
        return Err(Refused::Status(601));
    }
    let settings = new_settings(alloc, studio.canvas(), kind, wanted.settings)?;
    Ok(NewInput {
        parent,
        name: wanted.name.share(),
        kind,
        settings,
        spec: new_spec(wanted.enabled),
    })
}

/// The kind of input of this id: 605 where there is none.
fn kind_sought(id: &Text) -> Result<Kind, u16>
    ensures value { result ≡ kind_sought id.now }
    ensures input { IfOk result (λ kind. IsTrue (is_input kind)) }
{
    match kind_of(id) {
        Some(kind) => Ok(kind),
        None => Err(605),
    }
}

/// The settings of a new input: what is given over the defaults of its kind, or what refuses them.
fn new_settings(
    alloc: Global,
    canvas: (u32, u32),
    kind: Kind,
    given: Option<&JsonObj>,
) -> Result<Settings, Refused>
    requires canvas { IsTrue (is_canvas canvas) }
    requires input { IsTrue (is_input kind) }
    ensures value { Answers result
        (new_settings canvas kind (option_map (λ o. o.now) given.entry)) }
    ensures valid { IfOk result (λ settings. IsTrue (are_settings kind settings)) }
{
    let none = JsonObj::new(alloc);
    let checked = check_settings(alloc, kind, &Settings::None, given.unwrap_or(&none), canvas);
    drop(none);
    match checked {
        Ok(settings) => Ok(settings),
        Err(SettingFault::Bad(BadSetting { key, status })) => {
            drop(key);
            Err(Refused::Status(status))
        }
        Err(SettingFault::NoMemory) => Err(Refused::NoMemory),
    }
}
