//! What was done about requests.
ghost use Rattle.std.specs.Prelude.{◌≡◌, OnOk, IsTrue, All, codes, is_some, map};
ghost use Rattle.mix_base.specs.declared.json.Json as json;
ghost use Rattle.mix_json.specs.Growing.{more_field, more_fields, more_item, more_items};
ghost use Rattle.mix_json.specs.Trees.{obj_of};
ghost use Rattle.mix_events.specs.Statuses.{status_name};
ghost use Rattle.mix_events.specs.Sayable.{IsSayableDone, IsWholeAnswer};
ghost use Rattle.mix_events.specs.Texts.{batch_fields, comment, done_fields, done_json};
ghost use Rattle.mix_events.specs.Texts.{request_id, response_data, status_fields};

use crate::status::status_name;
use mix_base::{Json, NoMemory, Text};
use mix_json::JsonText;
use mix_model::Done;

/// With the name of a status other than success.
fn with_comment(out: &mut JsonText, code: u16) -> Result<(), NoMemory>
    requires { IsTrue (is_some (status_name code)) }
    ensures value { OnOk result (out.new ≡ more_fields (comment code) out.old) }
{
    if code == 100 {
        return Ok(());
    }
    match status_name(code) {
        Some(name) => out.text("comment", name),
        None => unreachable!(),
    }
}

#[tactic(auto, unfolding(crate::specs::Texts::status_fields), using(mix_json::proofs::TextLemmas::more_fields_append))]
fn with_code(out: &mut JsonText, code: u16) -> Result<(), NoMemory>
    requires { IsTrue (is_some (status_name code)) }
    ensures value { OnOk result (out.new ≡ more_fields (status_fields code) out.old) }
{
    out.int("code", i64::from(code))?;
    with_comment(out, code)?;
    out.truth("result", code == 100)
}

/// With the object `requestStatus`.
fn with_status(out: &mut JsonText, code: u16) -> Result<(), NoMemory>
    requires { IsTrue (is_some (status_name code)) }
    ensures value { OnOk result (out.new ≡ more_field (codes "requestStatus")
        (json.Obj (obj_of (status_fields code))) out.old) }
{
    out.key("requestStatus")?;
    out.open()?;
    with_code(out, code)?;
    out.close()
}

/// With the id of the request, where it had one.
fn with_id(out: &mut JsonText, id: &Option<Text>) -> Result<(), NoMemory>
    ensures value { OnOk result (out.new ≡ more_fields (request_id id.now) out.old) }
{
    match id {
        Some(id) => out.text("requestId", id.as_str()),
        None => Ok(()),
    }
}

/// With the answer, where there is one.
fn with_answer(out: &mut JsonText, answer: &Option<Json>) -> Result<(), NoMemory>
    requires { IsWholeAnswer answer.now }
    ensures value { OnOk result (out.new ≡ more_fields (response_data answer.now) out.old) }
{
    match answer {
        Some(answer) => out.value("responseData", answer),
        None => Ok(()),
    }
}

/// What was done about a request.
pub fn done(out: &mut JsonText, done: &Done) -> Result<(), NoMemory>
    requires { IsSayableDone done.now }
    ensures value { OnOk result (out.new ≡ more_fields (done_fields done.now) out.old) }
{
    with_id(out, &done.id)?;
    with_status(out, done.status)?;
    out.text("requestType", done.kind.as_str())?;
    with_answer(out, &done.response)
}

/// What was done about a request, as an item.
#[tactic(auto, using(crate::proofs::FieldLemmas::done_closed))]
fn done_item(out: &mut JsonText, item: &Done) -> Result<(), NoMemory>
    requires { IsSayableDone item.now }
    ensures value { OnOk result (out.new ≡ more_item (done_json item.now) out.old) }
{
    out.open()?;
    done(out, item)?;
    out.close()
}

/// What was done about the requests of a batch, in their order.
fn all_done(out: &mut JsonText, results: &[Done]) -> Result<(), NoMemory>
    requires { All IsSayableDone results.now }
    ensures value { OnOk result (out.new ≡ more_items (map done_json results.now) out.old) }
{
    for item in results {
        done_item(out, item)?;
    }
    Ok(())
}

#[tactic(auto, using(mix_json::proofs::TextLemmas::list_under))]
fn with_results(out: &mut JsonText, results: &[Done]) -> Result<(), NoMemory>
    requires { All IsSayableDone results.now }
    ensures value { OnOk result (out.new ≡ more_field (codes "results")
        (json.List (map done_json results.now)) out.old) }
{
    out.key("results")?;
    out.open_list()?;
    all_done(out, results)?;
    out.close_list()
}

/// The fields of a batch's message.
#[tactic(auto, unfolding(crate::specs::Texts::batch_fields))]
pub fn batch(out: &mut JsonText, id: &Text, results: &[Done]) -> Result<(), NoMemory>
    requires { All IsSayableDone results.now }
    ensures value { OnOk result (out.new ≡ more_fields (batch_fields id.now results.now) out.old) }
{
    out.text("requestId", id.as_str())?;
    with_results(out, results)
}
