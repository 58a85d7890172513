//! The fields of a request that are texts of names.
ghost use Rattle.std.specs.Prelude.{◌≡◌};
ghost use Rattle.std.specs.Result.{result_map_both};
ghost use Rattle.mix_requests.specs.Read.{needed_fields, new_name, sought_name};

use mix_base::{JsonObj, Name, NameFault, Text};
use mix_json::need_text;
use mix_model::Body;

/// The fields of a request that needs some: 301 where there are none.
pub fn needed_fields(body: &Body) -> Result<&JsonObj, u16>
    ensures value { result_map_both (λ fields. fields.now) (λ e. e) result
        ≡ needed_fields body.now }
{
    match body {
        Body::Fields(fields) => Ok(fields),
        Body::Absent | Body::Wrong => Err(301),
    }
}

/// A name that a source is to get: 300 where it is missing, 401 where it is no text, 403 where it is
/// empty, and 400 where it is no name for another cause.
#[tactic(auto, unfolding(crate::specs::Read::new_name))]
pub fn new_name(fields: &JsonObj, key: &str) -> Result<Name, u16>
    ensures value { result ≡ new_name key.now fields.now }
{
    let text = need_text(fields, key)?;
    match Name::read(text.bytes()) {
        Ok(name) => Ok(name),
        Err(NameFault::Empty) => Err(403),
        Err(_) => Err(400),
    }
}

/// The name of something that is there: 300 where it is missing, 401 where it is no text, 403 where it
/// is empty.
#[tactic(auto, unfolding(crate::specs::Read::sought_name))]
pub fn sought_name<'a>(fields: &'a JsonObj, key: &str) -> Result<&'a Text, u16>
    ensures value { result_map_both (λ text. text.now) (λ e. e) result
        ≡ sought_name key.now fields.now }
{
    let text = need_text(fields, key)?;
    if text.bytes().is_empty() {
        return Err(403);
    }
    Ok(text)
}
