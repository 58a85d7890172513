//! Sources as they are named in answers and events.
ghost use Rattle.std.specs.Prelude.{◌≡◌, ◌<◌, ◌^◌, IfOk, is_some, true};
ghost use Rattle.mix_base.specs.Uuids.{uuid_of};
ghost use Rattle.mix_base.specs.declared.json.Json as json;
ghost use Rattle.mix_json.specs.Trees.{put_fields, with_field};
ghost use Rattle.mix_model.specs.Lookups.{row_of};
ghost use Rattle.mix_requests.specs.Named.{name_at, named};

use mix_base::{Name, NoMemory, Serial, uuid_text};
use mix_graph::Graph;
use mix_json::Fields;
use std::alloc::Global;

/// The name of a row; empty where there is none.
#[tactic(auto, unfolding(crate::specs::Named::name_at))]
pub fn name_at(graph: &Graph, serial: Serial) -> &str
    ensures value { result.now ≡ name_at graph.now.present serial }
{
    match graph.row(serial) {
        Some(row) => row.name.as_str(),
        None => "",
    }
}

/// The name of a row that is there.
pub fn name_of(graph: &Graph, serial: Serial) -> Name
    requires there { is_some (row_of graph.now.present serial) ≡ true }
    ensures value { result ≡ name_at graph.now.present serial }
{
    match graph.row(serial) {
        Some(row) => row.name.share(),
        None => unreachable!(),
    }
}

/// With the UUID of a source.
pub fn with_uuid(
    alloc: Global,
    fields: Fields,
    key: &str,
    serial: Serial,
) -> Result<Fields, NoMemory>
    requires serial { serial < 2 ^ 48 }
    ensures value { IfOk result
        (λ all. all ≡ with_field key.now (json.Text (uuid_of serial)) fields) }
{
    let Ok(text) = uuid_text(alloc, serial) else {
        drop(fields);
        return Err(NoMemory);
    };
    let fields = fields.text(key, text.as_str());
    drop(text);
    fields
}

/// With a source by its name and its UUID, under these keys.
pub fn with_named(
    alloc: Global,
    fields: Fields,
    graph: &Graph,
    name_key: &str,
    uuid_key: &str,
    serial: Serial,
) -> Result<Fields, NoMemory>
    requires serial { serial < 2 ^ 48 }
    ensures value { IfOk result (λ all. all
        ≡ put_fields (named name_key.now uuid_key.now graph.now.present serial) fields) }
{
    let fields = fields.text(name_key, name_at(graph, serial))?;
    with_uuid(alloc, fields, uuid_key, serial)
}
