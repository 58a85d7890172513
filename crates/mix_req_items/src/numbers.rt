//! The fields of requests on items that are whole numbers.
ghost use Rattle.std.specs.Prelude.{◌≡◌};
ghost use Rattle.mix_req_items.specs.Numbers.{item_id, natural_in};

use mix_base::{ItemId, JsonObj};
use mix_json::need_int;

const OUT_OF_RANGE: u16 = 402;

/// The id of an item: 300, 401 and 402.
#[tactic(auto, unfolding(crate::specs::Numbers::item_id))]
pub fn item_id(fields: &JsonObj) -> Result<ItemId, u16>
    ensures value { result ≡ item_id fields.now }
{
    let id = need_int(fields, "sceneItemId")?;
    Ok(ItemId(natural_in(id, 1, 4_294_967_295)?))
}

/// A number from one to another, ends included.
fn natural_in(value: i64, least: u32, most: u32) -> Result<u32, u16>
    ensures value { result ≡ natural_in least most value }
{
    if i64::from(least) <= value && value <= i64::from(most) {
        Ok(value as u32)
    } else {
        Err(OUT_OF_RANGE)
    }
}
