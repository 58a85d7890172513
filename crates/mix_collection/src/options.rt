//! The options of an item.
ghost use Rattle.std.specs.Prelude.{◌≡◌, ◌≤◌, IfSome, IsTrue, nat_le, option_and_then};
ghost use Rattle.mix_base.specs.Json.{as_int};
ghost use Rattle.mix_model.specs.Texts.{blend_named};
ghost use Rattle.mix_model.specs.Transforms.{quarter_of};
ghost use Rattle.mix_model.specs.Values.{is_align, is_between, is_place, is_position};
ghost use Rattle.mix_collection.specs.Options.{is_key, is_option, item_keys, place_keys};
ghost use Rattle.mix_collection.specs.Options.{are_options, truth_at, blend_of, blend_at};
ghost use Rattle.mix_collection.specs.Options.{align_of, align_at, crop_at, position_of};
ghost use Rattle.mix_collection.specs.Options.{position_at, turn_of, quarter_at, scale_at};
ghost use Rattle.mix_collection.specs.Options.{place_in, options_in, options_from};
ghost use Rattle.mix_collection.specs.Readers.{natural_in, natural_of, where_it};

use crate::fields::{object_in, text_in};
use mix_base::{Json, JsonObj, Member};
use mix_model::{Blend, ItemSpec, Place};

fn is_of_item(key: &str) -> bool
    ensures value { result ≡ is_key item_keys key.now }
{
    "sceneItemBlendMode" == key || "sceneItemEnabled" == key || "sceneItemLocked" == key
}

fn is_of_place(key: &str) -> bool
    ensures value { result ≡ is_key place_keys key.now }
{
    "alignment" == key
        || "cropBottom" == key
        || "cropLeft" == key
        || "cropRight" == key
        || "cropTop" == key
        || "positionX" == key
        || "positionY" == key
        || "rotation" == key
        || "scaleX" == key
        || "scaleY" == key
}

fn is_option(member: &Member<Json>) -> bool
    ensures value { result ≡ is_option member.now.key }
{
    let key = member.key.as_str();
    is_of_item(key) || is_of_place(key)
}

fn are_options(given: &JsonObj) -> bool
    ensures value { result ≡ are_options given.now }
{
    given.as_slice().iter().all(|member| is_option(member))
}

/// A truth value, or this one where the key is missing.
#[tactic(auto, unfolding(crate::specs::Options::truth_at))]
fn truth_at(given: &JsonObj, key: &str, standing: bool) -> Option<bool>
    ensures value { result ≡ truth_at key.now standing given.now }
{
    match given.get(key) {
        None => Some(standing),
        Some(Json::Bool(truth)) => Some(*truth),
        Some(_) => None,
    }
}

/// The blend mode of this text: `None` for every other text.
fn blend_named(text: &str) -> Option<Blend>
    ensures value { result ≡ blend_named text.now }
{
    if "OBS_BLEND_NORMAL" == text {
        Some(Blend::Normal)
    } else if "OBS_BLEND_ADDITIVE" == text {
        Some(Blend::Additive)
    } else if "OBS_BLEND_SUBTRACT" == text {
        Some(Blend::Subtract)
    } else if "OBS_BLEND_SCREEN" == text {
        Some(Blend::Screen)
    } else if "OBS_BLEND_MULTIPLY" == text {
        Some(Blend::Multiply)
    } else if "OBS_BLEND_LIGHTEN" == text {
        Some(Blend::Lighten)
    } else if "OBS_BLEND_DARKEN" == text {
        Some(Blend::Darken)
    } else {
        None
    }
}

fn blend_of(value: &Json) -> Option<Blend>
    ensures value { result ≡ blend_of value.now }
{
    blend_named(text_in(value)?.as_str())
}

/// How its pixels meet those below.
#[tactic(auto, unfolding(crate::specs::Options::blend_at))]
fn blend_at(given: &JsonObj) -> Option<Blend>
    ensures value { result ≡ blend_at given.now }
{
    match given.get("sceneItemBlendMode") {
        None => Some(Blend::Normal),
        Some(value) => blend_of(value),
    }
}

fn whole(value: &Json) -> Option<i64>
    ensures value { result ≡ as_int value.now }
{
    match value {
        Json::Int(number) => Some(*number),
        _ => None,
    }
}

fn natural_in(value: i64, least: u32, most: u32) -> Option<u32>
    ensures value { result ≡ natural_in least most value }
    ensures within { IfSome result (λ n. IsTrue (is_between least most n)) }
    ensures few { IfSome result (λ n. n ≤ most) }
{
    if i64::from(least) <= value && value <= i64::from(most) {
        Some(value as u32)
    } else {
        None
    }
}

/// A whole number from one to another, ends included.
fn natural_of(value: &Json, least: u32, most: u32) -> Option<u32>
    ensures value { result ≡ natural_of least most value.now }
    ensures within { IfSome result (λ n. IsTrue (is_between least most n)) }
    ensures few { IfSome result (λ n. n ≤ most) }
{
    natural_in(whole(value)?, least, most)
}

fn is_align(align: u32) -> bool
    ensures value { result ≡ is_align align }
{
    align <= 15 && align & 3 != 3 && align & 12 != 12
}

/// The sum of left 1, right 2, top 4 and bottom 8, without opposites.
fn align_of(value: &Json) -> Option<u8>
    ensures value { result ≡ align_of value.now }
    ensures apart { IfSome result (λ n. IsTrue (is_align n)) }
{
    let align = natural_of(value, 0, 15)?;
    if is_align(align) {
        Some(align as u8)
    } else {
        None
    }
}

/// Which of its sides stands at its position.
#[tactic(auto, unfolding(crate::specs::Options::align_at))]
fn align_at(given: &JsonObj) -> Option<u8>
    ensures value { result ≡ align_at given.now }
    ensures apart { IfSome result (λ n. IsTrue (is_align n)) }
{
    match given.get("alignment") {
        None => Some(5),
        Some(value) => align_of(value),
    }
}

/// Pixels cut off on a side.
#[tactic(auto, unfolding(crate::specs::Options::crop_at))]
fn crop_at(given: &JsonObj, key: &str) -> Option<u32>
    ensures value { result ≡ crop_at key.now given.now }
    ensures few { IfSome result (λ n. IsTrue (nat_le n 100000)) }
{
    match given.get(key) {
        None => Some(0),
        Some(value) => natural_of(value, 0, 100_000),
    }
}

fn position_in(pixels: i64) -> Option<i32>
    ensures value { result ≡ where_it is_position pixels }
    ensures near { IfSome result (λ z. IsTrue (is_position z)) }
{
    if -90_000 <= pixels && pixels <= 90_000 {
        Some(pixels as i32)
    } else {
        None
    }
}

fn position_of(value: &Json) -> Option<i32>
    ensures value { result ≡ position_of value.now }
    ensures near { IfSome result (λ z. IsTrue (is_position z)) }
{
    position_in(whole(value)?)
}

/// Pixels to the right, or down.
#[tactic(auto, unfolding(crate::specs::Options::position_at))]
fn position_at(given: &JsonObj, key: &str) -> Option<i32>
    ensures value { result ≡ position_at key.now given.now }
    ensures near { IfSome result (λ z. IsTrue (is_position z)) }
{
    match given.get(key) {
        None => Some(0),
        Some(value) => position_of(value),
    }
}

/// The quarter turns to the right of a rotation in degrees.
fn quarter_of(degrees: i64) -> Option<u8>
    ensures value { result ≡ quarter_of degrees }
    ensures few { IfSome result (λ n. IsTrue (nat_le n 3)) }
{
    match degrees {
        0 => Some(0),
        90 | -270 => Some(1),
        180 | -180 => Some(2),
        270 | -90 => Some(3),
        _ => None,
    }
}

fn turn_of(value: &Json) -> Option<u8>
    ensures value { result ≡ turn_of value.now }
    ensures few { IfSome result (λ n. IsTrue (nat_le n 3)) }
{
    quarter_of(whole(value)?)
}

/// Quarter turns to the right.
#[tactic(auto, unfolding(crate::specs::Options::quarter_at))]
fn quarter_at(given: &JsonObj) -> Option<u8>
    ensures value { result ≡ quarter_at given.now }
    ensures few { IfSome result (λ n. IsTrue (nat_le n 3)) }
{
    match given.get("rotation") {
        None => Some(0),
        Some(value) => turn_of(value),
    }
}

/// How often a pixel is repeated.
#[tactic(auto, unfolding(crate::specs::Options::scale_at))]
fn scale_at(given: &JsonObj, key: &str) -> Option<u8>
    ensures value { result ≡ scale_at key.now given.now }
    ensures within { IfSome result (λ n. IsTrue (is_between 1 16 n)) }
{
    match given.get(key) {
        None => Some(1),
        Some(value) => Some(natural_of(value, 1, 16)? as u8),
    }
}

/// Where the item stands.
#[tactic(auto, unfolding(crate::specs::Options::place_in))]
fn place_in(given: &JsonObj) -> Option<Place>
    ensures value { result ≡ place_in given.now }
    ensures valid { IfSome result (λ place. IsTrue (is_place place)) }
{
    let align = align_at(given)?;
    let crop_bottom = crop_at(given, "cropBottom")?;
    let crop_left = crop_at(given, "cropLeft")?;
    let crop_right = crop_at(given, "cropRight")?;
    let crop_top = crop_at(given, "cropTop")?;
    let x = position_at(given, "positionX")?;
    let y = position_at(given, "positionY")?;
    let quarter = quarter_at(given)?;
    let scale_x = scale_at(given, "scaleX")?;
    let scale_y = scale_at(given, "scaleY")?;
    Some(Place {
        x,
        y,
        scale_x,
        scale_y,
        quarter,
        align,
        crop_left,
        crop_top,
        crop_right,
        crop_bottom,
    })
}

/// What an item is asked to be: enabled and not locked, where nothing else is said. No other key
/// stands there.
#[tactic(auto, unfolding(crate::specs::Options::options_in))]
fn options_in(given: &JsonObj) -> Option<ItemSpec>
    ensures value { result ≡ options_in given.now }
    ensures valid { IfSome result (λ spec. IsTrue (is_place spec.place)) }
{
    if !are_options(given) {
        return None;
    }
    let blend = blend_at(given)?;
    let enabled = truth_at(given, "sceneItemEnabled", true)?;
    let locked = truth_at(given, "sceneItemLocked", false)?;
    let place = place_in(given)?;
    Some(ItemSpec {
        enabled,
        locked,
        place,
        blend,
    })
}

/// The options of a JSON value.
pub fn options_from(value: &Json) -> Option<ItemSpec>
    ensures value { result ≡ options_from value.now }
    ensures valid { IfSome result (λ spec. IsTrue (is_place spec.place)) }
{
    options_in(object_in(value)?)
}
