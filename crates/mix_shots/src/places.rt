//! Places of items that the lines of a table give.
ghost use Rattle.std.specs.Prelude.{◌≡◌, IfSome, IsTrue};
ghost use Rattle.mix_model.specs.Values.{is_align, is_between, is_place, is_position};

use mix_base::JsonObj;
use mix_json::opt_int;
use mix_model::Place;

/// The place of an object, where it is one that an item may have: what it doesn't say is so in the
/// corner at the left and the top.
pub fn place_in(fields: &JsonObj) -> Option<Place>
    ensures { IfSome result (λ place. IsTrue (is_place place)) }
{
    let place = Place {
        x: position(fields, "x"),
        y: position(fields, "y"),
        scale_x: small(fields, "scale_x", 1),
        scale_y: small(fields, "scale_y", 1),
        quarter: small(fields, "quarter", 0),
        align: small(fields, "align", 5),
        crop_left: crop(fields, "crop_left"),
        crop_top: crop(fields, "crop_top"),
        crop_right: crop(fields, "crop_right"),
        crop_bottom: crop(fields, "crop_bottom"),
    };
    if is_place(&place) { Some(place) } else { None }
}

fn number_or(fields: &JsonObj, key: &str, absent: i64) -> i64 {
    match opt_int(fields, key) {
        Ok(Some(number)) => number,
        _ => absent,
    }
}

fn position(fields: &JsonObj, key: &str) -> i32 {
    i32::try_from(number_or(fields, key, 0)).unwrap_or(i32::MAX)
}

fn small(fields: &JsonObj, key: &str, absent: i64) -> u8 {
    u8::try_from(number_or(fields, key, absent)).unwrap_or(u8::MAX)
}

fn crop(fields: &JsonObj, key: &str) -> u32 {
    u32::try_from(number_or(fields, key, 0)).unwrap_or(u32::MAX)
}

#[tactic(auto, unfolding(mix_model::specs::Values::is_place))]
fn is_place(place: &Place) -> bool
    ensures { result ≡ is_place place.now }
{
    is_position(place.x)
        && is_position(place.y)
        && is_scale(place.scale_x)
        && is_scale(place.scale_y)
        && place.quarter <= 3
        && is_align(place.align)
        && place.crop_left <= 100_000
        && place.crop_top <= 100_000
        && place.crop_right <= 100_000
        && place.crop_bottom <= 100_000
}

fn is_position(pixels: i32) -> bool
    ensures { result ≡ is_position pixels }
{
    -90_000 <= pixels && pixels <= 90_000
}

fn is_scale(scale: u8) -> bool
    ensures { result ≡ is_between 1 16 scale }
{
    1 <= scale && scale <= 16
}

fn is_align(align: u8) -> bool
    ensures { result ≡ is_align align }
{
    align <= 15 && align & 3 != 3 && align & 12 != 12
}
