//! One direction of a step: where the columns, or the rows, of a scene or group lead.
ghost use Rattle.std.specs.Prelude.{◌≡◌, ◌<◌, ◌≤◌, ◌+◌, ◌*◌, ℕ, pos, ◌+ℤ◌, ◌-ℤ◌, IfSome, IsTrue, max, min};
ghost use Rattle.mix_model.specs.Values.{is_place};
ghost use Rattle.mix_model.specs.Placing.{cropped, back, turned_choice, within};
ghost use Rattle.mix_model.specs.Plans.{is_step};
ghost use Rattle.mix_raster.specs.Axes.{mirrors_columns, mirrors_rows, across, downwards};
ghost use Rattle.mix_raster.specs.Axes.{axis_through, led_by, IsAxis};
ghost use Rattle.mix_raster.specs.Spans.{laid, or_first, places_before, span_through};

use mix_model::{Place, Step};

/// One direction of a step.
#[derive(Clone, Copy)]
pub(crate) struct Axis {
    /// How far before its position the box begins.
    pub back: u32,
    pub position: i32,
    /// How long the box is.
    pub side: u32,
    /// Whether places are counted from the far end of the box.
    pub mirrored: bool,
    pub scale: u32,
    pub crop: u32,
}

/// The side of an upright box: what two crops leave of the child, each pixel so many times.
fn side_of_box(side: u32, before: u32, after: u32, scale: u8) -> u32
    requires sizes { side ≤ 4096 }
    requires crops { (before ≤ 100000) × (after ≤ 100000) }
    requires scale { scale ≤ 16 }
    ensures value { result ≡ cropped side before after * scale }
    ensures small { result ≤ 65536 }
{
    side.saturating_sub(before + after) * u32::from(scale)
}

/// By how much a box of this side lies before its position, as its alignment says.
fn reach_back(align: u8, near: u8, far: u8, side: u32) -> u32
    ensures value { result ≡ back align near far side }
    ensures small { result ≤ side }
{
    if align & near == near {
        0
    } else if align & far == far {
        side
    } else {
        side / 2
    }
}

/// The first of two for the upright turns, the second for those to the side.
fn for_turn(quarter: u8, upright: u32, aside: u32) -> u32
    requires { quarter ≤ 3 }
    ensures value { result ≡ turned_choice quarter upright aside }
    ensures small { result ≤ max upright aside }
    ensures large { min upright aside ≤ result }
{
    match quarter {
        0 | 2 => upright,
        _ => aside,
    }
}

fn mirrored_across(quarter: u8) -> bool
    requires { quarter ≤ 3 }
    ensures value { result ≡ mirrors_columns quarter }
{
    quarter == 1 || quarter == 2
}

fn mirrored_down(quarter: u8) -> bool
    requires { quarter ≤ 3 }
    ensures value { result ≡ mirrors_rows quarter }
{
    quarter >= 2
}

/// The columns through a place, whose child is of this scaled size.
#[tactic(auto, unfolding(mix_model::specs::Values::is_place))]
fn axis_across(place: &Place, wide: u32, high: u32) -> Axis
    requires place { IsTrue (is_place place.now) }
    requires sizes { (wide ≤ 65536) × (high ≤ 65536) }
    ensures value { result ≡ across place.now wide high }
    ensures valid { IsAxis result }
{
    let side = for_turn(place.quarter, wide, high);
    Axis {
        back: reach_back(place.align, 1, 2, side),
        position: place.x,
        side,
        mirrored: mirrored_across(place.quarter),
        scale: for_turn(
            place.quarter,
            u32::from(place.scale_x),
            u32::from(place.scale_y),
        ),
        crop: for_turn(place.quarter, place.crop_left, place.crop_top),
    }
}

/// The rows through a place, whose child is of this scaled size.
#[tactic(auto, unfolding(mix_model::specs::Values::is_place))]
fn axis_down(place: &Place, wide: u32, high: u32) -> Axis
    requires place { IsTrue (is_place place.now) }
    requires sizes { (wide ≤ 65536) × (high ≤ 65536) }
    ensures value { result ≡ downwards place.now wide high }
    ensures valid { IsAxis result }
{
    let side = for_turn(place.quarter, high, wide);
    Axis {
        back: reach_back(place.align, 4, 8, side),
        position: place.y,
        side,
        mirrored: mirrored_down(place.quarter),
        scale: for_turn(
            place.quarter,
            u32::from(place.scale_y),
            u32::from(place.scale_x),
        ),
        crop: for_turn(place.quarter, place.crop_top, place.crop_left),
    }
}

/// The axis of a step, downwards or across.
#[tactic(auto, unfolding(mix_model::specs::Values::is_place))]
pub(crate) fn axis_of(step: &Step, down: bool) -> Axis
    requires step { IsTrue (is_step step.now) }
    ensures value { result ≡ axis_through down step.now }
    ensures valid { IsAxis result }
{
    let place = &step.place;
    let wide = side_of_box(step.width, place.crop_left, place.crop_right, place.scale_x);
    let high = side_of_box(
        step.height,
        place.crop_top,
        place.crop_bottom,
        place.scale_y,
    );
    if down {
        axis_down(place, wide, high)
    } else {
        axis_across(place, wide, high)
    }
}

/// The place within a box, of the column or row z of what holds it.
fn along(z: u32, before: u32, position: i32, side: u32) -> Option<u32>
    ensures value { result ≡ within (pos (z + before) -ℤ position) side }
    ensures small { IfSome result (λ i. i < side) }
{
    let place = i64::from(z) + i64::from(before) - i64::from(position);
    if 0 <= place && place < i64::from(side) {
        Some(place as u32)
    } else {
        None
    }
}

/// The place i of a box in what holds it, or the first one where that lies before it.
fn laid_at(i: u32, position: i32, before: u32) -> u32
    requires { i ≤ 65536 }
    ensures { result ≡ or_first (pos i +ℤ position -ℤ pos before) }
{
    let place = i64::from(i) + i64::from(position) - i64::from(before);
    if place < 0 { 0 } else { place as u32 }
}

impl Axis {
    /// Where the column or row z leads, or nothing outside the box.
    pub fn lead(&self, z: u32) -> Option<u32>
        requires axis { IsAxis self.now }
        ensures value { result ≡ led_by self.now z }
    {
        let Some(place) = along(z, self.back, self.position, self.side) else {
            return None
        };
        let from_end = if self.mirrored {
            self.side - 1 - place
        } else {
            place
        };
        Some(self.crop + from_end / self.scale)
    }

    /// Where the column or row z leads, or z itself outside the box.
    pub fn lead_or_stay(&self, z: u32) -> u32
        requires axis { IsAxis self.now }
        ensures value { (u : ℕ) → led_by self.now z ≡ Some u → result ≡ u }
    {
        match self.lead(z) {
            Some(place) => place,
            None => z,
        }
    }

    /// How many places of the box, from the end that is counted from, lead before this place.
    fn places_before(&self, u: u32) -> u32
        ensures value { result ≡ places_before self.now u }
        ensures small { result ≤ self.now.side }
    {
        let places = u64::from(u.saturating_sub(self.crop)) * u64::from(self.scale);
        places.min(u64::from(self.side)) as u32
    }

    fn laid(&self, i: u32) -> u32
        requires { i ≤ 65536 }
        ensures { result ≡ laid self.now i }
    {
        laid_at(i, self.position, self.back)
    }

    /// Which columns, or rows, lead between two places: from the first on, and before the second.
    pub fn span(&self, span: (u32, u32)) -> (u32, u32)
        requires axis { IsAxis self.now }
        ensures value { result ≡ span_through self.now span }
    {
        let near = self.places_before(span.0);
        let far = self.places_before(span.1);
        if self.mirrored {
            (self.laid(self.side - far), self.laid(self.side - near))
        } else {
            (self.laid(near), self.laid(far))
        }
    }
}
