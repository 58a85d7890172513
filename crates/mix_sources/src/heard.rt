//! What an input says at one place in time.
ghost use Rattle.std.specs.Prelude.{◌≡◌, ◌<◌, ◌≤◌, IsTrue};
ghost use Rattle.mix_model.specs.Kinds.{sample_of};
ghost use Rattle.mix_model.specs.Values.{are_valid};

use mix_model::Settings;

/// The sample of an input at a place, counted from the beginning of the sound; the place may lie
/// before it. Only a tone is heard: everything else has 0.
#[tactic(auto, unfolding(mix_model::specs::Values::are_valid))]
pub fn sample(settings: &Settings, place: i64) -> i32
    requires valid { IsTrue (are_valid settings.now) }
    ensures value { result ≡ sample_of settings.now place }
{
    match settings {
        Settings::Tone { level, half } => wave(*level, *half, place),
        _ => 0,
    }
}

/// A square wave, above zero in the first half of each period.
fn wave(level: u32, half: u32, place: i64) -> i32
    requires loud { level ≤ 32767 }
    requires some { (0 < half) × (half ≤ 48000) }
    ensures value { result ≡ sample_of (Settings.Tone level half) place }
{
    if place.rem_euclid(2 * i64::from(half)) < i64::from(half) {
        level as i32
    } else {
        -(level as i32)
    }
}
