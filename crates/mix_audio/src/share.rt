//! What a voice adds at one place in time.
ghost use Rattle.std.specs.Prelude.{◌≡◌, ◌<◌, ◌≤◌, ◌*◌, ◌^◌, ◌-ℤ◌, ◌*ℤ◌, IsTrue, pos, unsigned_abs};
ghost use Rattle.mix_model.specs.Sounds.{scaled, share};
ghost use Rattle.mix_model.specs.Voices.{is_voice};

use mix_model::Voice;
use mix_sources::sample;

/// Samples in a millisecond.
const RATE: i64 = 48;

/// The place that is heard now of an input that is heard so many milliseconds later. It may lie
/// before the beginning.
fn place_before(place: u64, offset: i32) -> i64
    requires { place < 2 ^ 60 }
    ensures { result ≡ pos place -ℤ (pos 48 *ℤ offset) }
{
    place as i64 - RATE * i64::from(offset)
}

/// A sample at a volume in thousandths and a weight w of n, rounded towards zero.
fn scaled(sample: i32, volume: u32, w: u32, n: u32) -> i64
    requires sample { unsigned_abs sample ≤ 32767 }
    requires volume { volume ≤ 20000 }
    requires weight { w ≤ n }
    requires some { 0 < n }
    ensures { result ≡ scaled sample volume w n }
{
    i64::from(sample) * (i64::from(volume) * i64::from(w)) / (1000 * i64::from(n))
}

/// What a voice adds at a place, counted from the beginning of the sound.
pub(crate) fn share(voice: &Voice, place: u64) -> i64
    requires voice { IsTrue (is_voice voice.now) }
    requires place { place < 2 ^ 60 }
    ensures { result ≡ share (pos place) voice.now }
{
    let sample = sample(&voice.settings, place_before(place, voice.sound.offset));
    scaled(sample, voice.sound.volume, voice.w, voice.n)
}
