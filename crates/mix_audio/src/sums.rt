//! What is heard at one place in time: a sum for each track.
ghost use Rattle.std.specs.Prelude.{◌≡◌, ◌<◌, ◌≤◌, ◌^◌, ◌+ℤ◌, ℕ, IsTrue, pos, length, fold};
ghost use Rattle.std.specs.Prelude.{if◌then◌else◌, unsigned_abs};
ghost use Rattle.std.specs.List.{list_all};
ghost use Rattle.mix_model.specs.Sounds.{has_track, added};
ghost use Rattle.mix_model.specs.Voices.{is_voice};
ghost use Rattle.mix_audio.specs.Sums.{sum_of, HasRoom};

use crate::share::share;
use mix_model::Voice;

/// Tracks of a block.
pub(crate) const TRACKS: usize = 6;

/// Whether a mask has the track, tracks counted from 0.
fn has_track(mask: u8, track: usize) -> bool
    requires { track < 6 }
    ensures { result ≡ has_track mask track }
{
    (mask >> track) % 2 == 1
}

/// The sum of a track with a voice more, where the voice is in the track.
fn with_share(sum: i128, share: i64, mask: u8, track: usize) -> i128
    requires track { track < 6 }
    requires room { unsigned_abs sum < 2 ^ 100 }
    ensures { result ≡ sum +ℤ (if has_track mask track then share else pos 0) }
{
    if has_track(mask, track) {
        sum + i128::from(share)
    } else {
        sum
    }
}

/// Adds what a voice says to the sums of the tracks that it is in.
fn add_share(sums: &mut [i128], share: i64, mask: u8)
    requires tracks { length sums.old ≡ 6 }
    requires room { HasRoom sums.old }
    ensures { (track : ℕ) → track < 6 → sum_of sums.new track
        ≡ sum_of sums.old track +ℤ (if has_track mask track then share else pos 0) }
{
    for track in 0..TRACKS {
        sums[track] = with_share(sums[track], share, mask, track);
    }
}

/// The sums of all voices at a place, each voice's share worked out once.
pub(crate) fn sums_at(voices: &[Voice], place: u64) -> [i128; TRACKS]
    requires voices { IsTrue (list_all is_voice voices.now) }
    requires place { place < 2 ^ 60 }
    ensures tracks { length result ≡ 6 }
    ensures value { (track : ℕ) → track < 6 →
        sum_of result track ≡ fold (added track (pos place)) (pos 0) voices.now }
{
    let mut sums = [0; TRACKS];
    for voice in voices {
        add_share(&mut sums, share(voice, place), voice.sound.tracks);
    }
    sums
}
