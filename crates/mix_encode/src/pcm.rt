//! A block's bytes: its tracks as PCM.
ghost use Rattle.std.specs.Prelude.{◌≡◌, ◌*◌, ◌<◌, ◌≤◌, ◌++◌, length, flat_map, count_ones};
ghost use Rattle.std.specs.Prelude.{negsuc, pos, IfOk, IsTrue, OnOk};
ghost use Rattle.std.specs.List.{list_all};
ghost use Rattle.mix_model.specs.Encoding.{pcm_of, sample_bytes, samples_of};
ghost use Rattle.mix_model.specs.Sounds.{has_track, is_block};
ghost use Rattle.mix_model.specs.Values.{is_within};

use mix_base::{Bytes, ListOf, NoMemory};
use mix_model::Block;
use std::alloc::Global;

/// How many tracks a block has.
const TRACKS: usize = 6;

/// How many samples a track of a block has: 1024 of left and 1024 of right, in turn.
const SAMPLES: usize = 2048;

/// Whether a mask has a track, tracks counted from 0.
fn has_track(mask: u8, track: usize) -> bool
    requires { track < 6 }
    ensures { result ≡ has_track mask track }
{
    (mask >> track) % 2 == 1
}

/// Adds samples, each in two bytes.
fn add_samples(bytes: &mut Vec<u8>, samples: &[i32]) -> Result<(), NoMemory>
    requires { IsTrue (list_all (is_within (negsuc 32767) (pos 32767)) samples.now) }
    ensures ok { OnOk result (bytes.new.items
        ≡ bytes.old.items ++ flat_map sample_bytes samples.now) }
{
    for sample in samples {
        bytes.extend_from_slice(&(*sample as i16).to_le_bytes())?;
    }
    Ok(())
}

/// The samples of a track, tracks counted from 0.
fn samples_of(block: &Block, track: usize) -> &[i32]
    requires block { IsTrue (is_block block.now) }
    requires track { track < 6 }
    ensures value { result.now ≡ samples_of block.now track }
    ensures within { IsTrue (list_all (is_within (negsuc 32767) (pos 32767)) result.now) }
{
    let start = SAMPLES * track;
    let samples = block.tracks.as_slice();
    &samples[start..start + SAMPLES]
}

/// The bytes of a block as libobs has them in `AUDIO_FORMAT_16BIT`: for each track of the mask, in
/// rising order, 1024 frames of left and then right, each in two bytes, the lower one first. Bit 0
/// of the mask is track 1.
pub fn pcm_s16le(alloc: Global, block: &Block, tracks: u8) -> Result<Bytes, NoMemory>
    requires block { IsTrue (is_block block.now) }
    requires tracks { tracks ≤ 63 }
    ensures value { IfOk result (λ bytes. bytes ≡ pcm_of block.now tracks) }
    ensures length { IfOk result (λ bytes. length bytes ≡ 4096 * count_ones tracks) }
{
    let room = 2 * SAMPLES * tracks.count_ones() as usize;
    let mut bytes = Vec::with_capacity(alloc, room)?;
    for track in 0..TRACKS {
        if has_track(tracks, track) {
            add_samples(&mut bytes, samples_of(block, track))?;
        }
    }
    Ok(ListOf::from_vec(bytes))
}
