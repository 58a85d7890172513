//! A block of sound.
ghost use Rattle.std.specs.Prelude.{◌≡◌, ◌≢◌, ◌<◌, ◌≤◌, ◌+◌, ◌*◌, ◌^◌, ℕ, ℤ, pos, IsTrue, IfOk};
ghost use Rattle.std.specs.Prelude.{length, slice_index_or};
ghost use Rattle.std.specs.List.{list_all};
ghost use Rattle.mix_model.specs.Sounds.{clamped, track_sample, mixed, is_block};
ghost use Rattle.mix_model.specs.Voices.{is_voice};
ghost use Rattle.mix_audio.specs.Sums.{sum_of};
ghost use Rattle.mix_audio.specs.Frames.{HasFrame};

use crate::sums::{TRACKS, sums_at};
use mix_base::{ListOf, NoMemory};
use mix_model::{Block, Voice, VoiceList};
use std::alloc::Global;

/// Stereo frames of a track in a block.
const FRAMES: usize = 1024;

/// Samples of a block.
const SAMPLES: usize = 2 * FRAMES * TRACKS;

/// A sum, held within what sixteen bits hold.
fn held(sum: i128) -> i32
    ensures { result ≡ clamped sum }
{
    sum.clamp(-32768, 32767) as i32
}

/// Writes one frame of a track: the left and the right hear the same.
fn write_both(block: &mut [i32], left: usize, sample: i32)
    requires { left + 1 < length block.old }
    ensures left { slice_index_or block.new left (pos 0) ≡ sample }
    ensures right { slice_index_or block.new (left + 1) (pos 0) ≡ sample }
    ensures others { (k : ℕ) → k ≢ left → k ≢ left + 1 →
        slice_index_or block.new k (pos 0) ≡ slice_index_or block.old k (pos 0) }
{
    block[left] = sample;
    block[left + 1] = sample;
}

/// Writes one frame of each track.
fn write_frame(block: &mut [i32], frame: usize, sums: &[i128])
    requires block { length block.old ≡ 12288 }
    requires frame { frame < 1024 }
    requires sums { length sums.now ≡ 6 }
    ensures here { (track : ℕ) → track < 6 →
        HasFrame block.new track frame (clamped (sum_of sums.now track)) }
    ensures others { (track i : ℕ) (sample : ℤ) → track < 6 → i < 1024 → i ≢ frame →
        HasFrame block.old track i sample → HasFrame block.new track i sample }
{
    for track in 0..TRACKS {
        write_both(block, 2 * (FRAMES * track + frame), held(sums[track]));
    }
}

/// Writes all frames of a block, one after the other.
fn fill(block: &mut [i32], voices: &[Voice], number: u64)
    requires block { length block.old ≡ 12288 }
    requires voices { IsTrue (list_all is_voice voices.now) }
    requires number { number < 2 ^ 32 }
    ensures { (track i : ℕ) → track < 6 → i < 1024 →
        HasFrame block.new track i (track_sample voices.now track (pos (1024 * number + i))) }
{
    for frame in 0..FRAMES {
        let sums = sums_at(voices, FRAMES as u64 * number + frame as u64);
        write_frame(block, frame, &sums);
    }
}

/// So many samples of silence.
fn silence(alloc: Global, samples: usize) -> Result<Vec<i32>, NoMemory>
    ensures { IfOk result (λ block. length block.items ≡ samples) }
{
    Ok(vec![in alloc; 0; samples]?)
}

/// The block of this number: of each track the sum of the voices that are in it, each at its volume
/// and its weight, held within sixteen bits. It is refused for want of memory alone.
pub fn mix(alloc: Global, voices: &VoiceList, number: u64) -> Result<Block, NoMemory>
    requires voices { IsTrue (list_all is_voice voices.now) }
    requires number { number < 2 ^ 32 }
    ensures value { IfOk result (λ block. block ≡ mixed voices.now number) }
    ensures block { IfOk result (λ block. IsTrue (is_block block)) }
{
    let mut samples = silence(alloc, SAMPLES)?;
    fill(samples.as_mut_slice(), voices.as_slice(), number);
    Ok(Block {
        tracks: ListOf::from_vec(samples),
    })
}
