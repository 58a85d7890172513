//! The text of a block of sound.
ghost use Rattle.std.specs.Prelude.{◌≡◌, ◌++◌, ◌<◌, IfOk, IsTrue, OnOk, flat_map, string_bytes};
ghost use Rattle.std.specs.Prelude.{negsuc, pos};
ghost use Rattle.std.specs.List.{list_all};
ghost use Rattle.hex.specs.Hex.{encode_lower};
ghost use Rattle.mix_model.specs.Encoding.{pcm_of, sample_bytes, samples_of};
ghost use Rattle.mix_model.specs.Sounds.{is_block};
ghost use Rattle.mix_model.specs.Values.{is_within};
ghost use Rattle.sha2.specs.Sha256.{sha256};
ghost use Rattle.mix_script.specs.BlockText.{all_peaks, all_tracks, block_text, peak};

use mix_base::NoMemory;
use mix_model::Block;
use sha2::{Digest, Sha256};
use std::alloc::{AllocError, Global};

/// How many tracks a block has.
const TRACKS: usize = 6;

/// How many samples a track of a block has: 1024 of left and 1024 of right, in turn.
const SAMPLES: usize = 2048;

/// The samples of a track, tracks counted from 0.
fn samples_of(block: &Block, track: usize) -> &[i32]
    requires block { IsTrue (is_block block.now) }
    requires track { track < 6 }
    ensures value { result.now ≡ samples_of block.now track }
    ensures within { IsTrue (list_all (is_within (negsuc 32767) (pos 32767)) result.now) }
{
    let start = SAMPLES * track;
    let samples = block.tracks.as_slice();
    &samples[start..start + SAMPLES]
}

/// The greatest absolute value of samples.
fn peak(samples: &[i32]) -> u32
    ensures value { result ≡ peak samples.now }
{
    let mut greatest = 0;
    for sample in samples {
        greatest = greatest.max(sample.unsigned_abs());
    }
    greatest
}

/// The peaks of all tracks.
fn peaks_text(alloc: Global, block: &Block) -> Result<String, AllocError>
    requires block { IsTrue (is_block block.now) }
    ensures value { IfOk result (λ text. string_bytes text ≡ all_peaks block.now) }
{
    let mut text = String::new(alloc);
    for track in 0..TRACKS {
        let greatest = peak(samples_of(block, track));
        let piece = format!(in alloc; " {greatest}")?;
        text.push_str(piece.as_str())?;
    }
    Ok(text)
}

/// Adds samples, each in two bytes.
fn add_samples(bytes: &mut Vec<u8>, samples: &[i32]) -> Result<(), NoMemory>
    requires { IsTrue (list_all (is_within (negsuc 32767) (pos 32767)) samples.now) }
    ensures ok { OnOk result (bytes.new.items
        ≡ bytes.old.items ++ flat_map sample_bytes samples.now) }
{
    for sample in samples {
        bytes.extend_from_slice(&(*sample as i16).to_le_bytes())?;
    }
    Ok(())
}

/// The bytes of all tracks.
fn all_bytes(alloc: Global, block: &Block) -> Result<Vec<u8>, NoMemory>
    requires block { IsTrue (is_block block.now) }
    ensures value { IfOk result (λ bytes. bytes.items ≡ pcm_of block.now all_tracks) }
{
    let mut bytes = Vec::with_capacity(alloc, 2 * TRACKS * SAMPLES)?;
    for track in 0..TRACKS {
        add_samples(&mut bytes, samples_of(block, track))?;
    }
    Ok(bytes)
}

/// The SHA-256 of the bytes of all tracks, in digits.
fn digest_text(alloc: Global, block: &Block) -> Result<String, NoMemory>
    requires block { IsTrue (is_block block.now) }
    ensures value { IfOk result (λ text. string_bytes text
        ≡ encode_lower (sha256 (pcm_of block.now all_tracks))) }
{
    let bytes = all_bytes(alloc, block)?;
    let mut hasher = Sha256::new();
    hasher.update(bytes.as_slice());
    let digest: [u8; 32] = hasher.finalize();
    Ok(hex::encode(alloc, digest.as_slice())?)
}

/// The peaks of all tracks, and the digest of their bytes.
#[tactic(auto, unfolding(crate::specs::BlockText::block_text))]
pub fn block_text(alloc: Global, block: &Block) -> Result<String, NoMemory>
    requires whole { IsTrue (is_block block.now) }
    ensures value { IfOk result (λ text. string_bytes text ≡ block_text block.now) }
{
    let peaks = peaks_text(alloc, block)?;
    let digits = digest_text(alloc, block)?;
    Ok(format!(in alloc; "{peaks} {digits}")?)
}
