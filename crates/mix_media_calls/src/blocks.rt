//! Blocks of sound, track by track.
ghost use Rattle.std.specs.Prelude.{◌<◌, ◌^◌};

use crate::tones::tones;
use mix_audio::mix;
use mix_base::NoMemory;
use mix_tables::{Table, cell};
use std::alloc::Global;
use std::fmt::Write;

/// Samples of a track: 1024 frames of left and right.
const SAMPLES: usize = 2048;

/// Cells: a track's samples in runs `SAMPLExFRAMES`, then the number of the block, the number of the
/// track from 1, and the one or two tones that are heard, with `; ` between them: level, half a
/// period, volume, tracks, offset, and the weight w of n.
pub struct Blocks;

impl Table for Blocks {
    fn found(&self, alloc: Global, line: &str) -> Result<String, NoMemory> {
        let number = cell(line, 1).parse::<u32>().unwrap_or(0);
        let track = cell(line, 2).parse::<usize>().unwrap_or(0);
        let voices = tones(alloc, cell(line, 3))?;
        let block = mix(alloc, &voices, u64::from(number));
        drop(voices);
        let block = block?;
        let found = runs(alloc, track_of(block.tracks.as_slice(), track));
        drop(block);
        found
    }
}

/// The samples of a track, which counts from 1; none where there is no such track.
fn track_of(samples: &[i32], track: usize) -> &[i32] {
    if samples.len() != 6 * SAMPLES || track < 1 || 6 < track {
        return &[];
    }
    &samples[SAMPLES * (track - 1)..SAMPLES * track]
}

/// How many frames from a place on have the sample of the first one, left and right.
fn run_length(samples: &[i32], from: usize) -> usize {
    let Some(first) = samples.get(from) else {
        return 0;
    };
    let mut at = from;
    for sample in &samples[from..] {
        if sample != first {
            break;
        }
        at = at.saturating_add(1);
    }
    at.saturating_sub(from) / 2
}

/// The samples in runs of equal frames.
fn runs(alloc: Global, samples: &[i32]) -> Result<String, NoMemory> {
    let mut found = String::new(alloc);
    let mut from: usize = 0;
    for _ in 0..samples.len() {
        let frames = run_length(samples, from);
        if from >= samples.len() || frames == 0 {
            break;
        }
        if from > 0 {
            found.push_str(" ")?;
        }
        write!(found, "{}x{frames}", samples[from])?;
        from = from.saturating_add(frames.saturating_mul(2));
    }
    if from < samples.len() {
        found.push_str(" and then left and right differ")?;
    }
    Ok(found)
}
