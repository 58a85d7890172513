//! Paints a scene so many times, and writes the digest of the picture so many times, so that both can
//! be measured. Words: how many layers, pictures, workers and digests.
#![tactic(auto)]

ghost use Rattle.std.specs.Prelude.{◌<◌, ◌≤◌, IsTrue};
ghost use Rattle.mix_model.specs.Plans.{is_shot};

mod layers;
mod shots;

use mix_base::NoMemory;
use mix_model::{Picture, Shot};
use mix_raster::paint_rows;
use sha2::{Digest, Sha256};
use shots::scene;
use std::alloc::{AllocError, Global};
use std::process::ExitCode;
use std::thread::Threads;
use std::{env, io};

/// The number that a word gives, and 0 where it gives none.
fn number(rt: &HostRuntime, place: usize) -> io::Result<u32> {
    let Some(word) = env::args(rt)?.nth(place) else {
        return Ok(0);
    };
    let number = word.as_str().parse::<u32>().unwrap_or(0);
    drop(word);
    Ok(number)
}

/// Paints a shot on 1920 by 1080 pixels so many times, once at least, and gives the last picture.
fn paint_often<R: Threads + Sync>(
    rt: &R,
    alloc: Global,
    shot: &Shot,
    workers: u32,
    times: u32,
) -> Result<Picture, NoMemory>
    requires shot { IsTrue (is_shot 0 shot.now) }
    requires some { 0 < workers }
    requires few { workers ≤ 16 }
{
    for _ in 1..times {
        drop(paint_rows(rt, alloc, shot, 0, (1920, 1080), workers)?);
    }
    paint_rows(rt, alloc, shot, 0, (1920, 1080), workers)
}

/// Paints the scene of so many layers.
fn paint_scene<R: Threads + Sync>(
    rt: &R,
    alloc: Global,
    layers: u32,
    workers: u32,
    times: u32,
) -> Result<Picture, NoMemory>
    requires layers { layers ≤ 12 }
    requires some { 0 < workers }
    requires few { workers ≤ 16 }
{
    let shot = scene(alloc, layers)?;
    let picture = paint_often(rt, alloc, &shot, workers, times);
    drop(shot);
    picture
}

/// The SHA-256 of the bytes of a picture, in hexadecimal.
fn digest_text(alloc: Global, picture: &Picture) -> Result<String, AllocError> {
    let mut hasher = Sha256::new();
    hasher.update(picture.rgba.as_slice());
    let digest: [u8; 32] = hasher.finalize();
    hex::encode(alloc, digest.as_slice())
}

fn write_digests(rt: &HostRuntime, picture: &Picture, times: u32) -> io::Result<()> {
    for _ in 0..times {
        let text = digest_text(rt.alloc(), picture)?;
        println!(rt; "{text}")?;
        drop(text);
    }
    Ok(())
}

fn main(rt: HostRuntime) -> io::Result<ExitCode> {
    let layers = number(&rt, 1)?.min(12);
    let times = number(&rt, 2)?;
    let workers = number(&rt, 3)?.max(1).min(16);
    let digests = number(&rt, 4)?;
    let Ok(picture) = paint_scene(&rt, rt.alloc(), layers, workers, times) else {
        return Ok(ExitCode::FAILURE);
    };
    let written = write_digests(&rt, &picture, digests);
    drop(picture);
    written?;
    Ok(ExitCode::SUCCESS)
}
