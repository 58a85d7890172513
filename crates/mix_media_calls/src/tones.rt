//! Tones that are heard, as a table has them.
ghost use Rattle.std.specs.Prelude.{IsTrue, IfOk, IfSome};
ghost use Rattle.std.specs.List.{list_all};
ghost use Rattle.mix_model.specs.Voices.{is_voice};

use mix_base::{ListOf, NoMemory};
use mix_model::{Settings, Sound, Voice, VoiceList};
use std::alloc::Global;

/// What a tone is made from: level, half a period, volume, tracks, offset, and the weight w of n.
type Given = [i32; 7];

/// The numbers of a text, with spaces between them; what is missing or none is 0.
fn given(text: &str) -> Given {
    let mut numbers = [0; 7];
    for (place, word) in text.split(' ').enumerate() {
        if place < 7 {
            numbers[place] = word.parse::<i32>().unwrap_or(0);
        }
    }
    numbers
}

/// The tone, where all its numbers are in their ranges.
#[tactic(auto, unfolding(mix_model::specs::Voices::is_voice, mix_model::specs::Values::is_sound, mix_model::specs::Values::are_valid))]
fn tone(given: Given) -> Option<Voice>
    ensures { IfSome result (λ voice. IsTrue (is_voice voice)) }
{
    let [level, half, volume, tracks, offset, w, n] = given;
    if level < 0 || 32_767 < level || half < 1 || 48_000 < half {
        return None;
    }
    if volume < 0 || 20_000 < volume || tracks < 0 || 63 < tracks {
        return None;
    }
    if offset < -950 || 20_000 < offset || w < 0 || n < 1 || n < w {
        return None;
    }
    Some(Voice {
        settings: Settings::Tone {
            level: level as u32,
            half: half as u32,
        },
        sound: Sound {
            volume: volume as u32,
            muted: false,
            tracks: tracks as u8,
            offset,
        },
        w: w as u32,
        n: n as u32,
    })
}

/// The tones of a text, one or two with `; ` between them; one that is out of its ranges is left out.
pub fn tones(alloc: Global, text: &str) -> Result<VoiceList, NoMemory>
    ensures { IfOk result (λ voices. IsTrue (list_all is_voice voices)) }
{
    let (first, second) = text.split_once("; ").unwrap_or((text, ""));
    match tone(given(first)) {
        Some(first) => with(alloc, first, second),
        None => Ok(ListOf::from_vec(Vec::new(alloc))),
    }
}

/// A tone, and the one of a text.
fn with(alloc: Global, first: Voice, second: &str) -> Result<VoiceList, NoMemory>
    requires { IsTrue (is_voice first) }
    ensures { IfOk result (λ voices. IsTrue (list_all is_voice voices)) }
{
    match tone(given(second)) {
        Some(second) => two(alloc, first, second),
        None => one(alloc, first),
    }
}

fn one(alloc: Global, voice: Voice) -> Result<VoiceList, NoMemory>
    requires { IsTrue (is_voice voice) }
    ensures { IfOk result (λ voices. IsTrue (list_all is_voice voices)) }
{
    Ok(ListOf::from_vec(vec![in alloc; voice]?))
}

fn two(alloc: Global, first: Voice, second: Voice) -> Result<VoiceList, NoMemory>
    requires first { IsTrue (is_voice first) }
    requires second { IsTrue (is_voice second) }
    ensures { IfOk result (λ voices. IsTrue (list_all is_voice voices)) }
{
    Ok(ListOf::from_vec(vec![in alloc; first, second]?))
}
