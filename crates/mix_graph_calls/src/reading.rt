//! A line's call, and the words of blend modes.
use crate::forms::{Call, FORMS};
use crate::given::Given;
use mix_model::Blend;

/// The words of the modes in which pixels meet those below.
static BLENDS: [(&str, Blend); 7] = [
    ("normal", Blend::Normal),
    ("additive", Blend::Additive),
    ("subtract", Blend::Subtract),
    ("screen", Blend::Screen),
    ("multiply", Blend::Multiply),
    ("lighten", Blend::Lighten),
    ("darken", Blend::Darken),
];

pub fn blend_of(word: &str) -> Option<Blend> {
    for (known, blend) in &BLENDS {
        if *known == word {
            return Some(*blend);
        }
    }
    None
}

pub fn blend_word(blend: Blend) -> &'static str {
    for (word, known) in &BLENDS {
        if *known == blend {
            return *word;
        }
    }
    ""
}

/// The call of a line, by the first form that it has.
pub fn read(line: &str) -> Option<(Call, Given<'_>)> {
    for (form, call) in &FORMS {
        if let Some(given) = Given::read(*form, line) {
            return Some((*call, given));
        }
    }
    None
}
