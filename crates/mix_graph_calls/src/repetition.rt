//! Lines that are repeated.
use mix_base::NoMemory;
use std::fmt::Write;

/// A line that is repeated, with the first and the last number.
#[derive(Clone, Copy)]
pub struct Repetition<'a> {
    pub first: u32,
    pub last: u32,
    body: &'a str,
}

fn number(word: &str) -> Option<u32> {
    match word.parse::<u32>() {
        Ok(number) => Some(number),
        Err(_) => None,
    }
}

impl<'a> Repetition<'a> {
    /// What stands behind `repeat`, as `1 to 512 scene # = #`.
    pub fn read(text: &'a str) -> Option<Repetition<'a>> {
        let (first, rest) = text.split_once(" to ")?;
        let (last, body) = rest.split_once(" ")?;
        Some(Repetition {
            first: number(first)?,
            last: number(last)?,
            body,
        })
    }

    /// The line of a number: it stands in place of each `#`, and the next one for each `#+1`.
    pub fn fill(&self, line: &mut String, number: u32) -> Result<(), NoMemory> {
        line.clear();
        for word in self.body.split_whitespace() {
            put_word(line, word, number)?;
        }
        Ok(())
    }
}

fn put_word(line: &mut String, word: &str, number: u32) -> Result<(), NoMemory> {
    if !line.is_empty() {
        line.push_str(" ")?;
    }
    if word == "#" {
        write!(line, "{number}")?;
    } else if word == "#+1" {
        let next = number.wrapping_add(1);
        write!(line, "{next}")?;
    } else {
        line.push_str(word)?;
    }
    Ok(())
}
