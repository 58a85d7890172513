//! What stands in a line at the places of its form.
use mix_base::{ItemId, Serial};

/// What stands in a line at the places of its form: a name, and up to three numbers.
#[derive(Clone, Copy)]
pub struct Given<'a> {
    pub name: &'a str,
    pub numbers: [u32; 3],
    count: usize,
}

impl<'a> Given<'a> {
    pub fn new() -> Given<'a> {
        Given {
            name: "",
            numbers: [0; 3],
            count: 0,
        }
    }

    /// Whether the word is a number that has a place.
    fn take_number(&mut self, word: &str) -> bool {
        let Ok(number) = word.parse::<u32>() else {
            return false;
        };
        if self.count >= 3 {
            return false;
        }
        self.numbers[self.count] = number;
        self.count += 1;
        true
    }

    /// Whether the word may stand where this word of a form does.
    fn take(&mut self, part: &str, word: &'a str) -> bool {
        if part == "#" {
            return self.take_number(word);
        }
        if part == "_" {
            self.name = word;
            return true;
        }
        part == word
    }

    /// A line that has the form.
    pub fn read(form: &str, line: &'a str) -> Option<Given<'a>> {
        let mut given = Given::new();
        let mut words = line.split_whitespace();
        for part in form.split_whitespace() {
            let Some(word) = words.next() else {
                return None;
            };
            if !given.take(part, word) {
                return None;
            }
        }
        if words.next().is_some() {
            return None;
        }
        Some(given)
    }

    /// The source of the first number.
    pub fn source(&self) -> Serial {
        Serial(u64::from(self.numbers[0]))
    }

    /// The source of the second number.
    pub fn second(&self) -> Serial {
        Serial(u64::from(self.numbers[1]))
    }

    /// The item of the first number.
    pub fn item(&self) -> ItemId {
        ItemId(self.numbers[0])
    }

    /// The first number.
    pub fn number(&self) -> u64 {
        u64::from(self.numbers[0])
    }
}
