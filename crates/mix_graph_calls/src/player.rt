//! Plays scenarios line by line, and reports.
use crate::answer::Answer;
use crate::asking::{count, look, next};
use crate::forms::Call;
use crate::given::Given;
use crate::reading::read;
use crate::repetition::Repetition;
use crate::stage::Stage;
use mix_base::NoMemory;
use std::alloc::Global;
use std::fmt::Write;

/// Plays scenarios, and reports on each: that it went as it is written, or where it first didn't.
#[derive(Drop)]
pub struct Player {
    stage: Stage,
    /// The name of the scenario, empty before the first one.
    name: String,
    /// What the last call answered.
    found: String,
    report: String,
    /// The number of the line in its file.
    line: u64,
    /// Whether the scenario goes on as it is written.
    going: bool,
    /// Whether all did so far.
    good: bool,
}

impl Player {
    pub fn new(alloc: Global) -> Player {
        Player {
            stage: Stage::new(alloc),
            name: String::new(alloc),
            found: String::new(alloc),
            report: String::new(alloc),
            line: 0,
            going: true,
            good: true,
        }
    }

    pub fn report(&self) -> &str {
        self.report.as_str()
    }

    pub fn is_good(&self) -> bool {
        self.good
    }

    /// The scenario fails at this line, and the rest of it isn't played.
    fn fail(&mut self, wanted: &str) -> Result<(), NoMemory> {
        self.going = false;
        self.good = false;
        let line = self.line;
        self.report.push_str(self.name.as_str())?;
        write!(self.report, " line {line}: wanted ")?;
        self.report.push_str(wanted)?;
        self.report.push_str(", found ")?;
        self.report.push_str(self.found.as_str())?;
        self.report.push_str("\n")?;
        Ok(())
    }

    /// The scenario ends.
    fn end(&mut self) -> Result<(), NoMemory> {
        if self.going && !self.name.is_empty() {
            self.report.push_str("ok ")?;
            self.report.push_str(self.name.as_str())?;
            self.report.push_str("\n")?;
        }
        self.name.clear();
        Ok(())
    }

    /// A scenario begins, on a graph without a source.
    fn begin(&mut self, alloc: Global, name: &str) -> Result<(), NoMemory> {
        self.end()?;
        self.stage.restart(alloc);
        self.name.push_str(name)?;
        self.going = true;
        Ok(())
    }

    fn answer(&mut self, alloc: Global, call: Call, given: &Given<'_>) -> Answer {
        match call {
            Call::Make(making) => self.stage.make(making, given),
            Call::Edit(editing) => self.stage.edit(editing, given),
            Call::End(ending) => self.stage.end(ending, given),
            Call::Show(showing) => self.stage.show(showing, given),
            Call::Look(looking) => look(alloc, &self.stage.graph, looking, given),
            Call::Count(counting) => count(&self.stage.graph, counting, given),
            Call::Next(what) => next(&self.stage.graph, what, given),
        }
    }

    /// Makes the call of a text, and compares its answer.
    fn expect(&mut self, alloc: Global, asked: &str, wanted: &str) -> Result<(), NoMemory> {
        let Some((call, given)) = read(asked) else {
            self.found.clear();
            self.found.push_str("no call of this form")?;
            return self.fail(wanted);
        };
        let answer = self.answer(alloc, call, &given);
        answer.write(&mut self.found, &self.stage.graph)?;
        if self.found.as_str() == wanted {
            return Ok(());
        }
        self.fail(wanted)
    }

    /// Makes a call; where no answer is written, it has to be done.
    fn call(&mut self, alloc: Global, text: &str) -> Result<(), NoMemory> {
        if !self.going {
            return Ok(());
        }
        match text.split_once(" = ") {
            Some((asked, wanted)) => self.expect(alloc, asked, wanted.trim()),
            None => self.expect(alloc, text, "done"),
        }
    }

    /// Makes the calls of a line.
    fn calls(&mut self, alloc: Global, line: &str) -> Result<(), NoMemory> {
        for text in line.split(" then ") {
            self.call(alloc, text)?;
        }
        Ok(())
    }

    fn repeat_with(
        &mut self,
        alloc: Global,
        repetition: &Repetition<'_>,
        line: &mut String,
    ) -> Result<(), NoMemory> {
        for number in repetition.first..=repetition.last {
            repetition.fill(line, number)?;
            self.calls(alloc, line.as_str())?;
        }
        Ok(())
    }

    fn repeat(&mut self, alloc: Global, text: &str) -> Result<(), NoMemory> {
        let Some(repetition) = Repetition::read(text) else {
            return self.expect(alloc, text, "done");
        };
        let mut line = String::new(alloc);
        let repeated = self.repeat_with(alloc, &repetition, &mut line);
        drop(line);
        repeated
    }

    /// A line that isn't indented begins a scenario; one that is makes calls, unless it is empty.
    fn step(&mut self, alloc: Global, line: &str) -> Result<(), NoMemory> {
        let text = line.trim();
        if text.is_empty() {
            return Ok(());
        }
        if !line.starts_with(" ") {
            return self.begin(alloc, text);
        }
        match text.strip_prefix("repeat ") {
            Some(repeated) => self.repeat(alloc, repeated),
            None => self.calls(alloc, text),
        }
    }

    /// Plays the scenarios of a text.
    pub fn play(&mut self, alloc: Global, text: &str) -> Result<(), NoMemory> {
        self.line = 0;
        for line in text.lines() {
            self.line = self.line.wrapping_add(1);
            self.step(alloc, line)?;
        }
        self.end()
    }
}
