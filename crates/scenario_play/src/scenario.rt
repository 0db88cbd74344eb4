// A file of scenarios, and the lines of each.
use crate::play::play;
use crate::program::Program;
use crate::stage::{Stage, number_of};
use scenario_text::{Block, Names, Report, Trouble};
use std::alloc::Global;
use std::mem;

// A line of a file, and the number of its round, if it stands in rounds.
#[derive(Clone, Copy)]
struct Line<'t> {
    number: u64,
    text: &'t str,
    round: Option<u8>,
}

// A line with the number of its round, as two digits in hex, for each `#`, and with the value for which its scenario is played for each `%`.
fn written_out(alloc: Global, line: Line<'_>, value: Option<u64>) -> Result<String, Trouble> {
    let mut text = String::new(alloc);
    for letter in line.text.chars() {
        match (letter, line.round, value) {
            ('#', Some(round), _) => text.push_str(hex::encode(
                alloc,
                [round].as_slice(),
            )?.as_str())?,
            ('%', _, Some(value)) => text.push_str(format!(in alloc; "{value}")?.as_str())?,
            _ => text.push(letter)?,
        }
    }
    Ok(text)
}

// A scenario that is being played.
#[derive(Drop)]
struct Scene<'p, P> {
    program: &'p P,
    stage: Stage,
    block: Option<Block>,
}

impl<'p, P: Program> Scene<'p, P> {
    fn new(alloc: Global, program: &'p P) -> Self {
        Scene {
            program,
            stage: Stage::new(alloc),
            block: None,
        }
    }

    // Plays the start whose lines are all taken up.
    fn finish(&mut self, report: &mut Report) -> Result<(), Trouble> {
        match mem::replace(&mut self.block, None) {
            Some(mut block) => play(self.program, &mut self.stage, &mut block, report),
            None => Ok(()),
        }
    }

    fn begin(&mut self, line: Line<'_>, words: &str) -> Result<(), Trouble> {
        self.block = Some(Block::new(self.stage.alloc, line.number, words)?);
        Ok(())
    }

    // Two devices or one are made, of 16 blocks of 16,384 bytes each.
    fn make_devices(
        &mut self,
        line: Line<'_>,
        names: &str,
        report: &mut Report,
    ) -> Result<(), Trouble> {
        let alloc = self.stage.alloc;
        let mut count = 0_u64;
        for name in names.split(' ') {
            self.stage.add(name, 266_240)?;
            count = count.saturating_add(1);
        }
        let words = format!(in alloc; "format --block-size 16384 --blocks 16 {names}")?;
        self.begin(line, words.as_str())?;
        let known = Names::new(alloc);
        let written = format!(in alloc; "< formatted {count}")?;
        if let Some(block) = &mut self.block {
            let _is_taken = block.take(alloc, line.number, &known, written.as_str())?;
        }
        self.finish(report)
    }

    // Whether the start whose lines are taken up takes this one.
    fn is_of_block(&mut self, line: Line<'_>, names: &Names) -> Result<bool, Trouble> {
        let alloc = self.stage.alloc;
        match &mut self.block {
            Some(block) => block.take(alloc, line.number, names, line.text),
            None => Ok(false),
        }
    }

    fn take(&mut self, line: Line<'_>, names: &Names, report: &mut Report) -> Result<(), Trouble> {
        if self.is_of_block(line, names)? {
            return Ok(());
        }
        self.finish(report)?;
        if let Some(words) = line.text.strip_prefix("$ ") {
            return self.begin(line, words);
        }
        let (word, rest) = line.text.split_once(' ').unwrap_or((line.text, ""));
        if word == "device" {
            return self.make_devices(line, rest, report);
        }
        let mut written: Vec<u8> = Vec::new(self.stage.alloc);
        names.write_line(rest, &mut written)?;
        match str::from_utf8(&written) {
            Ok(rest) => self.stage.arrange(word, rest),
            Err(_) => Err(Trouble::Line("this isn't text")),
        }
    }
}

// `each DISK CALL NUMBERS`: the scenario is played once for each of these calls, which fails. `each value NUMBERS`: it is played once for each
// of these values.
#[derive(Clone, Copy)]
struct Each<'t> {
    call: &'t str,
    numbers: &'t str,
}

fn each_of(rest: &str) -> Result<Each<'_>, Trouble> {
    if let Some(numbers) = rest.strip_prefix("value ") {
        return Ok(Each {
            call: "value",
            numbers,
        });
    }
    for kind in [" read ", " write ", " sync "] {
        if let Some((_disk, numbers)) = rest.split_once(kind)
            && let Some(call) = rest.strip_suffix(numbers)
        {
            return Ok(Each { call, numbers });
        }
    }
    Err(Trouble::Line("it is each DISK CALL NUMBERS, or each value NUMBERS"))
}

impl Each<'_> {
    fn is_of_values(&self) -> bool {
        self.call == "value"
    }

    // Single numbers, and those from one to another as `A-B`, at most 1,000 of them.
    fn push_numbers(&self, numbers: &mut Vec<u64>) -> Result<(), Trouble> {
        for word in self.numbers.split(' ') {
            let (first, last) = word.split_once('-').unwrap_or((word, word));
            let first = number_of(first)?;
            let last = number_of(last)?.min(first.saturating_add(999));
            for number in first..last.saturating_add(1) {
                numbers.push(number)?;
            }
        }
        Ok(())
    }
}

// Tells why a scenario isn't played beyond a line.
fn tell_trouble(trouble: Trouble, number: u64, report: &mut Report) -> Result<(), Trouble> {
    match trouble {
        Trouble::Memory => Err(Trouble::Memory),
        Trouble::Line(why) => report.tell(number, "", "a line to play", why),
    }
}

// For which call or value a scenario is played.
#[derive(Clone, Copy)]
struct Turn {
    number: u64,
    value: Option<u64>,
}

// Takes up a line of a scenario, where one that begins with `each` is a call that fails, or nothing.
fn take_line<P: Program>(
    scene: &mut Scene<'_, P>,
    alloc: Global,
    line: Line<'_>,
    turn: Turn,
    names: &Names,
    report: &mut Report,
) -> Result<(), Trouble> {
    let mut text = written_out(alloc, line, turn.value)?;
    if let Some(rest) = line.text.strip_prefix("each ") {
        let each = each_of(rest)?;
        if each.is_of_values() {
            return Ok(());
        }
        let (call, number) = (each.call, turn.number);
        text = format!(in alloc; "fail {call}{number}")?;
    }
    let written = Line {
        number: line.number,
        text: text.as_str(),
        round: None,
    };
    scene.take(written, names, report)
}

// Plays the lines of a scenario once.
fn play_lines<P: Program>(
    alloc: Global,
    program: &P,
    lines: &[Line<'_>],
    turn: Turn,
    names: &Names,
    report: &mut Report,
) -> Result<(), Trouble> {
    let mut scene = Scene::new(alloc, program);
    let mut last = 0;
    for line in lines {
        last = line.number;
        if let Err(trouble) = take_line(&mut scene, alloc, *line, turn, names, report) {
            return tell_trouble(trouble, last, report);
        }
    }
    match scene.finish(report) {
        Ok(()) => Ok(()),
        Err(trouble) => tell_trouble(trouble, last, report),
    }
}

// The calls of which each is to fail in turn, or the values, if a line says so.
fn turns_of(alloc: Global, lines: &[Line<'_>]) -> Result<(Vec<u64>, bool), Trouble> {
    let mut numbers = Vec::new(alloc);
    for line in lines {
        if let Some(rest) = line.text.strip_prefix("each ") {
            let each = each_of(rest)?;
            each.push_numbers(&mut numbers)?;
            return Ok((numbers, each.is_of_values()));
        }
    }
    numbers.push(1)?;
    Ok((numbers, false))
}

// Plays a scenario as often as it says.
fn play_scenario<P: Program>(
    alloc: Global,
    program: &P,
    file: &str,
    name: &str,
    lines: &[Line<'_>],
    names: &Names,
    report: &mut Report,
) -> Result<(), Trouble> {
    let (numbers, has_values) = turns_of(alloc, lines)?;
    for number in numbers {
        let value = if has_values { Some(number) } else { None };
        play_lines(alloc, program, lines, Turn { number, value }, names, report)?;
    }
    report.end(file, name)
}

// What is read of a file: the names, and the lines of the scenario that is being read.
#[derive(Drop)]
struct Reader<'t> {
    names: Names,
    title: Option<&'t str>,
    lines: Vec<Line<'t>>,
    rounds: Option<Rounds<'t>>,
}

// Lines that stand in rounds from one number to another, up to the line `end`.
#[derive(Drop)]
struct Rounds<'t> {
    first: u8,
    last: u8,
    lines: Vec<Line<'t>>,
}

impl<'t> Rounds<'t> {
    // `A-B`.
    fn of(alloc: Global, numbers: &str) -> Result<Rounds<'t>, Trouble> {
        if let Some((first, last)) = numbers.split_once('-')
            && let Ok(first) = first.parse::<u8>()
            && let Ok(last) = last.parse::<u8>()
        {
            return Ok(Rounds {
                first,
                last,
                lines: Vec::new(alloc),
            });
        }
        Err(Trouble::Line("it is rounds A-B"))
    }

    fn write(&self, lines: &mut Vec<Line<'t>>) -> Result<(), Trouble> {
        for round in self.first..=self.last {
            for line in &self.lines {
                lines.push(Line {
                    round: Some(round),
                    ..*line
                })?;
            }
        }
        Ok(())
    }
}

impl<'t> Reader<'t> {
    // Takes up a line of a scenario, or of its rounds.
    fn add(&mut self, alloc: Global, line: Line<'t>) -> Result<(), Trouble> {
        if let Some(numbers) = line.text.strip_prefix("rounds ") {
            self.rounds = Some(Rounds::of(alloc, numbers)?);
            return Ok(());
        }
        let Some(mut rounds) = mem::replace(&mut self.rounds, None) else {
            self.lines.push(line)?;
            return Ok(());
        };
        if line.text == "end" {
            return rounds.write(&mut self.lines);
        }
        rounds.lines.push(line)?;
        self.rounds = Some(rounds);
        Ok(())
    }

    fn end_scenario<P: Program>(
        &mut self,
        alloc: Global,
        program: &P,
        file: &str,
        report: &mut Report,
    ) -> Result<(), Trouble> {
        if let Some(title) = self.title {
            play_scenario(
                alloc,
                program,
                file,
                title,
                &self.lines,
                &self.names,
                report,
            )?;
        }
        self.lines.clear();
        Ok(())
    }

    fn take<P: Program>(
        &mut self,
        alloc: Global,
        program: &P,
        file: &str,
        line: Line<'t>,
        report: &mut Report,
    ) -> Result<(), Trouble> {
        if line.text.is_empty() || line.text.starts_with('#') {
            return Ok(());
        }
        if let Some(title) = line.text.strip_prefix("== ") {
            self.end_scenario(alloc, program, file, report)?;
            self.title = Some(title);
            return Ok(());
        }
        if let Some(rest) = line.text.strip_prefix("name ") {
            return self.names.take(rest);
        }
        self.add(alloc, line)
    }
}

/// Plays all scenarios of a file's text.
pub fn play_text<P: Program>(
    alloc: Global,
    program: &P,
    file: &str,
    text: &str,
    report: &mut Report,
) -> Result<(), Trouble> {
    let mut reader = Reader {
        names: Names::new(alloc),
        title: None,
        lines: Vec::new(alloc),
        rounds: None,
    };
    let mut number = 0_u64;
    for text in text.lines() {
        number = number.saturating_add(1);
        let line = Line {
            number,
            text,
            round: None,
        };
        reader.take(alloc, program, file, line, report)?;
    }
    reader.end_scenario(alloc, program, file, report)
}
