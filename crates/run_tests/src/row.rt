//! A row, read line by line.

use pl_term::Memory;
use std::alloc::Global;

/// The words of a command without options, before the goal.
const PLAIN: &str = "run --atoms 2048 f.pl";

/// A run with what is to come of it.
#[derive(Drop)]
pub struct Row<'a> {
    alloc: Global,
    /// The text of the file f.pl, and bytes after it.
    pub file: Option<String>,
    pub bytes: Vec<u8>,
    /// The text of the file of the row before.
    last_file: Option<String>,
    /// The words of the command with a blank between, and the goals, each of which is one more word.
    pub words: &'a str,
    pub goals: Vec<String>,
    /// The call of `read` that fails, if one does.
    pub failing_read: Option<u64>,
    /// How many bytes a call of `write` takes at most where the row is run with each write failing in turn too.
    pub failing_writes: Option<usize>,
    /// The calls of the gate, and those that are not for engine 1, as two numbers.
    pub visits: Option<(u64, u64)>,
    /// The engines that the report has.
    pub engines: Option<u64>,
    /// Whether engines 2 and 3 are to meet at the gate.
    pub meets: bool,
    /// What is written.
    pub wanted: String,
    /// The exit status, which the last line of a row has.
    pub status: Option<u8>,
    /// Whether a line of the row was read.
    has_begun: bool,
}

impl<'a> Row<'a> {
    /// A row of which no line was read.
    pub fn new(alloc: Global) -> Row<'a> {
        Row {
            alloc,
            file: None,
            bytes: Vec::new(alloc),
            last_file: None,
            words: PLAIN,
            goals: Vec::new(alloc),
            failing_read: None,
            failing_writes: None,
            visits: None,
            engines: None,
            meets: false,
            wanted: String::new(alloc),
            status: None,
            has_begun: false,
        }
    }

    /// Takes the next row up.
    pub fn begin_next(&mut self) {
        let last_file = self.file.take();
        *self = Row::new(self.alloc);
        self.last_file = last_file;
    }

    /// Whether no line of the row was read.
    pub fn is_new(&self) -> bool {
        !self.has_begun
    }

    /// Whether all lines of the row were read.
    pub fn is_whole(&self) -> bool {
        self.status.is_some()
    }

    /// Takes a line, and answers whether it is one of a row, a comment or an empty one. The only error is out of memory.
    pub fn take_line(&mut self, line: &'a str) -> Result<bool, Memory> {
        if line.is_empty() || line.starts_with('#') {
            return Ok(true);
        }
        self.has_begun = true;
        let (key, rest) = line.split_once(' ').unwrap_or((line, ""));
        match key {
            "file:" => put_line(self.alloc, &mut self.file, rest)?,
            "file*" => return put_repeated(self.file.get_or_insert(String::new(self.alloc)), rest),
            "bytes:" => return put_bytes(&mut self.bytes, rest),
            "goal:" => self.put_goal(rest)?,
            "and-goal:" => self.begin_goal(rest)?,
            ">" => {
                put_text(&mut self.wanted, rest)?;
                self.wanted.push('\n')?;
            }
            ">*" => return put_repeated(&mut self.wanted, rest),
            _ => return Ok(self.take_setting(key, rest)),
        }
        Ok(true)
    }

    /// Adds a line to the last goal, or begins the first one with it. The only error is out of memory.
    fn put_goal(&mut self, line: &str) -> Result<(), Memory> {
        match self.goals.last_mut() {
            Some(goal) => {
                goal.push('\n')?;
                put_text(goal, line)
            }
            None => self.begin_goal(line),
        }
    }

    /// Begins one more goal with a line. The only error is out of memory.
    fn begin_goal(&mut self, line: &str) -> Result<(), Memory> {
        let mut goal = String::new(self.alloc);
        put_text(&mut goal, line)?;
        self.goals.push(goal)?;
        Ok(())
    }

    /// Takes a line that sets something, and answers whether it is one.
    fn take_setting(&mut self, key: &str, rest: &'a str) -> bool {
        match key {
            "file-as-before" => {
                self.file = self.last_file.take();
                self.file.is_some()
            }
            "engines-meet" => {
                self.meets = true;
                true
            }
            "words:" => {
                self.words = rest;
                true
            }
            "read-fails:" => {
                self.failing_read = rest.parse::<u64>().ok();
                self.failing_read.is_some()
            }
            "writes-fail:" => {
                self.failing_writes = rest.parse::<usize>().ok();
                self.failing_writes.is_some()
            }
            "visits:" => {
                self.visits = pair_of(rest);
                self.visits.is_some()
            }
            "engines:" => {
                self.engines = rest.parse::<u64>().ok();
                self.engines.is_some()
            }
            "status:" => {
                self.status = rest.parse::<u8>().ok();
                self.status.is_some()
            }
            _ => false,
        }
    }
}

/// The two numbers that a text has, with a blank between.
fn pair_of(text: &str) -> Option<(u64, u64)> {
    let (first, second) = text.split_once(' ')?;
    match (first.parse::<u64>(), second.parse::<u64>()) {
        (Ok(first), Ok(second)) => Some((first, second)),
        _ => None,
    }
}

/// Adds a text, in which `␣` stands for a blank.
fn put_text(all: &mut String, text: &str) -> Result<(), Memory> {
    for c in text.chars() {
        all.push(if c == '␣' { ' ' } else { c })?;
    }
    Ok(())
}

/// Adds a line, after a newline where it is not the first.
fn put_line(alloc: Global, all: &mut Option<String>, line: &str) -> Result<(), Memory> {
    match all {
        Some(lines) => {
            lines.push('\n')?;
            put_text(lines, line)
        }
        None => {
            let mut first = String::new(alloc);
            put_text(&mut first, line)?;
            *all = Some(first);
            Ok(())
        }
    }
}

/// Adds a text so many times, as a number and a text say, and answers whether there is such a number.
fn put_repeated(all: &mut String, repeated: &str) -> Result<bool, Memory> {
    let (count, text) = repeated.split_once(' ').unwrap_or((repeated, ""));
    let Ok(times) = count.parse::<u32>() else {
        return Ok(false);
    };
    for _ in 0..times {
        put_text(all, text)?;
    }
    Ok(true)
}

/// Adds the bytes with these numbers in hexadecimal, and answers whether they are such numbers.
fn put_bytes(all: &mut Vec<u8>, numbers: &str) -> Result<bool, Memory> {
    for number in numbers.split(' ') {
        let Ok(byte) = u8::from_str_radix(number, 16) else {
            return Ok(false);
        };
        all.push(byte)?;
    }
    Ok(true)
}
