//! A case: a script with its name.

use demo::{DemoScript, Section, Step, read_script};
use std::alloc::{AllocError, Global};

/// A case of the table: its name, and the text of its script so far.
#[derive(Drop)]
pub struct Case {
    name: String,
    text: Vec<u8>,
    returns: bool,
    cut: bool,
    comment: Option<usize>,
}

impl Case {
    /// Returns the case of this title: a name, and words about its lines.
    pub fn new(alloc: Global, title: &str) -> anyhow::Result<Case> {
        let mut words = title.split(' ');
        let name = String::from_str(alloc, words.next().unwrap_or(""))?;
        let mut case = Case {
            name,
            text: Vec::new(alloc),
            returns: false,
            cut: false,
            comment: None,
        };
        match words.next() {
            Some("cr") => case.returns = true,
            Some("cut") => case.cut = true,
            Some("comment") => case.comment = words.next().unwrap_or("").parse::<usize>().ok(),
            _ => {}
        }
        Ok(case)
    }

    /// Adds a line.
    pub fn add(&mut self, line: &str) -> Result<(), AllocError> {
        self.text.extend_from_slice(line.as_bytes())?;
        if self.returns {
            self.text.push(b'\r')?;
        }
        self.text.push(b'\n')?;
        Ok(())
    }

    /// Returns what its script has, or its fault.
    pub fn summarize(self, alloc: Global) -> Result<String, AllocError> {
        let Case {
            name,
            mut text,
            returns: _,
            cut,
            comment,
        } = self;
        if let Some(octets) = comment {
            for _ in 0..octets {
                text.push(b'#')?;
            }
        }
        if cut {
            let _ = text.pop();
        }
        match read_script(alloc, &text) {
            Ok(demo) => describe(alloc, name.as_str(), &demo),
            Err(fault) => format!(in alloc; "{name}: {fault}"),
        }
    }
}

/// How many calls, sections, messages and steps there are, and each dispenser's steps.
fn describe(alloc: Global, name: &str, demo: &DemoScript) -> Result<String, AllocError> {
    let calls = demo.setup().len();
    let sections = demo.sections().len();
    let mut messages = 0usize;
    let mut steps = 0usize;
    let mut dispensers = String::new(alloc);
    for section in demo.sections() {
        match section {
            Section::Till(input) => messages = messages.saturating_add(input.len()),
            Section::Dispenser {
                point,
                polls,
                script,
            } => {
                steps = steps.saturating_add(script.steps().len());
                write!(&mut dispensers, ", dispenser {} {polls}", point.get())?;
                add_steps(&mut dispensers, script.steps())?;
            }
        }
    }
    let counts = format!(in alloc;
        "{name}: calls {calls} sections {sections} messages {messages} steps {steps}"
    )?;
    format!(in alloc; "{counts}{dispensers}")
}

/// Adds the steps, each as a script has it.
fn add_steps(text: &mut String, steps: &[Step]) -> Result<(), AllocError> {
    for step in steps {
        match step {
            Step::Online => text.push_str(" / online")?,
            Step::Offline => text.push_str(" / offline")?,
            Step::Lift(nozzle) => write!(text, " / lift {}", nozzle.get())?,
            Step::Pump(volume) => write!(text, " / pump {}", volume.get())?,
            Step::HangUp => text.push_str(" / hang")?,
            Step::WaitFor(state) => write!(text, " / wait {}", state.number())?,
        }
    }
    Ok(())
}
