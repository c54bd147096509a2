//! What was read of a script so far.

ghost use Rattle.std.specs.Prelude.{◌≡◌, ◌<◌, ◌≤◌, [], ◌∷◌, ◌++◌, None, Some, length};
ghost use Rattle.std.specs.Prelude.{option_to_list, IfOk, OnOk, IfSome, IfNone, IsTrue, ◌↔◌};
ghost use Rattle.std.specs.Io.BufRead.{strip_last};
ghost use Rattle.demo.specs.declared.limits.TheConstants.{SECTIONS};
ghost use Rattle.demo.specs.declared.line.Line.{Line};
ghost use Rattle.demo.specs.Script.{begun_with, nothing_read, sections_of, with_line};
ghost use Rattle.demo.specs.Script.{with_message, with_step, IsWork, Says, TextSays};

use crate::limits::SECTIONS;
use crate::line::Line;
use crate::message::message_of;
use crate::section::Section;
use crate::steps::{Script, Step};
use crate::words::{section_begun, step_of};
use app_message::{Message, Messages};
use device_map::request_of;
use hex_lines::{LINE_OCTETS, skips, text_of};
use site_base::{Actor, Event, NoMemory};
use std::alloc::Global;
use std::marker::Model;

/// What was read of a script so far: the calls of its setup, the sections that have ended, and the
/// one to which the next line belongs.
#[derive(Drop)]
pub struct Draft {
    alloc: Global,
    setup: Vec<(Actor, Event)>,
    ended: Vec<Section>,
    current: Option<Section>,
}

impl Model for Draft {
    ghost use Rattle.demo.specs.Script.{DraftFacts};

    ghost Value = { DraftFacts };

    ghost view = { λ d. record {
      setup = d.setup.items;
      ended = d.ended.items;
      current = d.current;
    } };
}

impl Draft {
    /// Returns a draft of which nothing was read yet. It takes no memory.
    pub fn new(alloc: Global) -> Self
        ensures { result ≡ nothing_read }
    {
        Draft {
            alloc,
            setup: Vec::new(alloc),
            ended: Vec::new(alloc),
            current: None,
        }
    }

    /// Returns what a line says; None if it is faulty.
    pub fn line_of(&self, octets: &[u8]) -> Result<Option<Line>, NoMemory>
        ensures found { IfOk result (λ found.
            IfSome found (λ line. Says self.now octets.now line)) }
        ensures other { IfOk result (λ found.
            IfNone found ((line : Line) → ¬ Says self.now octets.now line)) }
    {
        if octets.len() > LINE_OCTETS {
            return Ok(None);
        }
        self.text_says(text_of(octets))
    }

    /// What the text of a line says; None where it is faulty.
    fn text_says(&self, text: &[u8]) -> Result<Option<Line>, NoMemory>
        ensures found { IfOk result (λ found.
            IfSome found (λ line. TextSays self.now text.now line)) }
        ensures other { IfOk result (λ found.
            IfNone found ((line : Line) → ¬ TextSays self.now text.now line)) }
    {
        if skips(text) {
            return Ok(Some(Line::Skipped));
        }
        if let Some(line) = section_begun(text) {
            return if self.has_room() {
                Ok(Some(line))
            } else {
                Ok(None)
            };
        }
        self.work_of(text)
    }

    /// The work that the text says for the open section, or for the setup.
    fn work_of(&self, text: &[u8]) -> Result<Option<Line>, NoMemory>
        ensures found { IfOk result (λ found.
            IfSome found (λ line. IsWork self.now.current text.now line)) }
        ensures other { IfOk result (λ found.
            IfNone found ((line : Line) → ¬ IsWork self.now.current text.now line)) }
    {
        match &self.current {
            None => call_of(self.alloc, text),
            Some(Section::Till(_)) => match message_of(self.alloc, text)? {
                Some(message) => Ok(Some(Line::Message(message))),
                None => Ok(None),
            },
            Some(Section::Dispenser { .. }) => match step_of(text) {
                Some(step) => Ok(Some(Line::Step(step))),
                None => Ok(None),
            },
        }
    }

    /// May one more section begin?
    fn has_room(&self) -> bool
        ensures { IsTrue result ↔ (length (sections_of self.now) < SECTIONS) }
    {
        let open = match &self.current {
            Some(_) => 1,
            None => 0,
        };
        self.ended.len() < SECTIONS - open
    }

    /// Adds what a line says. After `NoMemory` the draft can't be used any more.
    pub fn add(&mut self, line: Line) -> Result<(), NoMemory>
        ensures { OnOk result (self.new ≡ with_line line self.old) }
    {
        match line {
            Line::Skipped => Ok(()),
            Line::Till => self.begin(Section::Till(Messages::new(self.alloc))),
            Line::Dispenser(point, polls) => {
                let script = Script::new(Vec::new(self.alloc));
                self.begin(Section::Dispenser {
                    point,
                    polls,
                    script,
                })
            }
            Line::Call(actor, event) => {
                self.setup.push((actor, event))?;
                Ok(())
            }
            Line::Message(message) => self.add_message(message),
            Line::Step(step) => self.add_step(step),
        }
    }

    /// A section begins, and the one before has ended.
    fn begin(&mut self, section: Section) -> Result<(), NoMemory>
        ensures { OnOk result (self.new ≡ begun_with section self.old) }
    {
        if let Some(before) = self.current.take() {
            self.ended.push(before)?;
        }
        self.current = Some(section);
        Ok(())
    }

    /// A till's section has one message more.
    fn add_message(&mut self, message: Message) -> Result<(), NoMemory>
        ensures { OnOk result (self.new
            ≡ record self.old { current = with_message message self.old.current }) }
    {
        match self.current.take() {
            Some(Section::Till(messages)) => {
                let mut messages = messages.into_vec();
                messages.push(message)?;
                let messages = Messages::from_vec(messages);
                self.current = Some(Section::Till(messages));
            }
            current => self.current = current,
        }
        Ok(())
    }

    /// A dispenser's section has one step more.
    fn add_step(&mut self, step: Step) -> Result<(), NoMemory>
        ensures { OnOk result (self.new
            ≡ record self.old { current = with_step step self.old.current }) }
    {
        if let Some(Section::Dispenser { script, .. }) = &mut self.current {
            script.push(step)?;
        }
        Ok(())
    }

    /// Returns the setup, and all sections.
    pub fn into_parts(self) -> Result<(Vec<(Actor, Event)>, Vec<Section>), NoMemory>
        ensures setup { IfOk result (λ parts. parts.0.items ≡ self.setup) }
        ensures sections { IfOk result (λ parts. parts.1.items ≡ sections_of self) }
    {
        let Draft {
            alloc: _,
            setup,
            ended,
            current,
        } = self;
        let mut sections = ended;
        if let Some(section) = current {
            sections.push(section)?;
        }
        Ok((setup, sections))
    }
}

/// The call of the setup that the text says.
fn call_of(alloc: Global, text: &[u8]) -> Result<Option<Line>, NoMemory>
    ensures found { IfOk result (λ found. IfSome found (λ line. IsWork None text.now line)) }
    ensures other { IfOk result (λ found.
        IfNone found ((line : Line) → ¬ IsWork None text.now line)) }
{
    let Some(message) = message_of(alloc, text)? else {
        return Ok(None);
    };
    match request_of(&message) {
        Ok((actor, event)) => Ok(Some(Line::Call(actor, event))),
        Err(_) => Ok(None),
    }
}
