//! The script of a demo, and how it is read.

ghost use Rattle.std.specs.Prelude.{◌≡◌, ◌≢◌, ◌≤◌, ◌<◌, ◌∷◌, length, IfOk, IfErr, OnOk};
ghost use Rattle.demo.specs.Lines.{lines_of};
ghost use Rattle.demo.specs.Script.{nothing_read, AreRead, DemoFacts, IsRefused, IsScript};
ghost use Rattle.demo.specs.Reading.{IsFaultyLine, IsReadBy, IsRefusedBy};

use crate::draft::Draft;
use crate::fault::ScriptFault;
use crate::section::Section;
use memchr::memchr;
use site_base::{Actor, Event};
use std::alloc::Global;
use std::marker::Model;

/// The script of a demo: the calls of its setup, and 1 to `SECTIONS` sections.
#[derive(Drop)]
pub struct DemoScript {
    setup: Vec<(Actor, Event)>,
    sections: Vec<Section>,
}

impl Model for DemoScript {
    ghost use Rattle.demo.specs.Script.{DemoFacts};

    ghost Value = { DemoFacts };

    ghost view = { λ d. record { setup = d.setup.items; sections = d.sections.items } };
}

impl DemoScript {
    /// Returns the calls of the setup, in their order.
    pub fn setup(&self) -> &[(Actor, Event)]
        ensures { result.now ≡ self.now.setup }
    {
        &self.setup
    }

    /// Returns the sections, in their order.
    pub fn sections(&self) -> &[Section]
        ensures { result.now ≡ self.now.sections }
    {
        &self.sections
    }
}

/// Reads a text as the script of a demo. `Line` has the number of the first faulty line, counted
/// from 1. If there is neither a faulty line nor a section, it is the number of the last line, 0
/// for an empty text. `NoMemory` if an allocation fails.
pub fn read_script(alloc: Global, text: &[u8]) -> Result<DemoScript, ScriptFault>
    ensures script { IfOk result (λ demo. IsScript text.now demo) }
    ensures one { IfOk result (λ demo.
        (other : DemoFacts) → IsScript text.now other → other ≡ demo) }
    ensures refused { IfErr result (λ fault. IsRefused text.now fault) }
    ensures none { IfErr result (λ fault. fault ≢ ScriptFault.NoMemory
        → (other : DemoFacts) → ¬ IsScript text.now other) }
{
    match read_text(alloc, text) {
        Ok(demo) => Ok(demo),
        Err(fault) => Err(fault),
    }
}

/// Reads a text, and says what was found.
fn read_text(alloc: Global, text: &[u8]) -> Result<DemoScript, ScriptFault>
    ensures script { IfOk result (λ demo. IsScript text.now demo) }
    ensures refused { IfErr result (λ fault. IsRefused text.now fault) }
{
    let mut draft = Draft::new(alloc);
    let lines = read_lines(&mut draft, text)?;
    let (setup, sections) = draft.into_parts()?;
    if sections.is_empty() {
        return Err(ScriptFault::Line(lines));
    }
    Ok(DemoScript { setup, sections })
}

/// Reads all lines, and tells how many there are.
fn read_lines(draft: &mut Draft, text: &[u8]) -> Result<u64, ScriptFault>
    requires { draft.old ≡ nothing_read }
    ensures read { OnOk result (AreRead nothing_read (lines_of text.now) draft.new) }
    ensures number { IfOk result (λ number. number ≡ length (lines_of text.now)) }
    ensures refused { IfErr result (λ fault. IsFaultyLine text.now fault) }
{
    let mut rest = text;
    let mut number = 0;
    while !rest.is_empty() {
        let (line, others) = first_line(rest);
        number += 1;
        match read_line(draft, line, number) {
            Ok(()) => {}
            Err(fault) => return Err(fault),
        }
        rest = others;
    }
    Ok(number)
}

/// Reads the line of this number.
fn read_line(draft: &mut Draft, line: &[u8], number: u64) -> Result<(), ScriptFault>
    ensures read { OnOk result (IsReadBy draft.old line.now draft.new) }
    ensures refused { IfErr result (λ fault. IsRefusedBy draft.old line.now number fault) }
{
    match draft.line_of(line)? {
        Some(said) => {
            draft.add(said)?;
            Ok(())
        }
        None => Err(ScriptFault::Line(number)),
    }
}

/// The first line of a text, without its line feed, and what stands behind it.
fn first_line(text: &[u8]) -> (&[u8], &[u8])
    requires { 0 < length text.now }
    ensures line { lines_of text.now ≡ result.0.now ∷ lines_of result.1.now }
    ensures shorter { length result.1.now < length text.now }
{
    match memchr(b'\n', text) {
        Some(end) => {
            let (line, _) = text.split_at(end);
            let (_, others) = text.split_at(end + 1);
            (line, others)
        }
        None => (text, &[]),
    }
}
