//! Scripts: what a simulated dispenser does.

ghost use Rattle.std.specs.Prelude.{◌≡◌, [], ◌∷◌, ◌++◌, OnErr, OnOk};

use site_base::{Millilitres, NoMemory, NozzleNo, PointState};
use std::marker::Model;

/// One step of a script.
#[derive(Clone, Copy, Debug, PartialEq, Eq)]
pub enum Step {
    /// The dispenser reports that it is reached.
    Online,
    /// The dispenser reports that it isn't reached any more.
    Offline,
    /// This nozzle is taken out.
    Lift(NozzleNo),
    /// This much more flows through the last lifted nozzle, as far as the preset allows it.
    Pump(Millilitres),
    /// The last lifted nozzle is put back.
    HangUp,
    /// Nothing happens until the point is seen in this state.
    WaitFor(PointState),
}

/// The steps of a dispenser, in their order.
#[derive(Debug, Drop)]
pub struct Script {
    steps: Vec<Step>,
}

impl Model for Script {
    ghost use Rattle.std.specs.Prelude.{List};
    ghost use Rattle.demo.specs.declared.steps.Step.{Step};

    ghost Value = { List Step };

    ghost view = { λ s. s.steps.items };
}

impl Script {
    /// Returns the script of these steps. It takes no memory.
    pub fn new(steps: Vec<Step>) -> Self
        ensures { result ≡ steps.items }
    {
        Script { steps }
    }

    /// Adds a step at the end.
    pub fn push(&mut self, step: Step) -> Result<(), NoMemory>
        ensures steps { OnOk result (self.new ≡ self.old ++ step ∷ []) }
        ensures err { OnErr result (self.new ≡ self.old) }
    {
        self.steps.push(step)?;
        Ok(())
    }

    /// Returns its steps.
    pub fn steps(&self) -> &[Step]
        ensures { result.now ≡ self.now }
    {
        &self.steps
    }

    /// Gives the steps back. It takes no memory.
    pub fn into_steps(self) -> Vec<Step>
        ensures { result.items ≡ self }
    {
        self.steps
    }
}
