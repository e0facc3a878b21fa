//! How the steps of a run are shown.

ghost use Rattle.std.specs.Prelude.{◌≡◌, option_map};
ghost use Rattle.epic_app.specs.Noting.{shows_notes};
ghost use Rattle.epic_words.specs.Answers.{policing_in};

use epic_words::PoliceWords;
use std::marker::Model;

/// What a report says besides of each step.
#[derive(Drop)]
pub struct Showing {
    /// How many commands the script has.
    script: u32,
    /// Whether it is said who can have made the fields of level 1.
    makers: bool,
    /// The settings of the policers, if packets are policed.
    police: Option<PoliceWords>,
}

impl Model for Showing {
    ghost use Rattle.std.specs.Prelude.{option_map};
    ghost use Rattle.epic_words.specs.Answers.{policing_in};
    ghost use Rattle.epic_app.specs.Showing as spec;

    ghost Value = { spec.Showing };

    ghost view = { λ s. record { script = s.script; makers = s.makers; police = option_map policing_in s.police } };
}

impl Showing {
    /// A script of so many commands, shown with makers or without, and policed with these settings.
    pub fn new(script: u32, makers: bool, police: Option<PoliceWords>) -> Showing
        ensures { result ≡ record { script = script; makers = makers; police = option_map policing_in police } }
    {
        Showing {
            script,
            makers,
            police,
        }
    }

    /// How many commands the script has.
    pub fn script(&self) -> u32
        ensures { result ≡ self.now.script }
    {
        self.script
    }

    /// Whether it is said who can have made the fields of level 1.
    pub fn makers(&self) -> bool
        ensures { result ≡ self.now.makers }
    {
        self.makers
    }

    /// Whether more is said than of verdicts.
    pub fn shows_notes(&self) -> bool
        ensures { result ≡ shows_notes self.now }
    {
        self.makers || self.police.is_some()
    }
}
