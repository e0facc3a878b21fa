//! The answers of `hop`.

ghost use Rattle.std.specs.Prelude.{◌≡◌, ◌≤◌, ◌<◌, ◌^◌, length, position};
ghost use Rattle.epic_app.specs.HopReport.{answer_of, is_accept, is_forged, is_issue_of};

use crate::hop_file::HopCommand;
use epic_fields::{authenticator, field0, link_tag};
use epic_num::{Body, same_body};

/// What a line of the file of `hop` is answered.
#[derive(Clone, Copy, Debug, PartialEq, Eq)]
pub enum HopAnswer {
    /// The issued hop's authenticator and link tag.
    Issued([u8; 16], [u8; 8]),
    /// The field is wrong.
    Refused,
    /// The field is right, and the command with this number, counted from 1, is the first issue of
    /// the body.
    Proved(u32),
    /// The field is right, and no earlier command issued the body.
    Forged(Body, [u8; 3]),
}

/// The place of the first issue of `body` among `commands`.
fn first_issue(commands: &[HopCommand], body: &Body) -> Option<usize>
    ensures { result ≡ position (is_issue_of body.now) commands.now }
{
    commands
        .iter()
        .position(|command| is_issue_of(body, command))
}

/// Whether `command` issues `body`.
fn is_issue_of(body: &Body, command: &HopCommand) -> bool
    ensures { result ≡ is_issue_of body.now command.now }
{
    match command {
        HopCommand::Issue(issued) => same_body(issued, body),
        HopCommand::Check(..) => false,
    }
}

/// The answer to `command` after the commands `earlier`, which are fewer than 2^32, under the
/// forwarding key `key`.
pub fn answer(key: &[u8; 16], earlier: &[HopCommand], command: &HopCommand) -> HopAnswer
    requires { length earlier.now < 2 ^ 32 }
    ensures { result ≡ answer_of key.now earlier.now command.now }
{
    match command {
        HopCommand::Issue(body) => HopAnswer::Issued(authenticator(key, body), link_tag(key, body)),
        HopCommand::Check(body, field) => {
            if *field != field0(&authenticator(key, body)) {
                return HopAnswer::Refused;
            }
            match first_issue(earlier, body) {
                Some(place) => HopAnswer::Proved(place as u32 + 1),
                None => HopAnswer::Forged(*body, *field),
            }
        }
    }
}

impl HopAnswer {
    /// Whether the answer is to a check with a right field.
    pub fn is_accept(&self) -> bool
        ensures { result ≡ is_accept self.now }
    {
        matches!(self, HopAnswer::Proved(_) | HopAnswer::Forged(..))
    }

    /// Whether the answer is to a check with a right field of a body that nobody issued.
    pub fn is_forged(&self) -> bool
        ensures { result ≡ is_forged self.now }
    {
        matches!(self, HopAnswer::Forged(..))
    }
}
