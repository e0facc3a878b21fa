//! The lines of the file of `hop`.

ghost use Rattle.std.specs.Prelude.{◌≡◌, map, Ok};
ghost use Rattle.hex.specs.Hex.{decode_sized};
ghost use Rattle.epic_app.specs.HopFile.{check_of, hop_rule, issue_of, on_bytes};
ghost use Rattle.epic_text.specs.Script.{IsByRule};
ghost use Rattle.epic_app.specs.Spelling.{body_of};

use crate::spelling::body_from_bytes;
use epic_num::Body;
use epic_text::{FromWords, ScriptKind, WordsError};
use hex::FromHex;
use std::alloc::Global;

/// What one AS is asked to do.
#[derive(Clone, Copy, Debug, PartialEq, Eq)]
pub enum HopCommand {
    /// To issue a hop.
    Issue(Body),
    /// To check a hop and its field of level 0.
    Check(Body, [u8; 3]),
}

/// The body that the second word of a line spells in 36 digits.
fn read_body(text: &[u8]) -> Result<Body, WordsError>
    ensures { IsByRule
        (on_bytes 2 (decode_sized text.now 18) (λ bytes. Ok (body_of bytes)))
        result }
{
    match <[u8; 18] as FromHex>::from_hex(text) {
        Ok(bytes) => Ok(body_from_bytes(&bytes)),
        Err(_) => Err(WordsError::Refused(ScriptKind::BadWord { word: 2 })),
    }
}

/// The field that the third word of a line spells in 6 digits.
fn read_field(text: &[u8]) -> Result<[u8; 3], WordsError>
    ensures { IsByRule (on_bytes 3 (decode_sized text.now 3) Ok) result }
{
    match <[u8; 3] as FromHex>::from_hex(text) {
        Ok(field) => Ok(field),
        Err(_) => Err(WordsError::Refused(ScriptKind::BadWord { word: 3 })),
    }
}

/// The words after `issue`: a body.
fn issue(arguments: &[&[u8]]) -> Result<HopCommand, WordsError>
    ensures { IsByRule (issue_of (map (λ word. word.now) arguments.now)) result }
{
    match arguments {
        [body] => Ok(HopCommand::Issue(read_body(body)?)),
        _ => Err(WordsError::Refused(ScriptKind::WordCount)),
    }
}

/// The words after `check`: a body and a field.
fn check(arguments: &[&[u8]]) -> Result<HopCommand, WordsError>
    ensures { IsByRule (check_of (map (λ word. word.now) arguments.now)) result }
{
    match arguments {
        [body, field] => {
            let body = read_body(body)?;
            Ok(HopCommand::Check(body, read_field(field)?))
        }
        _ => Err(WordsError::Refused(ScriptKind::WordCount)),
    }
}

impl FromWords for HopCommand {
    ghost rule = { hop_rule };

    fn from_words(
        _alloc: Global,
        verb: &[u8],
        arguments: &[&[u8]],
    ) -> Result<HopCommand, WordsError> {
        if verb == b"issue".as_slice() {
            issue(arguments)
        } else if verb == b"check".as_slice() {
            check(arguments)
        } else {
            Err(WordsError::Refused(ScriptKind::UnknownVerb))
        }
    }
}
