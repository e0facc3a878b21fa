//! The commands of the script of a run.

ghost use Rattle.std.specs.Prelude.{map};
ghost use Rattle.std.specs.List.{All};
ghost use Rattle.epic_text.specs.RunScript.{arrive_of, at_of, carry_of, extend_of, fetch_of, originate_of, pass_of, paths_of, reveal_of, roll_of, run_rule, send_of, turn_of};
ghost use Rattle.epic_text.specs.Script.{IsByRule, IsShort};

use crate::script::{FromWords, ScriptKind, WordsError};
use crate::segment_word::read_segments;
use crate::word::{
    read_as, read_bytes, read_holder, read_host, read_level, read_u8, read_u16, read_u32, read_u64,
};
use epic_num::{Command, MAX_MOMENT};
use std::alloc::Global;

/// The word after `at`: a moment.
fn at(arguments: &[&[u8]]) -> Result<Command, WordsError>
    requires { All (λ word. IsShort word.now) arguments.now }
    ensures { IsByRule (at_of (map (λ word. word.now) arguments.now)) result }
{
    match arguments {
        [moment] => Ok(Command::At {
            moment: read_u64(moment, 2, MAX_MOMENT)?,
        }),
        _ => Err(WordsError::Refused(ScriptKind::WordCount)),
    }
}

/// The words after `originate`: an AS, an interface and an expiry.
fn originate(arguments: &[&[u8]]) -> Result<Command, WordsError>
    requires { All (λ word. IsShort word.now) arguments.now }
    ensures { IsByRule (originate_of (map (λ word. word.now) arguments.now)) result }
{
    match arguments {
        [asn, out, exp] => Ok(Command::Originate {
            a: read_as(asn, 2)?,
            out: read_u16(out, 3)?,
            exp: read_u8(exp, 4)?,
        }),
        _ => Err(WordsError::Refused(ScriptKind::WordCount)),
    }
}

/// The words after `extend`: an issue, an interface and an expiry.
fn extend(arguments: &[&[u8]]) -> Result<Command, WordsError>
    requires { All (λ word. IsShort word.now) arguments.now }
    ensures { IsByRule (extend_of (map (λ word. word.now) arguments.now)) result }
{
    match arguments {
        [parent, out, exp] => Ok(Command::Extend {
            parent: read_u32(parent, 2)?,
            out: read_u16(out, 3)?,
            exp: read_u8(exp, 4)?,
        }),
        _ => Err(WordsError::Refused(ScriptKind::WordCount)),
    }
}

/// The words after `fetch`: two ASes and an epoch.
fn fetch(arguments: &[&[u8]]) -> Result<Command, WordsError>
    requires { All (λ word. IsShort word.now) arguments.now }
    ensures { IsByRule (fetch_of (map (λ word. word.now) arguments.now)) result }
{
    match arguments {
        [source, owner, epoch] => Ok(Command::Fetch {
            source: read_as(source, 2)?,
            owner: read_as(owner, 3)?,
            epoch: read_u64(epoch, 4, u64::MAX)?,
        }),
        _ => Err(WordsError::Refused(ScriptKind::WordCount)),
    }
}

/// The words after `paths`: two ASes.
fn paths(arguments: &[&[u8]]) -> Result<Command, WordsError>
    requires { All (λ word. IsShort word.now) arguments.now }
    ensures { IsByRule (paths_of (map (λ word. word.now) arguments.now)) result }
{
    match arguments {
        [from, to] => Ok(Command::Paths {
            from: read_as(from, 2)?,
            to: read_as(to, 3)?,
        }),
        _ => Err(WordsError::Refused(ScriptKind::WordCount)),
    }
}

/// The words after `send`: a level, two hosts, the last issues of the path's segments, and bytes.
fn send(alloc: Global, arguments: &[&[u8]]) -> Result<Command, WordsError>
    requires { All (λ word. IsShort word.now) arguments.now }
    ensures { IsByRule (send_of (map (λ word. word.now) arguments.now)) result }
{
    match arguments {
        [level, src, dst, segments, bytes] => {
            let (version, level) = read_level(level, 2)?;
            Ok(Command::Send {
                version,
                level,
                src: read_host(src, 3)?,
                dst: read_host(dst, 4)?,
                segments: read_segments(alloc, segments, 5)?,
                payload: read_bytes(alloc, bytes, 6)?,
            })
        }
        _ => Err(WordsError::Refused(ScriptKind::WordCount)),
    }
}

/// The words after `turn`: an AS, an interface and bytes.
fn turn(alloc: Global, arguments: &[&[u8]]) -> Result<Command, WordsError>
    requires { All (λ word. IsShort word.now) arguments.now }
    ensures { IsByRule (turn_of (map (λ word. word.now) arguments.now)) result }
{
    match arguments {
        [asn, iface, bytes] => Ok(Command::Turn {
            a: read_as(asn, 2)?,
            iface: read_u16(iface, 3)?,
            bytes: read_bytes(alloc, bytes, 4)?,
        }),
        _ => Err(WordsError::Refused(ScriptKind::WordCount)),
    }
}

/// The words after `arrive`: a host and bytes.
fn arrive(alloc: Global, arguments: &[&[u8]]) -> Result<Command, WordsError>
    requires { All (λ word. IsShort word.now) arguments.now }
    ensures { IsByRule (arrive_of (map (λ word. word.now) arguments.now)) result }
{
    match arguments {
        [host, bytes] => Ok(Command::Arrive {
            host: read_host(host, 2)?,
            bytes: read_bytes(alloc, bytes, 3)?,
        }),
        _ => Err(WordsError::Refused(ScriptKind::WordCount)),
    }
}

/// The word after `pass`: an emission.
fn pass(arguments: &[&[u8]]) -> Result<Command, WordsError>
    requires { All (λ word. IsShort word.now) arguments.now }
    ensures { IsByRule (pass_of (map (λ word. word.now) arguments.now)) result }
{
    match arguments {
        [emission] => Ok(Command::Pass {
            emission: read_u32(emission, 2)?,
        }),
        _ => Err(WordsError::Refused(ScriptKind::WordCount)),
    }
}

/// The word after `carry`: an emission.
fn carry(arguments: &[&[u8]]) -> Result<Command, WordsError>
    requires { All (λ word. IsShort word.now) arguments.now }
    ensures { IsByRule (carry_of (map (λ word. word.now) arguments.now)) result }
{
    match arguments {
        [emission] => Ok(Command::Carry {
            emission: read_u32(emission, 2)?,
        }),
        _ => Err(WordsError::Refused(ScriptKind::WordCount)),
    }
}

/// The word after `reveal`: an AS or a host.
fn reveal(arguments: &[&[u8]]) -> Result<Command, WordsError>
    requires { All (λ word. IsShort word.now) arguments.now }
    ensures { IsByRule (reveal_of (map (λ word. word.now) arguments.now)) result }
{
    match arguments {
        [name] => Ok(Command::Reveal {
            holder: read_holder(name, 2)?,
        }),
        _ => Err(WordsError::Refused(ScriptKind::WordCount)),
    }
}

/// The word after `roll`: an AS.
fn roll(arguments: &[&[u8]]) -> Result<Command, WordsError>
    requires { All (λ word. IsShort word.now) arguments.now }
    ensures { IsByRule (roll_of (map (λ word. word.now) arguments.now)) result }
{
    match arguments {
        [asn] => Ok(Command::Roll {
            a: read_as(asn, 2)?,
        }),
        _ => Err(WordsError::Refused(ScriptKind::WordCount)),
    }
}

impl FromWords for Command {
    ghost rule = { run_rule };

    fn from_words(alloc: Global, verb: &[u8], arguments: &[&[u8]]) -> Result<Command, WordsError> {
        if verb == b"at".as_slice() {
            at(arguments)
        } else if verb == b"originate".as_slice() {
            originate(arguments)
        } else if verb == b"extend".as_slice() {
            extend(arguments)
        } else if verb == b"fetch".as_slice() {
            fetch(arguments)
        } else if verb == b"paths".as_slice() {
            paths(arguments)
        } else if verb == b"send".as_slice() {
            send(alloc, arguments)
        } else if verb == b"turn".as_slice() {
            turn(alloc, arguments)
        } else if verb == b"arrive".as_slice() {
            arrive(alloc, arguments)
        } else if verb == b"pass".as_slice() {
            pass(arguments)
        } else if verb == b"carry".as_slice() {
            carry(arguments)
        } else if verb == b"reveal".as_slice() {
            reveal(arguments)
        } else if verb == b"roll".as_slice() {
            roll(arguments)
        } else {
            Err(WordsError::Refused(ScriptKind::UnknownVerb))
        }
    }
}

#[cfg(test)]
mod tests;
