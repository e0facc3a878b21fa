//! The lines of answers.

ghost use Rattle.std.specs.Prelude.{[]};
ghost use Rattle.epic_text.specs.Report.{IsToldAnswer};

use super::*;
use crate::samples::{reads, topology};
use arrayvec::ArrayVec;
use std::test::Fail;

/// Appends the line of an answer to a step that brought no packet.
fn push_answer(
    to: &mut Vec<u8>,
    step: u32,
    topo: &Topology,
    ledger: &Ledger,
    answer: &Answer,
) -> Result<(), Fail>
    requires { IsToldAnswer topo.now ledger.now.history [] answer.now }
{
    print_answer(to, step, topo, ledger, &[], &[], answer)?;
    Ok(())
}

#[test]
fn lines_of_answers(rt: HostRuntime) -> Result<(), Fail> {
    let alloc = rt.alloc();
    let topo = topology(&rt, alloc)?;
    let ledger = Ledger::new(alloc);
    let mut to = Vec::new(alloc);
    push_answer(&mut to, 1, &topo, &ledger, &Answer::Moment)?;
    push_answer(&mut to, 2, &topo, &ledger, &Answer::Fetched)?;
    push_answer(&mut to, 3, &topo, &ledger, &Answer::Known)?;
    push_answer(&mut to, 4, &topo, &ledger, &Answer::Revealed)?;
    let full = Answer::Refused(Refusal::Full);
    push_answer(&mut to, 5, &topo, &ledger, &full)?;
    let lines = "2 fetched\n3 known\n4 revealed\n5 refused full\n";
    reads(&rt, to.as_slice(), lines);
    Ok(())
}

/// The line of a new key of a generation.
fn rolled(alloc: Global, step: u32, generation: u32) -> Result<Vec<u8>, Fail> {
    let mut to = Vec::new(alloc);
    print_rolled(&mut to, step, generation)?;
    Ok(to)
}

#[test]
fn the_line_of_a_new_key(rt: HostRuntime) -> Result<(), Fail> {
    let line = rolled(rt.alloc(), 7, 1)?;
    reads(&rt, line.as_slice(), "7 rolled 1\n");
    Ok(())
}

/// A path over these issues.
fn path(issues: &[u32], hops: u8) -> Result<PathRef, Fail> {
    let issues = ArrayVec::try_from(issues)?;
    Ok(PathRef { issues, hops })
}

/// Appends the lines of paths.
fn push_paths(to: &mut Vec<u8>, step: u32, paths: &PathList) -> Result<(), Fail> {
    print_paths(to, step, paths)?;
    Ok(())
}

/// A path over three segments and one over one.
fn two_paths(alloc: Global) -> Result<PathList, Fail> {
    let mut paths = Vec::new(alloc);
    paths.push(path(&[3, 5, 8], 8)?)?;
    paths.push(path(&[3], 3)?)?;
    Ok(PathList::from_vec(paths))
}

#[test]
fn lines_of_paths(rt: HostRuntime) -> Result<(), Fail> {
    let paths = two_paths(rt.alloc())?;
    let none = PathList::from_vec(Vec::new(rt.alloc()));
    let mut to = Vec::new(rt.alloc());
    push_paths(&mut to, 10, &paths)?;
    push_paths(&mut to, 11, &none)?;
    reads(
        &rt,
        to.as_slice(),
        "10 path 8 3,5,8\n10 path 3 3\n11 none\n",
    );
    Ok(())
}
