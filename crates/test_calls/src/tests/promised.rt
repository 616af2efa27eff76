//! Archives from their first call on: in memory, in a database, one that is opened again, and one that gets another configuration.

use super::checks::{BOX, config_of, same};
use super::databases::{Subject, expect_in_memory};
use book::Keeper;
use promise::{InOrder, drive_configured, drive_created, drive_opened};
use queue::{Arrived, Command, Outcome, drive_anew};
use sqlite::Connection;
use std::alloc::{AllocError, Global};
use std::process::Abort;
use std::test::Fail;

/// The delivery of a file.
fn delivery(alloc: Global) -> Result<Command, AllocError> {
    Ok(Command::Deliver {
        name: String::from_str(alloc, "a.deb")?,
        body: b"abc".to_vec(alloc)?,
        moment: 0,
    })
}

/// The delivery, and a list of the verdicts.
fn commands(alloc: Global) -> Result<Vec<Command>, AllocError> {
    let mut commands = Vec::new(alloc);
    commands.push(delivery(alloc)?)?;
    commands.push(Command::Verdicts)?;
    Ok(commands)
}

/// The answer to the delivery, if both commands have an outcome, and neither is a fault.
fn delivered(outcomes: &[Outcome]) -> Option<Arrived> {
    match outcomes {
        [Outcome::Deliver(Ok(arrived)), Outcome::Verdicts(Ok(_))] => Some(*arrived),
        _ => None,
    }
}

/// Makes the commands over an archive in memory.
fn expect_anew(rt: &impl Abort, alloc: Global, commands: &[Command]) -> Result<(), Fail> {
    let (outcomes, _) = drive_anew(alloc, config_of(alloc, BOX)?, 0, commands)?;
    same(rt, &delivered(&outcomes), &Some(Arrived::New));
    Ok(())
}

/// The suite box, which keeps one more architecture.
const BOX_WITH_ARM64: &[u8] =
    b"Codename: box\nArchitectures: amd64 arm64 source\nComponents: main\n";

/// Makes the commands after another configuration of the archive that a database keeps, in which the file has arrived.
fn expect_configured<S: InOrder + Drop>(
    rt: &impl Abort,
    alloc: Global,
    connection: Connection<S>,
    commands: &[Command],
) -> Result<(), Fail> {
    let config = config_of(alloc, BOX_WITH_ARM64)?;
    let Ok((archive, made)) = drive_configured(alloc, connection, config, 1, commands) else {
        return Err(Fail::from("not opened"));
    };
    let outcomes = made??;
    same(rt, &delivered(&outcomes), &Some(Arrived::Again));
    same(rt, &archive.keeper.config().text(), &BOX_WITH_ARM64);
    Ok(())
}

/// Makes the commands over the archive that a database keeps, in which the file has arrived, and then once more after another
/// configuration.
fn expect_opened<S: InOrder + Drop>(
    rt: &impl Abort,
    alloc: Global,
    connection: Connection<S>,
    commands: &[Command],
) -> Result<(), Fail> {
    let Ok((archive, outcomes)) = drive_opened(alloc, connection, commands) else {
        return Err(Fail::from("not opened"));
    };
    same(rt, &delivered(&outcomes?), &Some(Arrived::Again));
    expect_configured(rt, alloc, archive.into_keeper().into_connection(), commands)
}

/// Makes the commands over an archive in a database without tables, and then once more over the archive that the database keeps.
pub fn expect_created<S: InOrder + Drop>(
    rt: &impl Abort,
    alloc: Global,
    connection: Connection<S>,
) -> Result<(), Fail> {
    let (config, commands) = (config_of(alloc, BOX)?, commands(alloc)?);
    let Ok((archive, outcomes)) = drive_created(alloc, connection, config, 0, &commands) else {
        return Err(Fail::from("not made"));
    };
    same(rt, &delivered(&outcomes?), &Some(Arrived::New));
    expect_opened(
        rt,
        alloc,
        archive.into_keeper().into_connection(),
        &commands,
    )
}

/// These commands have the same outcomes in memory and in a database. When they are repeated nothing is new, also under another
/// configuration.
#[test]
fn commands_follow_the_making_and_the_opening(rt: HostRuntime) -> Result<(), Fail> {
    let alloc = rt.alloc();
    expect_anew(&rt, alloc, &commands(alloc)?)?;
    expect_in_memory(&rt, alloc, Subject::Commands)
}
