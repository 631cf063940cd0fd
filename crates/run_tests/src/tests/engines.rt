//! Tests of the engines over memory, where their contracts name the bytes.
ghost use Rattle.std.specs.Prelude.{List, ℕ, [], Option, Some, IfOk};
ghost use Rattle.zk_listings.specs.{declared.listing.Listing.TheVariants.Last, Running.HasListed};
ghost use Rattle.zk_runs.specs.Building.{HasBuilt};

use super::memory::{MemorySink, MemorySource};
use super::samples::{MESSAGES, RECORDING, WHOLE, hex, same};
use std::alloc::Global;
use std::process::Abort;
use std::test::Fail;
use zk_listings::{FromRead, RunFault, Sink, Status, check_run};
use zk_recordings::Damage;
use zk_runs::{Built, Migrated, build_run, migrate_run};
use zk_talk::Limits;

/// Checks the recording `input`.
fn checked(alloc: Global, limits: Limits, input: &[u8]) -> Result<(Status, MemorySink), RunFault>
    ensures { IfOk result (λ r. (after : Option (List ℕ)) × HasListed limits Last (Some input.now) after (Some []) (⟦<MemorySink as Sink>⟧.contents r.1) r.0) }
{
    let mut reader = FromRead::new(input);
    let mut writer = MemorySink::new(alloc);
    match check_run(alloc, limits, &mut reader, &mut writer) {
        Ok(status) => Ok((status, writer)),
        Err(fault) => Err(fault),
    }
}

/// Builds the lines `input`.
fn built(alloc: Global, limits: Limits, input: &[u8]) -> Result<(Built, MemorySink), RunFault>
    ensures { IfOk result (λ r. (after : Option (List ℕ)) × HasBuilt limits (Some input.now) after (Some []) (⟦<MemorySink as Sink>⟧.contents r.1) r.0) }
{
    let mut reader = FromRead::new(input);
    let mut writer = MemorySink::new(alloc);
    match build_run(alloc, limits, &mut reader, &mut writer) {
        Ok(built) => Ok((built, writer)),
        Err(fault) => Err(fault),
    }
}

#[test]
fn slices(rt: HostRuntime) -> Result<(), Fail> {
    let limits = Limits::new(64, 64, 1).ok_or("limits")?;
    let recording = hex(rt.alloc(), RECORDING)?;
    let (built, sink) = built(rt.alloc(), limits, MESSAGES.as_bytes())?;
    let whole = (Built::Whole, recording.as_slice());
    same(&rt, &(built, sink.bytes()), &whole, &"lines");
    let (status, sink) = checked(rt.alloc(), limits, &recording)?;
    let good = (Status::Good, WHOLE.as_bytes());
    same(&rt, &(status, sink.bytes()), &good, &"a recording");
    Ok(())
}

#[test]
fn damage_of_a_slice(rt: HostRuntime) -> Result<(), Fail> {
    let limits = Limits::new(64, 64, 1).ok_or("limits")?;
    let mut reader = MemorySource::new(b"ZKR1X");
    let mut writer = MemorySink::new(rt.alloc());
    let migrated = migrate_run(rt.alloc(), limits, &mut reader, &mut writer);
    let damage = Migrated::Damaged {
        offset: 4,
        reason: Damage::BadSide,
    };
    same(&rt, &migrated, &Ok(damage), &"a side");
    Ok(())
}
