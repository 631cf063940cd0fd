//! Numbers with names, `-101/NONODE`: errors and types of events, read and written.
ghost use Rattle.std.specs.Prelude.{◌≡◌, ◌++◌, Some, None, OnOk, option_copied};
ghost use Rattle.std.specs.Fmt.{signed_decimal};
ghost use Rattle.zk_items.specs.{Form.Gives, Form.Keeps, Form.Passes, Codes.name_at, Codes.name_spell};
ghost use Rattle.zk_items.specs.Codes as codes;
ghost use Rattle.zk_items.specs.Leaf.{int};

use crate::fault::{LineFault, LineReason};
use crate::reader::Reader;
use crate::write::put_int;
use std::alloc::AllocError;
use zk_records::{code_name, event_name};

#[tactic(auto, unfolding(crate::specs::Codes::error_name))]
fn error_name(number: i32) -> Option<&'static str>
    ensures { option_copied result ≡ codes.error_name number }
{
    code_name(number)
}

#[tactic(auto, unfolding(crate::specs::Codes::type_name))]
fn type_name(number: i32) -> Option<&'static str>
    ensures { option_copied result ≡ codes.type_name number }
{
    event_name(number)
}

/// Passes `/` and `name`; else returns `fault`.
#[tactic(auto, unfolding(crate::specs::Codes::name_at))]
fn read_some_name(line: &mut Reader<'_>, name: &str, fault: LineFault) -> Result<(), LineFault>
    ensures { Passes result line.new (name_at (Some name.now) line.old) }
{
    if !line.passes(b"/") {
        return Err(fault);
    }
    if !line.passes(name.as_bytes()) {
        return Err(fault);
    }
    Ok(())
}

/// Returns `fault` if a name follows.
#[tactic(auto, unfolding(crate::specs::Codes::name_at))]
fn read_no_name(line: &Reader<'_>, fault: LineFault) -> Result<(), LineFault>
    ensures { Passes result line.now (name_at None line.now) }
{
    if line.is_next(b'/') {
        Err(fault)
    } else {
        Ok(())
    }
}

/// Passes what follows a number: `/` and its name `name`, if it has one; else returns `fault`.
fn read_name(line: &mut Reader<'_>, name: Option<&str>, fault: LineFault) -> Result<(), LineFault>
    ensures { Passes result line.new (name_at (option_copied name.entry) line.old) }
{
    match name {
        Some(name) => read_some_name(line, name, fault),
        None => read_no_name(line, fault),
    }
}

/// Reads the number of an error, and its name.
pub fn read_error_code(line: &mut Reader<'_>) -> Result<i32, LineFault>
    ensures { Gives result line.new (codes.error_code.at line.old) }
{
    let fault = line.fault(LineReason::Name);
    let number = line.int()?;
    read_name(line, error_name(number), fault)?;
    Ok(number)
}

fn is_zero(number: i32) -> bool
    ensures { result ≡ codes.is_zero number }
{
    number == 0
}

/// Reads the number of an error, which isn't 0, and its name.
pub fn read_failure_code(line: &mut Reader<'_>) -> Result<i32, LineFault>
    ensures { Gives result line.new (codes.failure_code.at line.old) }
{
    let no_number = line.fault(LineReason::Number);
    let no_name = line.fault(LineReason::Name);
    let number = line.int()?;
    if is_zero(number) {
        return Err(no_number);
    }
    read_name(line, error_name(number), no_name)?;
    Ok(number)
}

/// Reads the number of a type of event, and its name.
pub fn read_event_code(line: &mut Reader<'_>) -> Result<i32, LineFault>
    ensures { Gives result line.new (codes.event_code.at line.old) }
{
    let fault = line.fault(LineReason::Name);
    let number = line.int()?;
    read_name(line, type_name(number), fault)?;
    Ok(number)
}

fn put_name(out: &mut Vec<u8>, name: Option<&str>) -> Result<(), AllocError>
    ensures spelled { OnOk result (out.new.items ≡ out.old.items ++ name_spell (option_copied name.entry)) }
    ensures keeps { Keeps out.old.items out.new.items }
{
    let Some(name) = name else {
        return Ok(());
    };
    out.extend_from_slice(b"/")?;
    out.extend_from_slice(name.as_bytes())
}

/// Appends `number`, and `/` and its name `name` if it has one.
#[tactic(auto, using(crate::proofs::Kept::then_spelled))]
fn put_code(out: &mut Vec<u8>, number: i32, name: Option<&str>) -> Result<(), AllocError>
    ensures spelled { OnOk result (out.new.items ≡ out.old.items ++ (signed_decimal number ++ name_spell (option_copied name.entry))) }
    ensures fits { OnOk result (int.fits number) }
    ensures keeps { Keeps out.old.items out.new.items }
{
    put_int(out, number)?;
    put_name(out, name)
}

/// Appends the number of an error, and `/` and its name if it has one.
pub fn put_error_code(out: &mut Vec<u8>, number: i32) -> Result<(), AllocError>
    ensures spelled { OnOk result (out.new.items ≡ out.old.items ++ codes.error_code.spell number) }
    ensures fits { OnOk result (codes.error_code.fits number) }
    ensures keeps { Keeps out.old.items out.new.items }
{
    put_code(out, number, error_name(number))
}

/// Appends the number of a type of event, and `/` and its name if it has one.
pub fn put_event_code(out: &mut Vec<u8>, number: i32) -> Result<(), AllocError>
    ensures spelled { OnOk result (out.new.items ≡ out.old.items ++ codes.event_code.spell number) }
    ensures fits { OnOk result (codes.event_code.fits number) }
    ensures keeps { Keeps out.old.items out.new.items }
{
    put_code(out, number, type_name(number))
}
