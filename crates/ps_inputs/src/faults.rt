//! What ends a call before its work.
ghost use Rattle.std.specs.Prelude.{◌≡◌, IfOk};
ghost use Rattle.ps_inputs.specs.Input.{cannot_read_line, domain_line, member_line, too_long_line, twice_line};
ghost use Rattle.ps_inputs.specs.Faults.{fault_line, fault_status};

use std::alloc::{AllocError, Global};
use thiserror::Error;

/// What ends a call before its work. No text that is printed rests on what the errors show.
#[derive(Debug, Drop, Error)]
pub enum Fault {
    /// The words aren't in the grammar.
    #[error("the words aren't in the grammar")]
    Usage,
    /// The domain's text is no domain, and these words say why.
    #[error("the text is no domain")]
    NoDomain(Vec<u8>),
    /// The text of this file is no member, and these words say why.
    #[error("a text is no member")]
    NoMember(Vec<u8>, Vec<u8>),
    /// There are more than 64 performers or 16 observers.
    #[error("there are more than 64 performers or 16 observers")]
    Crowd,
    /// A member has this name, which an earlier one has.
    #[error("two members have one name")]
    Twice(Vec<u8>),
    /// A file is longer than 1,048,576 bytes.
    #[error("a file is longer than 1,048,576 bytes")]
    TooLong(Vec<u8>),
    /// A script with its files has more than 10,000 command lines.
    #[error("a script has more than 10,000 command lines")]
    Lines,
    /// A file can't be read.
    #[error("a file can't be read")]
    Unread(Vec<u8>),
}

impl Fault {
    /// The status of the call.
    pub fn status(&self) -> u8
        ensures { result ≡ fault_status self.now }
    {
        match self {
            Fault::Usage => 2,
            Fault::NoDomain(_) => 3,
            Fault::NoMember(..) => 3,
            Fault::Crowd => 3,
            Fault::Twice(_) => 3,
            Fault::TooLong(_) => 3,
            Fault::Lines => 3,
            Fault::Unread(_) => 4,
        }
    }
}

/// The line that says what is at fault.
pub fn fault_line(alloc: Global, fault: &Fault) -> Result<Vec<u8>, AllocError>
    ensures { IfOk result (λ line. line.items ≡ fault_line fault.now) }
{
    match fault {
        Fault::Usage => {
            let line = Vec::from_slice(alloc, b"plansys: usage\n")?;
            Ok(line)
        }
        Fault::NoDomain(cause) => {
            let line = domain_line(alloc, cause.as_slice())?;
            Ok(line)
        }
        Fault::NoMember(file, cause) => {
            let line = member_line(alloc, file.as_slice(), cause.as_slice())?;
            Ok(line)
        }
        Fault::Crowd => {
            let line = Vec::from_slice(alloc, b"plansys: members: Limit\n")?;
            Ok(line)
        }
        Fault::Twice(name) => {
            let line = twice_line(alloc, name.as_slice())?;
            Ok(line)
        }
        Fault::TooLong(file) => {
            let line = too_long_line(alloc, file.as_slice())?;
            Ok(line)
        }
        Fault::Lines => {
            let line = Vec::from_slice(alloc, b"plansys: script: Lines\n")?;
            Ok(line)
        }
        Fault::Unread(file) => {
            let line = cannot_read_line(alloc, file.as_slice())?;
            Ok(line)
        }
    }
}

fn domain_line(alloc: Global, cause: &[u8]) -> Result<Vec<u8>, AllocError>
    ensures { IfOk result (λ line. line.items ≡ domain_line cause.now) }
{
    let mut line = Vec::from_slice(alloc, b"plansys: domain: ")?;
    line.extend_from_slice(cause)?;
    line.push(b'\n')?;
    Ok(line)
}

fn member_line(alloc: Global, file: &[u8], cause: &[u8]) -> Result<Vec<u8>, AllocError>
    ensures { IfOk result (λ line. line.items ≡ member_line file.now cause.now) }
{
    let mut line = Vec::from_slice(alloc, b"plansys: ")?;
    line.extend_from_slice(file)?;
    line.extend_from_slice(b": ")?;
    line.extend_from_slice(cause)?;
    line.push(b'\n')?;
    Ok(line)
}

fn twice_line(alloc: Global, name: &[u8]) -> Result<Vec<u8>, AllocError>
    ensures { IfOk result (λ line. line.items ≡ twice_line name.now) }
{
    let mut line = Vec::from_slice(alloc, b"plansys: members: Twice ")?;
    line.extend_from_slice(name)?;
    line.push(b'\n')?;
    Ok(line)
}

fn too_long_line(alloc: Global, file: &[u8]) -> Result<Vec<u8>, AllocError>
    ensures { IfOk result (λ line. line.items ≡ too_long_line file.now) }
{
    let mut line = Vec::from_slice(alloc, b"plansys: ")?;
    line.extend_from_slice(file)?;
    line.extend_from_slice(b": TooLong\n")?;
    Ok(line)
}

fn cannot_read_line(alloc: Global, file: &[u8]) -> Result<Vec<u8>, AllocError>
    ensures { IfOk result (λ line. line.items ≡ cannot_read_line file.now) }
{
    let mut line = Vec::from_slice(alloc, b"plansys: cannot read ")?;
    line.extend_from_slice(file)?;
    line.push(b'\n')?;
    Ok(line)
}
