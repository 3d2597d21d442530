//! What is found in a file, read as a kind.

ghost use Rattle.std.specs.Prelude.{◌≡◌, ◌⊎◌, IfOk, IfErr};
ghost use Rattle.check_lines.specs.Found.{fault_as};
ghost use Rattle.check_lines.specs.Finding.{fault_found};

use history_reading::read_history;
use json_fields::forms::Kind;
use minislots::Checked;
use script_reading::{read_script, read_storm};
use std::alloc::Global;
use text_stream::TextFault;

/// What is found in a file.
#[derive(Clone, Copy)]
pub enum Finding {
    /// No fault, and the configuration.
    Good(Checked),
    /// The first fault.
    Fault(TextFault),
}

// A fault that a text has, and no failed read and no lack of memory.
fn found(fault: TextFault) -> Result<Finding, TextFault>
    ensures ok { IfOk result (λ f. f ≡ Finding.Fault fault) }
    ensures err { IfErr result
        (λ e. (e ≡ fault) × ((e ≡ TextFault.Input) ⊎ (e ≡ TextFault.Memory))) }
    ensures input { fault ≡ TextFault.Input → result ≡ Err fault }
    ensures memory { fault ≡ TextFault.Memory → result ≡ Err fault }
{
    match fault {
        TextFault::Input | TextFault::Memory => Err(fault),
        _ => Ok(Finding::Fault(fault)),
    }
}

fn find_script(alloc: Global, bytes: &[u8]) -> Result<Finding, TextFault>
    ensures ok { IfOk result (λ f. fault_found f ≡ fault_as Kind.Script bytes.now) }
    ensures err { IfErr result (λ e. e ≡ TextFault.Memory) }
{
    let mut reader = bytes;
    match read_script(alloc, &mut reader) {
        Ok((config, _rest)) => Ok(Finding::Good(config)),
        Err(fault) => found(fault),
    }
}

fn find_storm(alloc: Global, bytes: &[u8]) -> Result<Finding, TextFault>
    ensures ok { IfOk result (λ f. fault_found f ≡ fault_as Kind.Storm bytes.now) }
    ensures err { IfErr result (λ e. e ≡ TextFault.Memory) }
{
    let mut reader = bytes;
    match read_storm(alloc, &mut reader) {
        Ok((config, _rest)) => Ok(Finding::Good(config)),
        Err(fault) => found(fault),
    }
}

fn find_history(alloc: Global, bytes: &[u8]) -> Result<Finding, TextFault>
    ensures ok { IfOk result (λ f. fault_found f ≡ fault_as Kind.History bytes.now) }
    ensures err { IfErr result (λ e. e ≡ TextFault.Memory) }
{
    let mut reader = bytes;
    match read_history(alloc, &mut reader) {
        Ok((config, _rest)) => Ok(Finding::Good(config)),
        Err(fault) => found(fault),
    }
}

/// What is found in bytes that are read as a file of this kind, as the command for it reads them.
pub fn find_as(alloc: Global, kind: Kind, bytes: &[u8]) -> Result<Finding, TextFault>
    ensures ok { IfOk result (λ f. fault_found f ≡ fault_as kind bytes.now) }
    ensures err { IfErr result (λ e. e ≡ TextFault.Memory) }
{
    match kind {
        Kind::Script => find_script(alloc, bytes),
        Kind::Storm => find_storm(alloc, bytes),
        Kind::History => find_history(alloc, bytes),
    }
}

impl Finding {
    /// The fault, where one is found.
    pub fn fault(&self) -> Option<TextFault>
        ensures { result ≡ fault_found self.now }
    {
        match self {
            Finding::Fault(fault) => Some(*fault),
            _ => None,
        }
    }
}
