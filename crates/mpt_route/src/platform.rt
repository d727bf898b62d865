//! The platform: what a kernel asks of the tables, the entries by kind.

ghost use Rattle.std.specs.Prelude.{◌≡◌, IfOk, find};
ghost use Rattle.mpt_route.specs.Platform.{platform_of, platform_of_body, is_boot_processor, boot_processor_of, IsSmallPlatform};
ghost use Rattle.mpt_spec.specs.Canonical.{IsWellFormed};
ghost use Rattle.mpt_spec.specs.declared.tables.Body.TheVariants as body;

use crate::by_kind::{gather, no_entries, platform_with};
use crate::defaults::default_platform;
use mpt_base::NoMemory;
use mpt_spec::{Body, Bus, IntEntry, IoApic, Processor, Sequence, Table, Tables};
use std::alloc::{AllocError, Global};

/// The entries of a table or a default configuration by kind, in table order.
#[derive(Drop)]
pub struct Platform {
    /// The processors.
    pub processors: Sequence<Processor>,
    /// The buses.
    pub buses: Sequence<Bus>,
    /// The I/O APICs.
    pub ios: Sequence<IoApic>,
    /// The I/O interrupts.
    pub ints: Sequence<IntEntry>,
    /// The local interrupts.
    pub lints: Sequence<IntEntry>,
    /// Whether there is an IMCR: bit 7 of feature byte 2.
    pub imcr: bool,
    /// The base address of the local APICs.
    pub local_address: u32,
}

/// The platform of tables: the entries of the listed table, or the rows of the default configuration.
/// It takes memory for the lists alone, and fails only where that runs out.
pub fn platform_of(alloc: Global, tables: &Tables) -> Result<Platform, NoMemory>
    requires { IsWellFormed tables.now }
    ensures platform { IfOk result (λ p. p ≡ platform_of tables.now) }
    ensures small { IfOk result (λ p. IsSmallPlatform p) }
{
    let imcr = tables.pointer.features[1] / 128 % 2 == 1;
    match platform_of_body(alloc, &tables.body, imcr) {
        Ok(platform) => Ok(platform),
        Err(_) => Err(NoMemory),
    }
}

fn platform_of_body(alloc: Global, body: &Body, imcr: bool) -> Result<Platform, AllocError>
    ensures { IfOk result (λ p. p ≡ platform_of_body imcr body.now) }
{
    match body {
        Body::Default(number) => default_platform(alloc, *number, imcr),
        Body::Listed(table) => listed_platform(alloc, table, imcr),
    }
}

// the entries of a table by kind
fn listed_platform(alloc: Global, table: &Table, imcr: bool) -> Result<Platform, AllocError>
    ensures { IfOk result (λ p. p ≡ platform_of_body imcr (body.Listed table.now)) }
{
    let mut kinds = no_entries(alloc);
    let Ok(()) = gather(&mut kinds, table.base.as_slice()) else {
        return Err(AllocError);
    };
    Ok(platform_with(kinds, imcr, table.local_address))
}

/// The boot processor: the first processor whose entry has EN and BP (section 4.3.1).
pub fn boot_processor_of(p: &Platform) -> Option<Processor>
    ensures { result ≡ boot_processor_of p.now }
{
    first_boot_processor(p.processors.as_slice())
}

fn first_boot_processor(processors: &[Processor]) -> Option<Processor>
    ensures { result ≡ find is_boot_processor processors.now }
{
    processors.iter().find(|e| e.is_boot_processor()).copied()
}
