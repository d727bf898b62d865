//! What the tables give each form: a status and a text.

ghost use Rattle.std.specs.Prelude.{◌≡◌, ◌≤◌, ◌<◌, ◌^◌, length, IfOk};
ghost use Rattle.mpt_base.specs.Bytes.{IsByteList};
ghost use Rattle.mpt_spec.specs.Canonical.{IsWellFormed, FitsInImage};
ghost use Rattle.mpt_route.specs.Platform.{IsSmallPlatform};
ghost use Rattle.mpt_route.specs.Routes.{routes_of};
ghost use Rattle.mpt_answers.specs.RouteLines.{routes_text};
ghost use Rattle.mpf_madt.specs.Table.{IsMadt};
ghost use Rattle.mpf_madt.specs.Lawful.{IsLawfulMadt};
ghost use Rattle.mpf_pir.specs.Layout.{IsPir};
ghost use Rattle.mptab_walk.specs.Made.{IsMadtOf, IsPirOf};
ghost use Rattle.mptab_walk.specs.Commands.{IsShown, IsAudited, IsMadeCanonical, IsRaised, IsMadtMade, IsPirMade, IsBuilt, IsRouted, IsAnswerTo, IsReadyFor};

use crate::refusals::{many_processors, unfit, unmade_pir};
use crate::status::{DONE, FINDINGS};
use crate::words::TablesCommand;
use mpf_madt::{Madt, TranslateFault, translate, write_madt};
use mpf_pir::{Pir, make, write_pir};
use mpt_answers::{print_findings, print_routes};
use mpt_audit::audit;
use mpt_base::NoMemory;
use mpt_listing::print;
use mpt_route::{Platform, platform_of, routes};
use mpt_table::Tables;
use mpt_write::{block_bytes, canon, fits, raise, write_image};
use std::alloc::Global;

/// A status and the text that goes with it.
#[derive(Drop)]
pub struct Answer {
    pub status: u8,
    pub text: Vec<u8>,
}

/// Status and text that the tables give the form.
pub(crate) fn answer_to(
    alloc: Global,
    command: TablesCommand,
    tables: Tables,
) -> Result<Answer, NoMemory>
    requires well_formed { IsWellFormed tables }
    requires low { tables.at < 2 ^ 32 }
    requires ready { IsReadyFor command tables }
    ensures { IfOk result (λ answer. IsAnswerTo command.entry tables answer.status answer.text.items) }
{
    match command {
        TablesCommand::Show(_) => shown(alloc, &tables),
        TablesCommand::Audit(_) => audited(alloc, &tables),
        TablesCommand::Canon(_) => canonical(alloc, tables),
        TablesCommand::Raise(_) => raised(alloc, tables),
        TablesCommand::Madt(_, elcr) => madt_made(alloc, &tables, elcr),
        TablesCommand::Pirmake(_) => pir_made(alloc, &tables),
        TablesCommand::Build(_) => built(alloc, &tables),
        TablesCommand::Route(_, elcr) => routed(alloc, &tables, elcr),
    }
}

// the listing
fn shown(alloc: Global, tables: &Tables) -> Result<Answer, NoMemory>
    ensures { IfOk result (λ answer. IsShown tables.now answer.status answer.text.items) }
{
    match print(alloc, tables) {
        Ok(text) => Ok(Answer { status: DONE, text }),
        Err(error) => Err(error),
    }
}

// the findings, and 1 where there is one
fn audited(alloc: Global, tables: &Tables) -> Result<Answer, NoMemory>
    requires { IsWellFormed tables.now }
    ensures { IfOk result (λ answer. IsAudited tables.now answer.status answer.text.items) }
{
    let Ok(findings) = audit(alloc, tables) else {
        return Err(NoMemory);
    };
    match print_findings(alloc, findings.as_slice()) {
        Ok(text) => {
            let status = if findings.is_empty() { DONE } else { FINDINGS };
            Ok(Answer { status, text })
        }
        Err(error) => Err(error),
    }
}

// the image of the canonical form, or how many bytes don't fit
fn canonical(alloc: Global, tables: Tables) -> Result<Answer, NoMemory>
    requires { IsWellFormed tables }
    ensures { IfOk result (λ answer. IsMadeCanonical tables answer.status answer.text.items) }
{
    if fits(&tables) {
        match canon(alloc, tables) {
            Ok(canonical) => built(alloc, &canonical),
            Err(error) => Err(error),
        }
    } else {
        unfit(alloc, block_bytes(&tables))
    }
}

// the image of the raised tables, or how many bytes don't fit
fn raised(alloc: Global, tables: Tables) -> Result<Answer, NoMemory>
    requires { IsWellFormed tables }
    ensures { IfOk result (λ answer. IsRaised tables answer.status answer.text.items) }
{
    if fits(&tables) {
        let mut raised = tables;
        raise(&mut raised);
        built(alloc, &raised)
    } else {
        unfit(alloc, block_bytes(&tables))
    }
}

// the image
fn built(alloc: Global, tables: &Tables) -> Result<Answer, NoMemory>
    requires { FitsInImage tables.now }
    ensures { IfOk result (λ answer. IsBuilt tables.now answer.status answer.text.items) }
{
    match write_image(alloc, tables) {
        Ok(text) => Ok(Answer { status: DONE, text }),
        Err(error) => Err(error),
    }
}

// the routes
fn routed(alloc: Global, tables: &Tables, elcr: u16) -> Result<Answer, NoMemory>
    requires { IsWellFormed tables.now }
    ensures { IfOk result (λ answer. IsRouted elcr tables.now answer.status answer.text.items) }
{
    match platform_of(alloc, tables) {
        Ok(platform) => routed_on(alloc, &platform, elcr),
        Err(error) => Err(error),
    }
}

// the routes of a platform
fn routed_on(alloc: Global, platform: &Platform, elcr: u16) -> Result<Answer, NoMemory>
    requires { IsSmallPlatform platform.now }
    ensures { IfOk result (λ answer. (answer.status ≡ 0) × (answer.text.items ≡ routes_text (routes_of platform.now elcr))) }
{
    let Ok(answers) = routes(alloc, platform, elcr) else {
        return Err(NoMemory);
    };
    match print_routes(alloc, answers.as_slice()) {
        Ok(text) => Ok(Answer { status: DONE, text }),
        Err(error) => Err(error),
    }
}

// each member of a list of bytes is one
fn are_bytes(bytes: &[u8])
    ensures { IsByteList bytes.now }
{
    let _bytes = bytes;
}

// the MADT, or how many processors are too many
fn madt_made(alloc: Global, tables: &Tables, elcr: u16) -> Result<Answer, NoMemory>
    requires { IsWellFormed tables.now }
    ensures { IfOk result (λ answer. IsMadtMade elcr tables.now answer.status answer.text.items) }
{
    match platform_of(alloc, tables) {
        Ok(platform) => madt_on(alloc, &platform, elcr),
        Err(error) => Err(error),
    }
}

// the MADT of a platform and its routes, or how many processors are too many
fn madt_on(alloc: Global, platform: &Platform, elcr: u16) -> Result<Answer, NoMemory>
    requires { IsSmallPlatform platform.now }
    ensures { IfOk result (λ answer. IsMadtOf platform.now (routes_of platform.now elcr) answer.status answer.text.items) }
{
    let Ok(answers) = routes(alloc, platform, elcr) else {
        return Err(NoMemory);
    };
    match translate(alloc, platform, answers.as_slice()) {
        Ok(madt) => madt_written(alloc, &madt),
        Err(TranslateFault::ManyProcessors { n }) => many_processors(alloc, n),
        Err(TranslateFault::NoMemory) => Err(NoMemory),
    }
}

// the bytes of a MADT
fn madt_written(alloc: Global, madt: &Madt) -> Result<Answer, NoMemory>
    requires { IsLawfulMadt madt.now }
    ensures { IfOk result (λ answer. (answer.status ≡ 0) × IsByteList answer.text.items × IsMadt madt.now answer.text.items) }
{
    match write_madt(alloc, madt) {
        Ok(text) => {
            are_bytes(text.as_slice());
            Ok(Answer { status: DONE, text })
        }
        Err(error) => Err(error),
    }
}

// the PCI IRQ routing table, or how many slots or links are too many
fn pir_made(alloc: Global, tables: &Tables) -> Result<Answer, NoMemory>
    requires { IsWellFormed tables.now }
    ensures { IfOk result (λ answer. IsPirMade tables.now answer.status answer.text.items) }
{
    match platform_of(alloc, tables) {
        Ok(platform) => pir_on(alloc, &platform),
        Err(error) => Err(error),
    }
}

// that of a platform, or how many slots or links are too many
fn pir_on(alloc: Global, platform: &Platform) -> Result<Answer, NoMemory>
    requires { IsSmallPlatform platform.now }
    ensures { IfOk result (λ answer. IsPirOf platform.now answer.status answer.text.items) }
{
    match make(alloc, platform) {
        Ok(pir) => pir_written(alloc, &pir),
        Err(fault) => unmade_pir(alloc, fault),
    }
}

// the bytes of a PCI IRQ routing table
fn pir_written(alloc: Global, pir: &Pir) -> Result<Answer, NoMemory>
    requires { length pir.now.slots ≤ 4093 }
    ensures { IfOk result (λ answer. (answer.status ≡ 0) × IsByteList answer.text.items × IsPir pir.now answer.text.items) }
{
    match write_pir(alloc, pir) {
        Ok(text) => {
            are_bytes(text.as_slice());
            Ok(Answer { status: DONE, text })
        }
        Err(error) => Err(error),
    }
}
