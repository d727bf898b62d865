//! Rules of the processors.

ghost use Rattle.std.specs.Prelude.{◌≡◌, map, nat_lt};
ghost use Rattle.std.specs.List.{list_all};
ghost use Rattle.mpb_spec.specs.Configs.{boot_ops};
ghost use Rattle.mpb_spec.specs.Numbers.{has};
ghost use Rattle.mpb_config.specs.ConfigTests.{is_ascending, is_cpu_plan};

use crate::ops::{are_aimed, are_at_page, are_boot_ops, are_on, are_script_ops};
use mpb_spec::{CpuConfig, TO_ALL};

/// What the rules of a processor speak of: the boot processor's id, the length of the boot program, how
/// many I/O APICs there are, and the page that the boot program names.
#[derive(Clone, Copy)]
pub struct Rules {
    pub boot: u8,
    pub boot_len: u32,
    pub ios: usize,
    pub page: u8,
}

// how many of its first ops are those of the boot program
fn boot_ops(cpu: &CpuConfig, rules: Rules) -> usize
    ensures { result ≡ boot_ops rules.boot rules.boot_len cpu.now }
{
    if cpu.id == rules.boot {
        rules.boot_len as usize
    } else {
        0
    }
}

// whether it is one of a config
fn is_right(cpu: &CpuConfig, rules: Rules) -> bool
    ensures { result ≡ is_cpu_plan rules.boot rules.boot_len rules.ios rules.page cpu.now }
{
    let program = cpu.program.as_slice();
    let first = boot_ops(cpu, rules);
    if cpu.id == TO_ALL || first > program.len() {
        return false;
    }
    let (starts, goes_on) = program.split_at(first);
    are_boot_ops(starts)
        && are_script_ops(goes_on)
        && are_on(program, rules.ios)
        && are_aimed(program, rules.boot)
        && are_at_page(program, rules.page)
}

/// Whether each is one of a config.
pub fn are_right(cpus: &[CpuConfig], rules: Rules) -> bool
    ensures { result ≡ list_all (is_cpu_plan rules.boot rules.boot_len rules.ios rules.page) cpus.now }
{
    match cpus {
        [] => true,
        [cpu, rest @ ..] => is_right(cpu, rules) && are_right(rest, rules),
    }
}

/// Whether one has this id.
pub fn have_id(cpus: &[CpuConfig], id: u8) -> bool
    ensures { result ≡ has id (map (λ p. p.id) cpus.now) }
{
    match cpus {
        [] => false,
        [cpu, rest @ ..] => cpu.id == id || have_id(rest, id),
    }
}

// whether the ids of all are above this one
fn are_above(cpus: &[CpuConfig], id: u8) -> bool
    ensures { result ≡ list_all (λ y. nat_lt id y) (map (λ p. p.id) cpus.now) }
{
    match cpus {
        [] => true,
        [cpu, rest @ ..] => id < cpu.id && are_above(rest, id),
    }
}

/// Whether their ids are strictly ascending.
pub fn are_ascending(cpus: &[CpuConfig]) -> bool
    ensures { result ≡ is_ascending (map (λ p. p.id) cpus.now) }
{
    match cpus {
        [] => true,
        [cpu, rest @ ..] => are_above(rest, cpu.id) && are_ascending(rest),
    }
}
