//! A config from its parts.

ghost use Rattle.std.specs.Prelude.{◌≡◌, false, map, IfSome, IfNone};
ghost use Rattle.mpb_config.specs.ConfigTests.{IsConfigAt, is_config};

use crate::cpus::{Rules, are_ascending, are_right, have_id};
use crate::words::all_are_on;
use mpb_spec::{Config, CpuConfig, DevWord, ENTRY_TO_ALL, MOST_CPUS, MOST_DEVICES, MOST_IO_APICS};

// whether the parts are those of a board; it may have an interrupt mode register or not
fn is_config(
    page: u8,
    boot: u8,
    boot_len: u32,
    cpus: &[CpuConfig],
    ios: &[u8],
    devices: &[Vec<DevWord>],
) -> bool
    ensures { result ≡ is_config page (record { boot = boot; boot_len = boot_len; cpus = cpus.now; ios = ios.now; imcr = false; devices = map (λ words. words.items) devices.now }) }
{
    let rules = Rules {
        boot,
        boot_len,
        ios: ios.len(),
        page,
    };
    !cpus.is_empty()
        && cpus.len() <= MOST_CPUS
        && are_ascending(cpus)
        && have_id(cpus, boot)
        && boot < ENTRY_TO_ALL
        && ios.len() <= MOST_IO_APICS
        && devices.len() <= MOST_DEVICES
        && are_right(cpus, rules)
        && all_are_on(devices, ios.len())
}

/// The config of these parts, whose boot program names this page, where it names one; none exactly where
/// they are no such config. The parts are those of `Config`.
pub fn config_of(
    page: u8,
    boot: u8,
    boot_len: u32,
    cpus: Vec<CpuConfig>,
    ios: Vec<u8>,
    imcr: bool,
    devices: Vec<Vec<DevWord>>,
) -> Option<Config>
    ensures some { IfSome result (λ c. c ≡ record { boot = boot; boot_len = boot_len; cpus = cpus.items; ios = ios.items; imcr = imcr; devices = map (λ words. words.items) devices.items }) }
    ensures is { IfSome result (λ c. IsConfigAt page c) }
    ensures none { IfNone result (¬ IsConfigAt page (record { boot = boot; boot_len = boot_len; cpus = cpus.items; ios = ios.items; imcr = imcr; devices = map (λ words. words.items) devices.items })) }
{
    if !is_config(
        page,
        boot,
        boot_len,
        cpus.as_slice(),
        ios.as_slice(),
        devices.as_slice(),
    ) {
        return None;
    }
    Some(Config {
        boot,
        boot_len,
        cpus,
        ios,
        imcr,
        devices,
    })
}
