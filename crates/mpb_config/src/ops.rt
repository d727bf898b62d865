//! Rules of the ops of a program.

ghost use Rattle.std.specs.Prelude.{◌≡◌};
ghost use Rattle.std.specs.List.{list_all};
ghost use Rattle.mpb_spec.specs.Configs.{is_boot_op, is_script_op};
ghost use Rattle.mpb_config.specs.ConfigTests.{is_op_on, is_other, is_aimed, is_at_page};

use mpb_spec::{CLUSTER, FLAT, LONGEST_PAUSE, Op, TO_ALL};

fn is_boot_op(op: Op) -> bool
    ensures { result ≡ is_boot_op op }
{
    match op {
        Op::Imcr => true,
        Op::Warm(_) => true,
        Op::Init(_) => true,
        Op::Startup(..) => true,
        Op::Check(_) => true,
        Op::Pause(_) => true,
        Op::IoSel(..) => true,
        Op::IoWin(..) => true,
        _ => false,
    }
}

fn is_script_op(op: Op) -> bool
    ensures { result ≡ is_script_op op }
{
    match op {
        Op::Ipi(..) => true,
        Op::Ipl(..) => true,
        Op::Nmi(_) => true,
        Op::Take => true,
        Op::Poll => true,
        Op::Eoi => true,
        Op::Tpr(_) => true,
        Op::Ldr(_) => true,
        Op::Dfr(model) => model == CLUSTER || model == FLAT,
        Op::IoSel(..) => true,
        Op::IoWin(..) => true,
        Op::IoRead(_) => true,
        Op::Pause(us) => us <= LONGEST_PAUSE,
        _ => false,
    }
}

fn is_on(op: Op, ios: usize) -> bool
    ensures { result ≡ is_op_on ios op }
{
    match op {
        Op::IoSel(at, _) => usize::from(at) < ios,
        Op::IoWin(at, _) => usize::from(at) < ios,
        Op::IoRead(at) => usize::from(at) < ios,
        _ => true,
    }
}

fn is_other(boot: u8, id: u8) -> bool
    ensures { result ≡ is_other boot id }
{
    id != TO_ALL && id != boot
}

fn is_aimed(op: Op, boot: u8) -> bool
    ensures { result ≡ is_aimed boot op }
{
    match op {
        Op::Init(id) => is_other(boot, id),
        Op::Startup(id, _) => is_other(boot, id),
        Op::Check(id) => is_other(boot, id),
        _ => true,
    }
}

fn is_at_page(op: Op, page: u8) -> bool
    ensures { result ≡ is_at_page page op }
{
    match op {
        Op::Warm(named) => named == page,
        Op::Startup(_, named) => named == page,
        _ => true,
    }
}

/// Whether each op is one of a boot program.
pub fn are_boot_ops(ops: &[Op]) -> bool
    ensures { result ≡ list_all is_boot_op ops.now }
{
    for op in ops {
        if !is_boot_op(*op) {
            return false;
        }
    }
    true
}

/// Whether each op is one of a processor's script.
pub fn are_script_ops(ops: &[Op]) -> bool
    ensures { result ≡ list_all is_script_op ops.now }
{
    for op in ops {
        if !is_script_op(*op) {
            return false;
        }
    }
    true
}

/// Whether each op that names an I/O APIC names one of the first `ios`.
pub fn are_on(ops: &[Op], ios: usize) -> bool
    ensures { result ≡ list_all (is_op_on ios) ops.now }
{
    for op in ops {
        if !is_on(*op, ios) {
            return false;
        }
    }
    true
}

/// Whether each INIT, STARTUP and check is of another processor than the boot processor, and not of all.
pub fn are_aimed(ops: &[Op], boot: u8) -> bool
    ensures { result ≡ list_all (is_aimed boot) ops.now }
{
    for op in ops {
        if !is_aimed(*op, boot) {
            return false;
        }
    }
    true
}

/// Whether each op that names a page names this one.
pub fn are_at_page(ops: &[Op], page: u8) -> bool
    ensures { result ≡ list_all (is_at_page page) ops.now }
{
    for op in ops {
        if !is_at_page(*op, page) {
            return false;
        }
    }
    true
}
