//! Whole reports, and such as are cut or go on.

use crate::reading::{Answer, answer_to, report_of, same};
use mpb_report_parse::{CpuLine, IoLine, Report};
use mpb_spec::{Agent, Entry, Imcr, Life, Op, Outcome, What};
use std::process::Abort;

/// Two processors start, and there are no I/O APICs.
const TWO_PROCESSORS: &[u8] = b"mpboot 1
entries 7
0 cpu 00 init 01 : 01=waiting
1 cpu 00 pause 10000 : done
2 cpu 00 startup 01 9F : 01=started.9F
3 cpu 00 pause 200 : done
4 cpu 00 startup 01 9F : 01=ignored
5 cpu 00 pause 200 : done
6 cpu 00 check 01 : 01=runs.9F
state imcr none
state cpu 00 first tpr 00 irr - isr - tmr -
state cpu 01 started.9F tpr 00 irr - isr - tmr -
end
";

/// Three devices make a pulse on one pin.
const THREE_DEVICES: &[u8] = b"mpboot 1
entries 15
0 cpu 00 iosel 0 13 : done
1 cpu 00 iowin 0 00000000 : plain
2 cpu 00 iosel 0 12 : done
3 cpu 00 iowin 0 00000021 : plain
4 dev 0 begin : done
5 dev 1 begin : done
6 dev 2 begin : done
7 io 0 collect 000002 : pins.000002.000000
8 dev 0 end : done
9 dev 1 end : done
10 dev 2 end : done
11 io 0 send 1 : 00=set
12 cpu 00 take : taken.21
13 io 0 sweep : done
14 cpu 00 eoi : ended.21.edge
log 0 : 0.1=new
log 1 : 0.1=merged
log 2 : 0.1=merged
state imcr none
state cpu 00 first tpr 00 irr - isr - tmr -
state io 0 line 000000 due 000000 remote 000000
end
";

/// Two processors start, and there are no I/O APICs.
pub(crate) fn two_processors_text() -> &'static [u8] {
    TWO_PROCESSORS
}

/// Three devices make a pulse on one pin.
pub(crate) fn three_devices_text() -> &'static [u8] {
    THREE_DEVICES
}

#[test]
fn worked_reports_are_read(rt: HostRuntime) {
    let alloc = rt.alloc();
    same(
        &rt,
        "two processors",
        answer_to(alloc, two_processors_text()),
        Answer::Report(7, 0, 2, 0),
    );
    same(
        &rt,
        "three devices",
        answer_to(alloc, three_devices_text()),
        Answer::Report(15, 3, 1, 1),
    );
    match report_of(alloc, three_devices_text()) {
        Ok(report) => has_values(&rt, &report),
        Err(_) => panic!(&rt; "no report"),
    }
}

fn has_values(rt: &impl Abort, report: &Report) {
    match report.entries.as_slice().get(7) {
        Some(entry) => is_collection(rt, entry),
        None => panic!(rt; "no entry 7"),
    }
    assert!(rt; report.imcr == Imcr::Absent);
    match report.cpus.as_slice().first() {
        Some(cpu) => is_first(rt, cpu),
        None => panic!(rt; "no processor"),
    }
    match report.ios.as_slice().first() {
        Some(io) => is_still(rt, io),
        None => panic!(rt; "no I/O APIC"),
    }
}

fn is_collection(rt: &impl Abort, entry: &Entry) {
    assert!(rt; entry.agent == Agent::Io(0));
    assert!(rt; entry.op == Op::Collect(2));
    match entry.outcomes.as_slice().first() {
        Some(outcome) => has_pin_1(rt, outcome),
        None => panic!(rt; "no outcome"),
    }
}

fn has_pin_1(rt: &impl Abort, outcome: &Outcome) {
    let pins = Outcome {
        at: 0,
        what: What::Pins(2, 0),
    };
    assert!(rt; *outcome == pins);
}

fn is_first(rt: &impl Abort, cpu: &CpuLine) {
    assert!(rt; cpu.life == Life::First && cpu.tmr.as_slice().is_empty());
}

fn is_still(rt: &impl Abort, io: &IoLine) {
    let still = IoLine {
        line: 0,
        due: 0,
        remote: 0,
    };
    assert!(rt; *io == still);
}

// short texts, and the answers to them
fn cut_and_longer_texts() -> &'static [(&'static str, &'static [u8], Answer)] {
    &[
        ("no bytes", b"", Answer::Early(1)),
        ("the title alone", b"mpboot 1\n", Answer::Early(2)),
        (
            "a title without its line feed",
            b"mpboot 1",
            Answer::Form(1),
        ),
        (
            "more entries than there are",
            b"mpboot 1\nentries 99999999999999999999999999999999\n",
            Answer::Early(3),
        ),
        ("a leading zero", b"mpboot 1\nentries 00\n", Answer::Form(2)),
        (
            "the shortest report",
            b"mpboot 1\nentries 0\nstate imcr apic\nend\n",
            Answer::Report(0, 0, 0, 0),
        ),
        (
            "a line behind the end",
            b"mpboot 1\nentries 0\nstate imcr apic\nend\n\n",
            Answer::Late(5),
        ),
        (
            "no end",
            b"mpboot 1\nentries 0\nstate imcr apic\n",
            Answer::Early(4),
        ),
    ]
}

#[test]
fn cut_and_longer_reports_are_refused(rt: HostRuntime) {
    for (name, text, want) in cut_and_longer_texts() {
        same(&rt, name, answer_to(rt.alloc(), text), *want);
    }
}
