//! What C calls (include/mptab.h). Each call has the clause of the program's top call for its words and
//! files: status and text are the program's, or memory ran out, or the text passes the room.

ghost use Rattle.std.specs.Prelude.{[], ◌∷◌, codes, decimal};
ghost use Rattle.mpt_listing.specs.Listing.{hex};
ghost use Rattle.mptab_c.specs.Lent.{lent, lent_files};
ghost use Rattle.mptab_c.specs.Given.{Gives};

use crate::calls::{give, refuse};
use crate::lent_shelf::LentFile;
use crate::words::{decimal_word, elcr_word};
use std::alloc::Global;

/// The listing of an image.
#[unsafe(no_mangle)]
pub extern "C" fn mptab_show(alloc: Global, image: &[u8], out: &mut [u8], needed: &mut usize) -> u8
    ensures { Gives (lent_files (lent (codes "image") image.now ∷ [])) (codes "show" ∷ codes "image" ∷ []) out.old out.new needed.new result }
{
    let image = LentFile {
        name: "image",
        bytes: image,
    };
    give(alloc, &["show", "image"], &[image], out, needed)
}

/// The findings on an image.
#[unsafe(no_mangle)]
pub extern "C" fn mptab_audit(alloc: Global, image: &[u8], out: &mut [u8], needed: &mut usize) -> u8
    ensures { Gives (lent_files (lent (codes "image") image.now ∷ [])) (codes "audit" ∷ codes "image" ∷ []) out.old out.new needed.new result }
{
    let image = LentFile {
        name: "image",
        bytes: image,
    };
    give(alloc, &["audit", "image"], &[image], out, needed)
}

/// The image of an image's canonical form.
#[unsafe(no_mangle)]
pub extern "C" fn mptab_canon(alloc: Global, image: &[u8], out: &mut [u8], needed: &mut usize) -> u8
    ensures { Gives (lent_files (lent (codes "image") image.now ∷ [])) (codes "canon" ∷ codes "image" ∷ []) out.old out.new needed.new result }
{
    let image = LentFile {
        name: "image",
        bytes: image,
    };
    give(alloc, &["canon", "image"], &[image], out, needed)
}

/// The image of a listing.
#[unsafe(no_mangle)]
pub extern "C" fn mptab_build(
    alloc: Global,
    listing: &[u8],
    out: &mut [u8],
    needed: &mut usize,
) -> u8
    ensures { Gives (lent_files (lent (codes "listing") listing.now ∷ [])) (codes "build" ∷ codes "listing" ∷ []) out.old out.new needed.new result }
{
    let listing = LentFile {
        name: "listing",
        bytes: listing,
    };
    give(alloc, &["build", "listing"], &[listing], out, needed)
}

/// The routes of an image under an ELCR.
#[unsafe(no_mangle)]
pub extern "C" fn mptab_route(
    alloc: Global,
    image: &[u8],
    elcr: u16,
    out: &mut [u8],
    needed: &mut usize,
) -> u8
    ensures { Gives (lent_files (lent (codes "image") image.now ∷ [])) (codes "route" ∷ codes "image" ∷ hex 4 elcr ∷ []) out.old out.new needed.new result }
{
    let image = LentFile {
        name: "image",
        bytes: image,
    };
    match elcr_word(alloc, elcr) {
        Ok(word) => give(
            alloc,
            &["route", "image", word.as_str()],
            &[image],
            out,
            needed,
        ),
        Err(_) => refuse(out, needed),
    }
}

/// The report of the board of an image and a script, whose agents take turns.
#[unsafe(no_mangle)]
pub extern "C" fn mptab_trace(
    alloc: Global,
    image: &[u8],
    script: &[u8],
    out: &mut [u8],
    needed: &mut usize,
) -> u8
    ensures { Gives (lent_files (lent (codes "image") image.now ∷ lent (codes "script") script.now ∷ [])) (codes "trace" ∷ codes "image" ∷ codes "script" ∷ []) out.old out.new needed.new result }
{
    let image = LentFile {
        name: "image",
        bytes: image,
    };
    let script = LentFile {
        name: "script",
        bytes: script,
    };
    give(
        alloc,
        &["trace", "image", "script"],
        &[image, script],
        out,
        needed,
    )
}

/// The verdict on a report of the board of an image and a script.
#[unsafe(no_mangle)]
pub extern "C" fn mptab_replay(
    alloc: Global,
    image: &[u8],
    script: &[u8],
    report: &[u8],
    out: &mut [u8],
    needed: &mut usize,
) -> u8
    ensures { Gives (lent_files (lent (codes "image") image.now ∷ lent (codes "script") script.now ∷ lent (codes "report") report.now ∷ [])) (codes "replay" ∷ codes "image" ∷ codes "script" ∷ codes "report" ∷ []) out.old out.new needed.new result }
{
    let image = LentFile {
        name: "image",
        bytes: image,
    };
    let script = LentFile {
        name: "script",
        bytes: script,
    };
    let report = LentFile {
        name: "report",
        bytes: report,
    };
    give(
        alloc,
        &["replay", "image", "script", "report"],
        &[image, script, report],
        out,
        needed,
    )
}

/// The summary of the drill of a number.
#[unsafe(no_mangle)]
pub extern "C" fn mptab_drill(alloc: Global, n: u16, out: &mut [u8], needed: &mut usize) -> u8
    ensures { Gives (lent_files []) (codes "drill" ∷ decimal n ∷ []) out.old out.new needed.new result }
{
    match decimal_word(alloc, n) {
        Ok(word) => give(alloc, &["drill", word.as_str()], &[], out, needed),
        Err(_) => refuse(out, needed),
    }
}

/// The image of an image's tables at revision 4.
#[unsafe(no_mangle)]
pub extern "C" fn mptab_raise(alloc: Global, image: &[u8], out: &mut [u8], needed: &mut usize) -> u8
    ensures { Gives (lent_files (lent (codes "image") image.now ∷ [])) (codes "raise" ∷ codes "image" ∷ []) out.old out.new needed.new result }
{
    let image = LentFile {
        name: "image",
        bytes: image,
    };
    give(alloc, &["raise", "image"], &[image], out, needed)
}

/// The ACPI MADT that says what an image's tables say under an ELCR.
#[unsafe(no_mangle)]
pub extern "C" fn mptab_madt(
    alloc: Global,
    image: &[u8],
    elcr: u16,
    out: &mut [u8],
    needed: &mut usize,
) -> u8
    ensures { Gives (lent_files (lent (codes "image") image.now ∷ [])) (codes "madt" ∷ codes "image" ∷ hex 4 elcr ∷ []) out.old out.new needed.new result }
{
    let image = LentFile {
        name: "image",
        bytes: image,
    };
    match elcr_word(alloc, elcr) {
        Ok(word) => give(
            alloc,
            &["madt", "image", word.as_str()],
            &[image],
            out,
            needed,
        ),
        Err(_) => refuse(out, needed),
    }
}

/// Where a MADT says other lines of ISA interrupts than an image's tables under an ELCR.
#[unsafe(no_mangle)]
pub extern "C" fn mptab_madtcmp(
    alloc: Global,
    image: &[u8],
    elcr: u16,
    madt: &[u8],
    out: &mut [u8],
    needed: &mut usize,
) -> u8
    ensures { Gives (lent_files (lent (codes "image") image.now ∷ lent (codes "madt") madt.now ∷ [])) (codes "madtcmp" ∷ codes "image" ∷ hex 4 elcr ∷ codes "madt" ∷ []) out.old out.new needed.new result }
{
    let image = LentFile {
        name: "image",
        bytes: image,
    };
    let madt = LentFile {
        name: "madt",
        bytes: madt,
    };
    match elcr_word(alloc, elcr) {
        Ok(word) => give(
            alloc,
            &["madtcmp", "image", word.as_str(), "madt"],
            &[image, madt],
            out,
            needed,
        ),
        Err(_) => refuse(out, needed),
    }
}

/// The PCI IRQ routing table that says what an image's tables say.
#[unsafe(no_mangle)]
pub extern "C" fn mptab_pirmake(
    alloc: Global,
    image: &[u8],
    out: &mut [u8],
    needed: &mut usize,
) -> u8
    ensures { Gives (lent_files (lent (codes "image") image.now ∷ [])) (codes "pirmake" ∷ codes "image" ∷ []) out.old out.new needed.new result }
{
    let image = LentFile {
        name: "image",
        bytes: image,
    };
    give(alloc, &["pirmake", "image"], &[image], out, needed)
}

/// Where a PCI IRQ routing table and an image's tables differ.
#[unsafe(no_mangle)]
pub extern "C" fn mptab_pircmp(
    alloc: Global,
    image: &[u8],
    table: &[u8],
    out: &mut [u8],
    needed: &mut usize,
) -> u8
    ensures { Gives (lent_files (lent (codes "image") image.now ∷ lent (codes "table") table.now ∷ [])) (codes "pircmp" ∷ codes "image" ∷ codes "table" ∷ []) out.old out.new needed.new result }
{
    let image = LentFile {
        name: "image",
        bytes: image,
    };
    let table = LentFile {
        name: "table",
        bytes: table,
    };
    give(
        alloc,
        &["pircmp", "image", "table"],
        &[image, table],
        out,
        needed,
    )
}

/// Calls of a pair of 8259A on the board of an image and a script.
#[unsafe(no_mangle)]
pub extern "C" fn mptab_pic(
    alloc: Global,
    image: &[u8],
    script: &[u8],
    calls: &[u8],
    out: &mut [u8],
    needed: &mut usize,
) -> u8
    ensures { Gives (lent_files (lent (codes "image") image.now ∷ lent (codes "script") script.now ∷ lent (codes "calls") calls.now ∷ [])) (codes "pic" ∷ codes "image" ∷ codes "script" ∷ codes "calls" ∷ []) out.old out.new needed.new result }
{
    let image = LentFile {
        name: "image",
        bytes: image,
    };
    let script = LentFile {
        name: "script",
        bytes: script,
    };
    let calls = LentFile {
        name: "calls",
        bytes: calls,
    };
    give(
        alloc,
        &["pic", "image", "script", "calls"],
        &[image, script, calls],
        out,
        needed,
    )
}
