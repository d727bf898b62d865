//! The bytes of extended entries (MultiProcessor Specification 1.4, section 4.4, figures 4-9 to 4-11).

ghost use Rattle.std.specs.Prelude.{◌≡◌, ◌+◌, ◌++◌, length, OnOk, OnErr};
ghost use Rattle.mpt_spec.specs.Canonical.{IsLawfulExt};
ghost use Rattle.mpt_spec.specs.Extended.{ext_length};
ghost use Rattle.mpt_spec.specs.Image.{ext_bytes};
ghost use Rattle.mpt_spec.specs.declared.entry.Ext.TheVariants as ext;

use crate::extended::{HIERARCHY, MODIFIER, SPACE};
use crate::layouts::{hierarchy_layout, modifier_layout, space_layout};
use mpt_base::{NoMemory, append, put_fields};
use mpt_spec::{Ext, Hierarchy, Modifier, Opaque, Space};

fn space_bytes(entry: &Space) -> [u8; 20]
    ensures { result ≡ ext_bytes (ext.Space entry.now) }
{
    let mut bytes = [0; 20];
    bytes[0] = SPACE;
    bytes[1] = 20;
    space_layout!(put_fields, bytes, entry);
    bytes
}

fn hierarchy_bytes(entry: &Hierarchy) -> [u8; 8]
    ensures { result ≡ ext_bytes (ext.Hierarchy entry.now) }
{
    let mut bytes = [0; 8];
    bytes[0] = HIERARCHY;
    bytes[1] = 8;
    hierarchy_layout!(put_fields, bytes, entry);
    bytes
}

fn modifier_bytes(entry: &Modifier) -> [u8; 8]
    ensures { result ≡ ext_bytes (ext.Modifier entry.now) }
{
    let mut bytes = [0; 8];
    bytes[0] = MODIFIER;
    bytes[1] = 8;
    modifier_layout!(put_fields, bytes, entry);
    bytes
}

// Its head and its rest go out one after another. Where there is no memory for the rest, the head is
// taken back.
fn write_opaque(out: &mut Vec<u8>, entry: &Opaque) -> Result<(), NoMemory>
    requires lawful { IsLawfulExt (ext.Opaque entry.now) }
    ensures ok { OnOk result (out.new.items ≡ out.old.items ++ ext_bytes (ext.Opaque entry.now)) }
    ensures err { OnErr result (out.new.items ≡ out.old.items) }
{
    let rest = entry.rest.as_slice();
    let before = out.len();
    let Ok(()) = append(out, &[entry.kind, 2 + rest.len() as u8]) else {
        return Err(NoMemory);
    };
    match append(out, rest) {
        Ok(()) => Ok(()),
        Err(failed) => {
            out.truncate(before);
            Err(failed)
        }
    }
}

/// Appends the bytes of an extended entry, 20 of an address range, 8 of a bus hierarchy or an address
/// modifier, and of any other its type, its length and its rest. After want of memory `out` is
/// unchanged.
pub fn write_ext(out: &mut Vec<u8>, entry: &Ext) -> Result<(), NoMemory>
    requires lawful { IsLawfulExt entry.now }
    ensures ok { OnOk result (out.new.items ≡ out.old.items ++ ext_bytes entry.now) }
    ensures size { OnOk result (length out.new.items ≡ length out.old.items + ext_length entry.now) }
    ensures err { OnErr result (out.new.items ≡ out.old.items) }
{
    match entry {
        Ext::Space(space) => append(out, &space_bytes(space)),
        Ext::Hierarchy(hierarchy) => append(out, &hierarchy_bytes(hierarchy)),
        Ext::Modifier(modifier) => append(out, &modifier_bytes(modifier)),
        Ext::Opaque(opaque) => write_opaque(out, opaque),
    }
}
