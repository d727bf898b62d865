//! What the types say of values: that numbers fit their fields (MultiProcessor Specification 1.4,
//! figures 4-2 to 4-11). The functions do nothing; their contracts tell the definitions, in which a
//! field is any number, what a program knows by its types.

ghost use Rattle.std.specs.Prelude.{◌≡◌, ◌<◌, ◌^◌, length};
ghost use Rattle.std.specs.List.{AllByRecursion};
ghost use Rattle.mpt_base.specs.Bytes.{IsByteList};
ghost use Rattle.mpt_spec.specs.Values.{IsProcessorValue, IsBusValue, IsIoApicValue, IsInterruptValue, IsBaseValue, IsSpaceValue, IsHierarchyValue, IsModifierValue, IsExtValue, IsPointerValue, IsTableValue, IsBodyValue, IsTablesValue};

use mpt_spec::{
    Base, Body, Bus, Ext, Hierarchy, IntEntry, IoApic, Modifier, Pointer, Processor, Space, Table,
    Tables,
};

fn processor_value(entry: Processor)
    ensures { IsProcessorValue entry }
{
    let _value = entry;
}

fn bus_value(entry: Bus)
    ensures { IsBusValue entry }
{
    let _value = entry;
}

fn io_apic_value(entry: IoApic)
    ensures { IsIoApicValue entry }
{
    let _value = entry;
}

fn interrupt_value(entry: IntEntry)
    ensures { IsInterruptValue entry }
{
    let _value = entry;
}

fn base_value(entry: &Base)
    ensures { IsBaseValue entry.now }
{
    match entry {
        Base::Processor(processor) => processor_value(*processor),
        Base::Bus(bus) => bus_value(*bus),
        Base::IoApic(io_apic) => io_apic_value(*io_apic),
        Base::IoInt(interrupt) => interrupt_value(*interrupt),
        Base::LocalInt(interrupt) => interrupt_value(*interrupt),
    }
}

fn base_values(entries: &[Base])
    ensures { AllByRecursion IsBaseValue entries.now }
{
    for entry in entries {
        base_value(entry);
    }
}

fn space_value(entry: Space)
    ensures { IsSpaceValue entry }
{
    let _value = entry;
}

fn hierarchy_value(entry: Hierarchy)
    ensures { IsHierarchyValue entry }
{
    let _value = entry;
}

fn modifier_value(entry: Modifier)
    ensures { IsModifierValue entry }
{
    let _value = entry;
}

fn byte_list(bytes: &[u8])
    ensures { IsByteList bytes.now }
{
    let _value = bytes;
}

fn byte_value(byte: u8)
    ensures { byte < 256 }
{
    let _value = byte;
}

fn ext_value(entry: &Ext)
    ensures { IsExtValue entry.now }
{
    match entry {
        Ext::Space(space) => space_value(*space),
        Ext::Hierarchy(hierarchy) => hierarchy_value(*hierarchy),
        Ext::Modifier(modifier) => modifier_value(*modifier),
        Ext::Opaque(opaque) => {
            byte_value(opaque.kind);
            byte_list(opaque.rest.as_slice());
        }
    }
}

fn ext_values(entries: &[Ext])
    ensures { AllByRecursion IsExtValue entries.now }
{
    for entry in entries {
        ext_value(entry);
    }
}

fn arrays_value(oem: [u8; 8], product: [u8; 12], old: [u8; 4])
    ensures oem { (length oem ≡ 8) × IsByteList oem }
    ensures product { (length product ≡ 12) × IsByteList product }
    ensures old { (length old ≡ 4) × IsByteList old }
{
    let _values = (oem, product, old);
}

fn numbers_value(oem_table: u32, oem_size: u16, local_address: u32)
    ensures oem_table { oem_table < 2 ^ 32 }
    ensures oem_size { oem_size < 2 ^ 16 }
    ensures local_address { local_address < 2 ^ 32 }
{
    let _values = (oem_table, oem_size, local_address);
}

fn table_value(table: &Table)
    ensures { IsTableValue table.now }
{
    byte_value(table.revision);
    arrays_value(table.oem, table.product, table.old);
    numbers_value(table.oem_table, table.oem_size, table.local_address);
    byte_value(table.reserved);
    base_values(table.base.as_slice());
    ext_values(table.ext.as_slice());
}

fn body_value(body: &Body)
    ensures { IsBodyValue body.now }
{
    match body {
        Body::Default(number) => byte_value(*number),
        Body::Listed(table) => table_value(table),
    }
}

fn pointer_value(pointer: Pointer)
    ensures { IsPointerValue pointer }
{
    let _value = pointer;
}

fn place_value(at: u64)
    ensures { at < 2 ^ 64 }
{
    let _value = at;
}

/// The fields of tables fit.
pub(crate) fn tables_value(tables: &Tables)
    ensures { IsTablesValue tables.now }
{
    place_value(tables.at);
    pointer_value(tables.pointer);
    body_value(&tables.body);
}
