//! The view MODULES: each module and its instances.

ghost use Rattle.std.specs.Prelude.{◌≡◌, ◌<◌, slice_get};
ghost use Rattle.swi_dispatch_guest.specs.AddressMapMemory.{bytes_of};
ghost use Rattle.swi_dispatch_guest.specs.Output.{Writes};
ghost use Rattle.swi_dispatch_guest.specs.Lookup.{shown_of_place};
ghost use Rattle.debugger.specs.Modules.{instance_line, instances_text, module_line, module_text, modules_text, one_text, preferred_text};
ghost use Rattle.swi_dispatch_guest.specs.GuestState.{state_of};

use assembler_text::HexText;
use itoa::Buffer;
use swi_dispatch_guest::{
    AddressMap, InstanceInfo, Instances, Machine, ModuleInfo, PRIVATE_WORDS, Sink, WriteFault,
    push_parts,
};

/// Writes a line for each module, oldest first, `module Title at 01800014 length 47`, and under it
/// a line for each of its instances, `  Base word 01C02000 00000000 preferred`, with the address of
/// its private word and what stands there.
pub fn show_modules<W: Sink>(machine: &Machine, sink: &mut W) -> Result<(), WriteFault>
    ensures writes { let s = state_of machine.now.guest in
        Writes W.contents W.has_failed sink.old sink.new result
        (modules_text s.store.bytes s.tables.modules) }
{
    show_all(machine.instances(), machine.memory(), sink)
}

fn show_all<W: Sink>(
    modules: &Instances,
    memory: &AddressMap,
    sink: &mut W,
) -> Result<(), WriteFault>
    ensures { Writes W.contents W.has_failed sink.old sink.new result
        (modules_text (bytes_of memory.now) modules.now) }
{
    for number in 0..modules.count() {
        show_module(modules, number, memory, sink)?;
    }
    Ok(())
}

// The lines of the module of a number, if there is one.
fn show_module<W: Sink>(
    modules: &Instances,
    number: u32,
    memory: &AddressMap,
    sink: &mut W,
) -> Result<(), WriteFault>
    ensures { Writes W.contents W.has_failed sink.old sink.new result
        (one_text (module_text (bytes_of memory.now)) (slice_get modules.now number)) }
{
    let Some(info) = modules.module(number) else {
        return Ok(());
    };
    show_title(&info, sink)?;
    show_instances(modules, number, memory, sink)
}

fn show_title<W: Sink>(info: &ModuleInfo, sink: &mut W) -> Result<(), WriteFault>
    ensures { Writes W.contents W.has_failed sink.old sink.new result (module_line info.now) }
{
    let mut length = Buffer::new();
    push_parts(
        sink,
        &[
            b"module ".as_slice(),
            info.title.as_slice(),
            b" at ".as_slice(),
            HexText::word(info.image).as_slice(),
            b" length ".as_slice(),
            length.format(info.len).as_bytes(),
            b"\n".as_slice(),
        ],
    )
}

// A line for each instance of the module of a number.
fn show_instances<W: Sink>(
    modules: &Instances,
    number: u32,
    memory: &AddressMap,
    sink: &mut W,
) -> Result<(), WriteFault>
    ensures { Writes W.contents W.has_failed sink.old sink.new result
        (one_text (instances_text (bytes_of memory.now)) (slice_get modules.now number)) }
{
    for instance in 0..modules.instance_count(number) {
        show_instance(modules, number, instance, memory, sink)?;
    }
    Ok(())
}

// The line of an instance, if there is one.
fn show_instance<W: Sink>(
    modules: &Instances,
    number: u32,
    instance: u32,
    memory: &AddressMap,
    sink: &mut W,
) -> Result<(), WriteFault>
    ensures { Writes W.contents W.has_failed sink.old sink.new result
        (one_text (instance_line (bytes_of memory.now))
        (shown_of_place instance (slice_get modules.now number))) }
{
    match modules.instance(number, instance) {
        Some(reported) => show_shown(&reported, memory, sink),
        None => Ok(()),
    }
}

fn show_shown<W: Sink>(
    reported: &InstanceInfo,
    memory: &AddressMap,
    sink: &mut W,
) -> Result<(), WriteFault>
    requires { reported.now.slot < 64 }
    ensures { Writes W.contents W.has_failed sink.old sink.new result
        (instance_line (bytes_of memory.now) reported.now) }
{
    let word = PRIVATE_WORDS + 4 * reported.slot;
    push_parts(
        sink,
        &[
            b"  ".as_slice(),
            reported.name.as_slice(),
            b" word ".as_slice(),
            HexText::word(word).as_slice(),
            b" ".as_slice(),
            HexText::word(memory.load_word(word).unwrap_or(0)).as_slice(),
            preferred_text(reported.preferred),
        ],
    )
}

fn preferred_text<'a>(is_preferred: bool) -> &'a [u8]
    ensures { result.now ≡ preferred_text is_preferred }
{
    if is_preferred { b" preferred\n" } else { b"\n" }
}
