//! What GDB is told of the target: its architecture and its registers, in the order of their numbers.

ghost use Rattle.std.specs.Prelude.{◌≡◌, IfOk};
ghost use Rattle.gdb_machine.specs.Description.{description_text, part_of, part_of_rest};

use gdb_packets::ByteRange;
use std::alloc::{AllocError, Global};

/// The most bytes that a packet reports.
const MOST_SHOWN: usize = 8192;

/// The description, in XML. R15 is `pc`, the address alone, and `cpsr`, the status as a later processor
/// has it in a mode of 26 bits; the whole word is `r15`.
pub(crate) const DESCRIPTION: &[u8] = b"\
    <?xml version=\"1.0\"?>\n\
    <!DOCTYPE target SYSTEM \"gdb-target.dtd\">\n\
    <target version=\"1.0\">\n\
    <architecture>armv2</architecture>\n\
    <osabi>none</osabi>\n\
    <feature name=\"org.gnu.gdb.arm.core\">\n\
    <reg name=\"r0\" bitsize=\"32\" type=\"uint32\"/>\n\
    <reg name=\"r1\" bitsize=\"32\" type=\"uint32\"/>\n\
    <reg name=\"r2\" bitsize=\"32\" type=\"uint32\"/>\n\
    <reg name=\"r3\" bitsize=\"32\" type=\"uint32\"/>\n\
    <reg name=\"r4\" bitsize=\"32\" type=\"uint32\"/>\n\
    <reg name=\"r5\" bitsize=\"32\" type=\"uint32\"/>\n\
    <reg name=\"r6\" bitsize=\"32\" type=\"uint32\"/>\n\
    <reg name=\"r7\" bitsize=\"32\" type=\"uint32\"/>\n\
    <reg name=\"r8\" bitsize=\"32\" type=\"uint32\"/>\n\
    <reg name=\"r9\" bitsize=\"32\" type=\"uint32\"/>\n\
    <reg name=\"r10\" bitsize=\"32\" type=\"uint32\"/>\n\
    <reg name=\"r11\" bitsize=\"32\" type=\"uint32\"/>\n\
    <reg name=\"r12\" bitsize=\"32\" type=\"uint32\"/>\n\
    <flags id=\"status\" size=\"4\">\n\
    <field name=\"MODE\" start=\"0\" end=\"1\"/>\n\
    <field name=\"M4\" start=\"4\" end=\"4\"/>\n\
    <field name=\"F\" start=\"6\" end=\"6\"/>\n\
    <field name=\"I\" start=\"7\" end=\"7\"/>\n\
    <field name=\"V\" start=\"28\" end=\"28\"/>\n\
    <field name=\"C\" start=\"29\" end=\"29\"/>\n\
    <field name=\"Z\" start=\"30\" end=\"30\"/>\n\
    <field name=\"N\" start=\"31\" end=\"31\"/>\n\
    </flags>\n\
    <reg name=\"sp\" bitsize=\"32\" type=\"data_ptr\"/>\n\
    <reg name=\"lr\" bitsize=\"32\" type=\"uint32\"/>\n\
    <reg name=\"pc\" bitsize=\"32\" type=\"code_ptr\"/>\n\
    <reg name=\"cpsr\" bitsize=\"32\" type=\"status\"/>\n\
    </feature>\n\
    <feature name=\"rosm.banks\">\n\
    <flags id=\"place\" size=\"4\">\n\
    <field name=\"MODE\" start=\"0\" end=\"1\"/>\n\
    <field name=\"F\" start=\"26\" end=\"26\"/>\n\
    <field name=\"I\" start=\"27\" end=\"27\"/>\n\
    <field name=\"V\" start=\"28\" end=\"28\"/>\n\
    <field name=\"C\" start=\"29\" end=\"29\"/>\n\
    <field name=\"Z\" start=\"30\" end=\"30\"/>\n\
    <field name=\"N\" start=\"31\" end=\"31\"/>\n\
    </flags>\n\
    <reg name=\"r15\" bitsize=\"32\" type=\"place\" group=\"banks\" save-restore=\"no\"/>\n\
    <reg name=\"r8_usr\" bitsize=\"32\" type=\"uint32\" group=\"banks\" save-restore=\"no\"/>\n\
    <reg name=\"r9_usr\" bitsize=\"32\" type=\"uint32\" group=\"banks\" save-restore=\"no\"/>\n\
    <reg name=\"r10_usr\" bitsize=\"32\" type=\"uint32\" group=\"banks\" save-restore=\"no\"/>\n\
    <reg name=\"r11_usr\" bitsize=\"32\" type=\"uint32\" group=\"banks\" save-restore=\"no\"/>\n\
    <reg name=\"r12_usr\" bitsize=\"32\" type=\"uint32\" group=\"banks\" save-restore=\"no\"/>\n\
    <reg name=\"r13_usr\" bitsize=\"32\" type=\"uint32\" group=\"banks\" save-restore=\"no\"/>\n\
    <reg name=\"r14_usr\" bitsize=\"32\" type=\"uint32\" group=\"banks\" save-restore=\"no\"/>\n\
    <reg name=\"r8_fiq\" bitsize=\"32\" type=\"uint32\" group=\"banks\" save-restore=\"no\"/>\n\
    <reg name=\"r9_fiq\" bitsize=\"32\" type=\"uint32\" group=\"banks\" save-restore=\"no\"/>\n\
    <reg name=\"r10_fiq\" bitsize=\"32\" type=\"uint32\" group=\"banks\" save-restore=\"no\"/>\n\
    <reg name=\"r11_fiq\" bitsize=\"32\" type=\"uint32\" group=\"banks\" save-restore=\"no\"/>\n\
    <reg name=\"r12_fiq\" bitsize=\"32\" type=\"uint32\" group=\"banks\" save-restore=\"no\"/>\n\
    <reg name=\"r13_fiq\" bitsize=\"32\" type=\"uint32\" group=\"banks\" save-restore=\"no\"/>\n\
    <reg name=\"r14_fiq\" bitsize=\"32\" type=\"uint32\" group=\"banks\" save-restore=\"no\"/>\n\
    <reg name=\"r13_irq\" bitsize=\"32\" type=\"uint32\" group=\"banks\" save-restore=\"no\"/>\n\
    <reg name=\"r14_irq\" bitsize=\"32\" type=\"uint32\" group=\"banks\" save-restore=\"no\"/>\n\
    <reg name=\"r13_svc\" bitsize=\"32\" type=\"uint32\" group=\"banks\" save-restore=\"no\"/>\n\
    <reg name=\"r14_svc\" bitsize=\"32\" type=\"uint32\" group=\"banks\" save-restore=\"no\"/>\n\
    </feature>\n\
    </target>\n\
";

/// Bytes of the description, behind `l` where they are its last and behind `m` where they aren't.
///
/// # Errors
///
/// Memory ran out.
pub fn description_part(alloc: Global, range: ByteRange) -> Result<Vec<u8>, AllocError>
    ensures { IfOk result (λ text. text.items ≡ description_text range) }
{
    part(alloc, DESCRIPTION, range)
}

/// Bytes of a text, so shown.
pub(crate) fn part(alloc: Global, text: &[u8], range: ByteRange) -> Result<Vec<u8>, AllocError>
    ensures { IfOk result (λ reported. reported.items ≡ part_of text.now range) }
{
    let start = (range.start as usize).min(text.len());
    part_of_rest(alloc, &text[start..], range.count as usize)
}

fn part_of_rest(alloc: Global, rest: &[u8], count: usize) -> Result<Vec<u8>, AllocError>
    ensures { IfOk result (λ reported. reported.items ≡ part_of_rest rest.now count) }
{
    let count = count.min(MOST_SHOWN);
    let is_more = count < rest.len();
    let mut reported = Vec::from_slice(alloc, if is_more { b"m" } else { b"l" })?;
    reported.extend_from_slice(&rest[..count.min(rest.len())])?;
    Ok(reported)
}
