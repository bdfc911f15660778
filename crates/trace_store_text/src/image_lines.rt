//! What a store call changes in the recorded images.

ghost use Rattle.std.specs.Prelude.{◌≡◌};
ghost use Rattle.std.specs.List.{flat_map, list_any};
ghost use Rattle.store_copies.specs.Store.{is_image, store_of};
ghost use Rattle.profile.specs.Output.{Writes};
ghost use Rattle.trace_store_text.specs.ImageLines.{image_lines, is_same_image, lone_image_line};

use address_map::{AddressMap, Kind, Region};
use itoa::Buffer;
use profile::{HexText, Sink, WriteFault, push_parts};

/// Writes a line for each image that is gone or new.
pub fn push_images<W: Sink>(
    sink: &mut W,
    before: &AddressMap,
    after: &AddressMap,
) -> Result<(), WriteFault>
    ensures writes { Writes W.contents W.has_failed sink.old sink.new result
        (image_lines (store_of before.now) (store_of after.now)) }
{
    push_lone_images(sink, before.regions(), after.regions(), b" gone\n")?;
    push_lone_images(sink, after.regions(), before.regions(), b" new\n")
}

// A line for each image that isn't among the others.
fn push_lone_images<W: Sink>(
    sink: &mut W,
    regions: &[Region],
    others: &[Region],
    verb: &[u8],
) -> Result<(), WriteFault>
    ensures { Writes W.contents W.has_failed sink.old sink.new result
        (flat_map (lone_image_line others.now verb.now) regions.now) }
{
    for region in regions {
        push_lone_image(sink, region, others, verb)?;
    }
    Ok(())
}

fn push_lone_image<W: Sink>(
    sink: &mut W,
    region: &Region,
    others: &[Region],
    verb: &[u8],
) -> Result<(), WriteFault>
    ensures { Writes W.contents W.has_failed sink.old sink.new result
        (lone_image_line others.now verb.now region.now) }
{
    if !is_image(region.kind) || has_image(others, region) {
        return Ok(());
    }
    let mut len = Buffer::new();
    push_parts(
        sink,
        &[
            b"                  image ".as_slice(),
            HexText::word(region.at).as_slice(),
            b" ".as_slice(),
            len.format(region.len).as_bytes(),
            verb,
        ],
    )
}

fn has_image(regions: &[Region], image: &Region) -> bool
    ensures { result ≡ list_any (is_same_image image.now) regions.now }
{
    regions.iter().any(|other| is_image(other.kind)
        && other.at == image.at
        && other.len == image.len)
}

fn is_image(kind: Kind) -> bool
    ensures { result ≡ is_image kind }
{
    matches!(kind, Kind::Image)
}
