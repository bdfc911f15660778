//! Fields of a record that say nothing of the core nor of words.

ghost use Rattle.std.specs.Prelude.{◌≡◌};
ghost use Rattle.trace_json.specs.declared.others.TextPlace.TheVariants.{Outside};
ghost use Rattle.trace_json.specs.OtherFields.{are_others, begins_with_name, place_closed, closes, is_outermost, place_opened, opens, text_place_after};

/// Where a byte of a text stands, within so many brackets.
#[derive(Clone, Copy)]
enum TextPlace {
    /// Outside of strings.
    Outside(u32),
    /// In a string.
    InString(u32),
    /// In a string, behind a backslash.
    Escaped(u32),
    /// Behind what stands in no fields.
    Broken,
}

/// Whether none of these fields has a name under which the core or words are shown, and each string and
/// each bracket in them is closed.
pub fn are_others(fields: &[u8]) -> bool
    ensures { result ≡ are_others fields.now }
{
    let mut place = TextPlace::Outside(0);
    for index in 0..fields.len() {
        let rest = &fields[index..];
        if is_outermost(place) && begins_with_name(rest) {
            return false;
        }
        place = text_place_after(place, fields[index]);
    }
    is_outermost(place)
}

fn is_outermost(place: TextPlace) -> bool
    ensures { result ≡ is_outermost place }
{
    match place {
        TextPlace::Outside(depth) => depth == 0,
        _ => false,
    }
}

fn begins_with_name(text: &[u8]) -> bool
    ensures { result ≡ begins_with_name text.now }
{
    text.starts_with(b"\"regs\":")
        || text.starts_with(b"\"flags\":")
        || text.starts_with(b"\"mode\":")
        || text.starts_with(b"\"next\":")
        || text.starts_with(b"\"pc\":")
        || text.starts_with(b"\"mem\":")
        || text.starts_with(b"\"more\":")
}

// Where the byte behind one stands.
fn text_place_after(place: TextPlace, byte: u8) -> TextPlace
    ensures { result ≡ text_place_after place byte }
{
    match place {
        TextPlace::Outside(depth) => place_outside(depth, byte),
        TextPlace::InString(depth) => match byte {
            b'"' => TextPlace::Outside(depth),
            b'\\' => TextPlace::Escaped(depth),
            b'\n' => TextPlace::Broken,
            _ => TextPlace::InString(depth),
        },
        TextPlace::Escaped(depth) => match byte {
            b'\n' => TextPlace::Broken,
            _ => TextPlace::InString(depth),
        },
        TextPlace::Broken => TextPlace::Broken,
    }
}

fn place_outside(depth: u32, byte: u8) -> TextPlace
    ensures { result ≡ text_place_after (Outside depth) byte }
{
    match byte {
        b'"' => TextPlace::InString(depth),
        b'[' | b'{' => place_opened(depth),
        b']' | b'}' => place_closed(depth),
        b'\n' => TextPlace::Broken,
        _ => TextPlace::Outside(depth),
    }
}

fn place_opened(depth: u32) -> TextPlace
    ensures { result ≡ place_opened depth }
{
    match depth.checked_add(1) {
        Some(deeper) => TextPlace::Outside(deeper),
        None => TextPlace::Broken,
    }
}

fn place_closed(depth: u32) -> TextPlace
    ensures { result ≡ place_closed depth }
{
    match depth.checked_sub(1) {
        Some(higher) => TextPlace::Outside(higher),
        None => TextPlace::Broken,
    }
}
