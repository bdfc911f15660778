//! What the actions of each call need.
ghost use Rattle.std.specs.Prelude.{◌≡◌, ◌≤◌, false, length};
ghost use Rattle.instances.specs.Given.{given_instance, given_module, given_only, is_text_too_long};

use arrayvec::ArrayVec;
use instances_table::plans::given::MOST_TEXT_BYTES;
use instances_table::plans::{Given, Header};
use instances_table::{Image, ModuleInfo, NewInstance};

/// Whether a text is longer than one that is kept.
pub(crate) fn is_too_long(text: &[u8]) -> bool
    ensures value { result ≡ is_text_too_long text.now }
    ensures else_fits { result ≡ false → length text.now ≤ 255 }
{
    text.len() > MOST_TEXT_BYTES
}

/// What a call is given that names an instance: a text, or a return address.
pub(crate) fn given_only(text: &[u8], return_address: u32) -> Given
    requires { length text.now ≤ 255 }
    ensures { result ≡ given_only text.now return_address }
{
    let mut kept = ArrayVec::new();
    kept.try_extend_from_slice(text).unwrap();
    Given {
        header: Header::default(),
        image: 0,
        len: 0,
        name: ArrayVec::new(),
        text: kept,
        return_address,
    }
}

/// What a new instance needs: the module's title, the new name, and the text.
pub(crate) fn given_instance(info: ModuleInfo, new: NewInstance, text: &[u8]) -> Given
    requires { length text.now ≤ 255 }
    ensures { result ≡ given_instance info.title new text.now }
{
    let mut given = given_only(text, 0);
    given.header.title = info.title;
    given.name = new.name;
    given
}

/// What a new module needs: its header, its image, and the text.
pub(crate) fn given_module(header: Header, image: Image, text: &[u8]) -> Given
    requires { length text.now ≤ 255 }
    ensures { result ≡ given_module header image text.now }
{
    let mut given = given_only(text, 0);
    given.header = header;
    given.image = image.at;
    given.len = image.len;
    given
}
