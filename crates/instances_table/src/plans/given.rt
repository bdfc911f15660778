//! What a module call is given that its later actions need.

use arrayvec::ArrayVec;
use profile::images::module_header::Header;

/// The most bytes of an instance's name.
pub const MOST_NAME_BYTES: usize = 31;

/// The most bytes of a call's text.
pub const MOST_TEXT_BYTES: usize = 255;

/// What a module call was given that its later actions need.
#[derive(Drop)]
pub struct Given {
    /// The header of the new module, as its image had it at the call.
    pub header: Header,
    /// Where the new module's image stands.
    pub image: u32,
    /// The bytes of the image.
    pub len: u32,
    /// The name of the new instance.
    pub name: ArrayVec<u8, MOST_NAME_BYTES>,
    /// The text after the name, for the environment buffer.
    pub text: ArrayVec<u8, MOST_TEXT_BYTES>,
    /// Where the caller goes on.
    pub return_address: u32,
}
