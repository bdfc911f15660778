//! Where an image stands now.

ghost use Rattle.std.specs.Prelude.{◌≡◌, slice_get};
ghost use Rattle.std.specs.Option.{option_and_then};
ghost use Rattle.debug_labels.specs.Standing.{is_titled};
ghost use Rattle.debugger.specs.Lookup.{shown_of_module};

use crate::labels::LabelledImage;
use debugger::{Instances, ModuleInfo};
use profile::images::module_header::Header;

impl LabelledImage {
    ghost use Rattle.debug_labels.specs.Standing.{place_now, start_as, module_start, start_now};

    /// Where the image stands now.
    pub(crate) fn start(&self, modules: &Instances) -> u32
        ensures { result ≡ start_now modules.now self.now }
    {
        self.module_start(modules).unwrap_or(self.origin)
    }

    // Where a module is loaded from it, if one is.
    #[tactic(auto, using(crate::proofs::WalkLemmas::first_steps))]
    fn module_start(&self, modules: &Instances) -> Option<u32>
        ensures { result ≡ module_start modules.now self.now }
    {
        for number in 0..modules.count() {
            if let Some(start) = self.start_as_numbered(modules, number) {
                return Some(start);
            }
        }
        None
    }

    // Where the module of a number stands, if there is one and it is loaded from the image.
    fn start_as_numbered(&self, modules: &Instances, number: u32) -> Option<u32>
        ensures { result ≡ option_and_then (λ m. start_as self.now (shown_of_module m))
            (slice_get modules.now number) }
    {
        self.start_as(&modules.module(number)?)
    }

    fn start_as(&self, info: &ModuleInfo) -> Option<u32>
        ensures { result ≡ start_as self.now info.now }
    {
        if is_titled(&self.header, info) && info.len as usize == self.size {
            Some(info.image)
        } else {
            None
        }
    }

    /// The address before which so many bytes of the image stand now.
    pub(crate) fn place(&self, modules: &Instances, offset: u32) -> u32
        ensures { result ≡ place_now modules.now self.now offset }
    {
        self.start(modules).wrapping_add(offset)
    }
}

fn is_titled(header: &Option<Header>, info: &ModuleInfo) -> bool
    ensures { result ≡ is_titled header.now info.now }
{
    match header {
        None => false,
        Some(header) => info.title.as_slice() == header.title.as_slice(),
    }
}
