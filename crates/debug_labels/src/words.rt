//! Words that name places.

ghost use Rattle.std.specs.Prelude.{◌≡◌, ◌==◌, ◌≤◌, ◌∷◌, None, option_map};
ghost use Rattle.std.specs.List.{slice_split};
ghost use Rattle.assembler_text.specs.naming.Labels.{address_of};
ghost use Rattle.debug_labels.specs.Words.{further, label_if_meant, last_with, register_value};

use crate::labels::{Label, LabelTable, LabelledImage};
use assembler_text::naming::names::register_named;
use assembler_text::naming::words::{after_word, word};
use command_shell_lines::number_of;
use debugger::{Cpu, Instances};
use profile::text_lines::cut;
use std::marker::Model;

/// What words are read by.
#[derive(Drop)]
pub struct PlaceNames<'a> {
    pub(crate) labels: &'a LabelTable,
    pub(crate) modules: &'a Instances,
    cpu: &'a Cpu,
}

impl<'a> Model for PlaceNames<'a> {
    ghost use Rattle.debug_labels.specs.Words.{Naming};

    ghost Value = { Naming };

    ghost view = { λ n. record { labels = n.labels.now; modules = n.modules.now; cpu = n.cpu.now } };
}

impl LabelledImage {
    ghost use Rattle.debug_labels.specs.Words.{is_image_meant, label_if_meant};

    // Where a label stands now, where the image is one of those that are meant.
    fn label_if_meant(&self, modules: &Instances, image: Option<&[u8]>, name: &[u8]) -> Option<u32>
        ensures { result
            ≡ label_if_meant modules.now (option_map (λ i. i.now) image.entry) name.now self.now }
    {
        if self.is_image_meant(image) {
            let offset = offset_of(self.labels.as_slice(), name)?;
            Some(self.place(modules, offset))
        } else {
            None
        }
    }

    fn is_image_meant(&self, image: Option<&[u8]>) -> bool
        ensures { result ≡ is_image_meant (option_map (λ i. i.now) image.entry) self.now }
    {
        match image {
            None => true,
            Some(image) => self.image.as_slice() == image,
        }
    }
}

impl<'a> PlaceNames<'a> {
    ghost use Rattle.debug_labels.specs.Words.{named_value, place_of_word, value_behind, value_of_parts};

    /// Words are read by these labels, by the modules of a machine, from which images stand loaded,
    /// and by its core.
    pub fn new(labels: &'a LabelTable, modules: &'a Instances, cpu: &'a Cpu) -> PlaceNames<'a>
        ensures { result ≡ record { labels = labels.now; modules = modules.now; cpu = cpu.now } }
    {
        PlaceNames {
            labels,
            modules,
            cpu,
        }
    }

    /// The number that a word means, if it names a place: `image:label`, `label` (of the image that
    /// was assembled last of those that have it), `R0` to `R15`, `SP`, `LR` or `PC` (in either
    /// case, of the present mode, the program counter without the status); each with `+n` or `-n`
    /// behind it or nothing.
    pub fn place(&self, text: &[u8]) -> Option<u32>
        ensures { result ≡ place_of_word self.now text.now }
    {
        let (first, rest) = cut(text, b':');
        match rest {
            Some(rest) => self.value_in_image(first, rest),
            None => self.value_behind(None, first),
        }
    }

    // What a word means that has an image's name and this behind it.
    fn value_in_image(&self, image: &[u8], text: &[u8]) -> Option<u32>
        ensures { result ≡ value_of_parts self.now (image.now ∷ slice_split (λ b. b == 58) text.now) }
    {
        let (label, more) = cut(text, b':');
        match more {
            Some(_) => None,
            None => self.value_behind(Some(image), label),
        }
    }

    fn value_behind(&self, image: Option<&[u8]>, text: &[u8]) -> Option<u32>
        ensures { result ≡ value_behind self.now (option_map (λ i. i.now) image.entry) text.now }
    {
        let value = self.named_value(image, word(text))?;
        further(after_word(text), value)
    }

    fn named_value(&self, image: Option<&[u8]>, name: &[u8]) -> Option<u32>
        ensures { result ≡ named_value self.now (option_map (λ i. i.now) image.entry) name.now }
    {
        match (image, register_named(name)) {
            (None, Some(register)) => Some(register_value(self.cpu, register.number())),
            _ => labelled_place(self.labels.images(), self.modules, image, name),
        }
    }
}

// Where a label stands now, of the image that was assembled last of those that are meant and have
// it.
#[tactic(auto, using(crate::proofs::WalkLemmas::last_steps))]
fn labelled_place(
    images: &[LabelledImage],
    modules: &Instances,
    image: Option<&[u8]>,
    name: &[u8],
) -> Option<u32>
    ensures { result ≡ last_with
        (label_if_meant modules.now (option_map (λ i. i.now) image.entry) name.now) images.now }
{
    let mut place = None;
    for labels in images {
        place = labels.label_if_meant(modules, image, name).or(place);
    }
    place
}

// How many bytes of an image stand before a label of it.
#[tactic(auto, unfolding(assembler_text::specs::naming::Labels::address_of))]
fn offset_of(labels: &[Label], name: &[u8]) -> Option<u32>
    ensures { result ≡ address_of labels.now name.now }
{
    for label in labels {
        if label.is_named(name) {
            return Some(label.offset);
        }
    }
    None
}

fn register_value(cpu: &Cpu, number: u32) -> u32
    requires { number ≤ 15 }
    ensures { result ≡ register_value cpu.now number }
{
    if number == 15 {
        cpu.pc()
    } else {
        cpu.register(number)
    }
}

// A value with what stands behind its name.
fn further(text: &[u8], value: u32) -> Option<u32>
    ensures { result ≡ further text.now value }
{
    let [sign, digits @ ..] = text else {
        return Some(value);
    };
    let number = number_of(digits)?;
    match sign {
        b'+' => Some(value.wrapping_add(number)),
        b'-' => Some(value.wrapping_sub(number)),
        _ => None,
    }
}
