//! OS_Module, the reasons that add a module or an instance (RISC OS 3 Programmer's Reference
//! Manual, "OS_Module", reasons 0, 1, 10, 11 and 14).

ghost use Rattle.std.specs.Prelude.{◌≡◌, ◌≤◌, length, true, IfOk, Ok};
ghost use Rattle.profile.specs.Outcome.{bind};
ghost use Rattle.os_heap.specs.Bytes.{AreMapped};
ghost use Rattle.profile.specs.images.module_header.Header.{header_of};
ghost use Rattle.instances.specs.Copies.{may_be_copied};
ghost use Rattle.instances.specs.NewImages.{may_be_in_place};
ghost use Rattle.swi_dispatch_plans.specs.Beginning.{CanBegin, IsFree, SparesTitle};
ghost use Rattle.swi_dispatch_plans.specs.ImagePlans.{SparesRange, copy_asked, image_header_in, insertion_asked, instantiation_planned, load_asked, loading_of, may_add, range_asked, range_found, well_named};
ghost use Rattle.swi_dispatch_plans.specs.PlannerInput.{setting_in};

use crate::planner::Planner;
use instances::{Plan, Rma};
use profile::ErrorNumber;
use profile::images::Images;
use profile::images::module_header::Header;
use swi_dispatch_answers::words::{name_part, text_part};

/// What a load is given.
#[derive(Clone, Copy)]
pub struct Load<'a> {
    /// The bytes of the image.
    pub image: &'a [u8],
    /// The text for the new instance.
    pub text: &'a [u8],
}

/// Where an image stands in memory.
#[derive(Clone, Copy)]
pub struct ImageRange {
    pub at: u32,
    pub len: u32,
}

/// An image in memory that may be added: where it stands, and its header.
#[derive(Drop)]
pub struct ImageFound {
    pub range: ImageRange,
    pub header: Header,
}

impl<'a> Planner<'a> {
    /// OS_Module 0 and 1: the words are the name of an image and a text. A load that must be alone
    /// begins only while no module code is under way.
    ///
    /// # Errors
    ///
    /// The first of these: `ImageUnknown` where there is no image of the name; `ModuleBadHeader`
    /// where the image has no good header; `ModuleBusy` while module code is under way that the
    /// load may not meet; `FrameLimit` where no frame more can be opened.
    pub fn load<'b>(
        &self,
        images: &'b Images,
        words: &'b [u8],
        must_be_alone: bool,
    ) -> Result<Load<'b>, ErrorNumber>
        ensures value { loading_of result ≡ load_asked images.now
            (setting_in self.now) words.now must_be_alone }
        ensures free { IfOk result (λ _. IsFree (setting_in self.now)) }
        ensures spared { IfOk result (λ load. SparesTitle (setting_in self.now) (header_of load.image.now)) }
        ensures short { IfOk result (λ load. length load.text.now ≤ length words.now) }
    {
        let image = images
            .get(name_part(words))
            .ok_or(ErrorNumber::ImageUnknown)?;
        let Ok(header) = Header::read(image) else {
            return Err(ErrorNumber::ModuleBadHeader);
        };
        self.may_load(must_be_alone, header.title.as_slice())?;
        Ok(Load {
            image,
            text: text_part(words),
        })
    }

    /// OS_Module 10: R1 has the address of an image, R2 its length.
    ///
    /// # Errors
    ///
    /// The first of these: `BadPointer` where no image may be in place there; `ModuleBadHeader`
    /// where the image has no good header; `ModuleBusy` while an initialisation or a finalisation
    /// is under way, or a SWI of a module of the title; `FrameLimit` where no frame more can be
    /// opened.
    #[tactic(auto, unfolding(crate::specs::ImagePlans::insertion_asked))]
    pub fn insertion(&self) -> Result<ImageFound, ErrorNumber>
        ensures value { range_found result ≡ insertion_asked (setting_in self.now) }
        ensures place { IfOk result (λ found. may_be_in_place
            (setting_in self.now).module_state.area_store.store
            found.range.at found.range.len ≡ true) }
        ensures header { IfOk result (λ found. image_header_in (setting_in self.now)
            found.range.at found.range.len ≡ Ok found.header) }
        ensures free { IfOk result (λ _. IsFree (setting_in self.now)) }
        ensures spared { IfOk result (λ found. SparesRange (setting_in self.now)
            found.range.at found.range.len) }
    {
        let range = self.range_asked();
        if !Rma::new().may_be_in_place(self.memory, range.at, range.len) {
            return Err(ErrorNumber::BadPointer);
        }
        let header = self.header_to_add(range)?;
        Ok(ImageFound { range, header })
    }

    /// OS_Module 11: R1 has the address of the bytes of an image, R2 their number.
    ///
    /// # Errors
    ///
    /// The first of these: `BadPointer` where an image can't be a copy of these bytes; all others
    /// as in `insertion`.
    #[tactic(auto, unfolding(crate::specs::ImagePlans::copy_asked))]
    pub fn copy(&self) -> Result<ImageFound, ErrorNumber>
        ensures value { range_found result ≡ copy_asked (setting_in self.now) }
        ensures place { IfOk result (λ found. may_be_copied (setting_in self.now).module_state.area_store
            found.range.at found.range.len ≡ true) }
        ensures header { IfOk result (λ found. image_header_in (setting_in self.now)
            found.range.at found.range.len ≡ Ok found.header) }
        ensures free { IfOk result (λ _. IsFree (setting_in self.now)) }
        ensures spared { IfOk result (λ found. SparesRange (setting_in self.now)
            found.range.at found.range.len) }
    {
        let range = self.range_asked();
        if !Rma::new().may_be_copied(self.memory, self.areas, range.at, range.len) {
            return Err(ErrorNumber::BadPointer);
        }
        let header = self.header_to_add(range)?;
        Ok(ImageFound { range, header })
    }

    /// OS_Module 14: R1 points to the full name of the new instance and a text.
    ///
    /// # Errors
    ///
    /// The first of these: `BadString` where the string can't be read, or has no good full name;
    /// `ModuleNotFound` where there is no module of the title; `ModuleBusy` while an initialisation
    /// or a finalisation is under way; `FrameLimit` where no frame more can be opened;
    /// `InstanceExists` where the module has an instance of the name; `InstanceTableFull` where
    /// there are 64 instances.
    pub fn instantiation(&self) -> Result<Plan, ErrorNumber>
        ensures value { result ≡ instantiation_planned (setting_in self.now) }
        ensures begins { IfOk result (CanBegin (setting_in self.now)) }
    {
        let words = self.string(1)?;
        let planned = self
            .instances
            .instantiate(name_part(words.as_slice()), text_part(words.as_slice()));
        well_named(&planned)?;
        self.may_finalise(&[])?;
        planned
    }

    fn range_asked(&self) -> ImageRange
        ensures { result ≡ range_asked (setting_in self.now) }
    {
        ImageRange {
            at: self.cpu.register(1),
            len: self.cpu.register(2),
        }
    }

    // The header of the image that stands in a range, if it may be added.
    #[tactic(auto, unfolding(os_heap::specs::Store::store_of))]
    fn header_to_add(&self, range: ImageRange) -> Result<Header, ErrorNumber>
        requires { AreMapped (setting_in self.now).module_state.area_store.store.bytes.mapped range.at
            range.len }
        ensures value { bind result (λ _. Ok tt) ≡ may_add (setting_in self.now) range }
        ensures header { IfOk result (λ header. image_header_in (setting_in self.now) range.at range.len
            ≡ Ok header) }
        ensures free { IfOk result (λ _. IsFree (setting_in self.now)) }
        ensures spared { IfOk result (λ _. SparesRange (setting_in self.now) range.at range.len) }
    {
        let Ok(header) = Header::read_from(&self.memory.view(range.at, range.len)) else {
            return Err(ErrorNumber::ModuleBadHeader);
        };
        self.may_replace(header.title.as_slice())?;
        Ok(header)
    }
}

// A bad name and an unknown module refuse an instantiation before module code under way does.
fn well_named(planned: &Result<Plan, ErrorNumber>) -> Result<(), ErrorNumber>
    ensures { result ≡ well_named planned.now }
{
    match planned {
        Err(ErrorNumber::BadString) => Err(ErrorNumber::BadString),
        Err(ErrorNumber::ModuleNotFound) => Err(ErrorNumber::ModuleNotFound),
        _ => Ok(()),
    }
}
