//! OS_Module, the reasons that add a module: its image is recorded at once, and the call begins
//! (RISC OS 3 Programmer's Reference Manual, "OS_Module", reasons 0, 1, 10 and 11).

ghost use Rattle.std.specs.Prelude.{◌≡◌, ◌<◌, ◌^◌, false, true, Ok, OnErr, ok_or};
ghost use Rattle.profile.specs.Outcome.{bind};
ghost use Rattle.profile.specs.ErrorNumber.TheVariants.{BadString};
ghost use Rattle.swi_dispatch_plans.specs.Words.{host_string};
ghost use Rattle.profile.specs.images.module_header.Header.{header_of};
ghost use Rattle.swi_dispatch_plans.specs.Copies.{may_be_copied};
ghost use Rattle.swi_dispatch_plans.specs.NewImages.{may_be_in_place};

use crate::guest::Guest;
use profile::ErrorNumber;
use swi_dispatch_plans::module_code::open_code;
use swi_dispatch_plans::{Call, ImageFound, ImageRange, Images, Outcome, Plan, host_string};

/// What a call that adds a module has come to, if it isn't refused: its plan if that has ended;
/// else its code runs.
type Started = Result<Option<Plan>, ErrorNumber>;

impl Guest {
    ghost use Rattle.swi_dispatch_guest.specs.GuestState.{state_of};
    ghost use Rattle.swi_dispatch_guest.specs.Additions.{Starts, copied_range_planned, copy_planned, image_planned};
    ghost use Rattle.swi_dispatch_guest.specs.Additions.{insertion_planned, load_planned, named_load_planned, range_planned};
    ghost use Rattle.swi_dispatch_guest.specs.MachineState.{machine_module_state, silent, setting_of};
    ghost use Rattle.swi_dispatch_guest.specs.Step.{call_of, outcome_of_plan, outcome_of_planned};
    ghost use Rattle.swi_dispatch_plans.specs.Beginning.{IsFree, SparesTitle};
    ghost use Rattle.swi_dispatch_plans.specs.ImagePlans.{SparesRange, image_header_in};

    /// OS_Module 0 and 1: R1 points to the name of an image and a text. The call says whether the
    /// module is entered at the end.
    #[tactic(auto, unfolding(crate::specs::Step::outcome_of_planned))]
    pub(crate) fn load_named(&mut self, images: &Images, call: Call)
        requires made { call ≡ call_of (state_of self.old) call.is_x call.next call.enters }
        requires next { call.next < 2 ^ 26 }
        ensures { silent (state_of self.new)
            ≡ outcome_of_planned (state_of self.old) call.is_x call.next call.enters
            (named_load_planned images.now (state_of self.old) call.enters) }
    {
        let words = self.planner().string(1);
        match words {
            Ok(words) => self.load_words(images, call, words.as_slice()),
            Err(error) => self.refuse_call(call, error),
        }
    }

    /// The same with the words of the string.
    pub(crate) fn load_words(&mut self, images: &Images, call: Call, words: &[u8])
        requires made { call ≡ call_of (state_of self.old) call.is_x call.next call.enters }
        ensures { silent (state_of self.new)
            ≡ outcome_of_planned (state_of self.old) call.is_x call.next call.enters
            (load_planned images.now (state_of self.old) words.now call.enters) }
    {
        let started = self.start_load(images, call, words);
        self.go_on(call, started);
    }

    /// Loads a module as OS_Module 1 does with the X bit, with these words in place of the string
    /// that R1 points to. The guest goes on at the present program counter.
    #[tactic(auto, unfolding(crate::specs::Step::outcome_of_planned))]
    pub(crate) fn load_here(&mut self, images: &Images, text: &[u8])
        ensures { silent (state_of self.new)
            ≡ outcome_of_planned (state_of self.old) true (state_of self.old).cpu.pc false
            (bind (ok_or (host_string text.now) BadString)
            (λ words. load_planned images.now (state_of self.old) words false)) }
    {
        let call = self.call_of(true, self.cpu.pc());
        match host_string(text) {
            Some(words) => self.load_words(images, call, words),
            None => self.refuse_call(call, ErrorNumber::BadString),
        }
    }

    /// OS_Module 10: R1 has the address of an image, R2 its length.
    pub(crate) fn insert_range(&mut self, call: Call)
        requires made { call ≡ call_of (state_of self.old) call.is_x call.next call.enters }
        ensures { silent (state_of self.new)
            ≡ outcome_of_planned (state_of self.old) call.is_x call.next call.enters
            (insertion_planned (state_of self.old)) }
    {
        let started = self.start_insertion(call);
        self.go_on(call, started);
    }

    /// OS_Module 11: R1 has the address of an image, R2 its length.
    pub(crate) fn insert_copy(&mut self, call: Call)
        requires made { call ≡ call_of (state_of self.old) call.is_x call.next call.enters }
        ensures { silent (state_of self.new)
            ≡ outcome_of_planned (state_of self.old) call.is_x call.next call.enters
            (copy_planned (state_of self.old)) }
    {
        let started = self.start_copy(call);
        self.go_on(call, started);
    }

    // A call goes on that has begun, or is refused.
    fn go_on(&mut self, call: Call, started: Started)
        requires made { OnErr started (call ≡ call_of (state_of self.old) call.is_x call.next call.enters) }
        ensures { silent (state_of self.new) ≡ outcome_of_plan (state_of self.old) call started }
    {
        match started {
            Ok(ended) => self.finish(call, ended),
            Err(error) => self.refuse_call(call, error),
        }
    }

    #[tactic(auto, unfolding(crate::specs::Additions::load_planned))]
    fn start_load(&mut self, images: &Images, call: Call, words: &[u8]) -> Started
        ensures { Starts (state_of self.old) call
            (load_planned images.now (state_of self.old) words.now call.enters) result (state_of self.new) }
    {
        let load = self.planner().load(images, words, call.enters)?;
        self.place_image(call, load.image, load.text)
    }

    #[tactic(auto, unfolding(crate::specs::Additions::insertion_planned))]
    fn start_insertion(&mut self, call: Call) -> Started
        ensures { Starts (state_of self.old) call (insertion_planned (state_of self.old)) result
            (state_of self.new) }
    {
        let found = self.planner().insertion()?;
        self.record_image(call, found)
    }

    #[tactic(auto, unfolding(crate::specs::Additions::copy_planned))]
    fn start_copy(&mut self, call: Call) -> Started
        ensures { Starts (state_of self.old) call (copy_planned (state_of self.old)) result
            (state_of self.new) }
    {
        let found = self.planner().copy()?;
        self.place_copy(call, found)
    }

    // An image gets a block of the module area, and the plan of its call is begun.
    fn place_image(&mut self, call: Call, image: &[u8], text: &[u8]) -> Started
        requires free { IsFree (setting_of (state_of self.old)) }
        requires spared { SparesTitle (setting_of (state_of self.old)) (header_of image.now) }
        ensures { Starts (state_of self.old) call
            (image_planned (state_of self.old) image.now text.now) result (state_of self.new) }
    {
        let mut plan = self
            .instances
            .load(&mut self.memory, &mut self.areas, image, text)?;
        let code = self
            .instances
            .carry(&mut self.memory, &self.areas, &mut plan, Outcome::Well);
        let (kept, ended) = open_code(&mut self.cpu, &mut self.frames, call, plan, code);
        self.plan = kept;
        Ok(ended)
    }

    // An image is recorded where it stands, and the plan of its call is begun.
    fn record_image(&mut self, call: Call, found: ImageFound) -> Started
        requires place { may_be_in_place (machine_module_state (state_of self.old)).area_store.store
            found.range.at found.range.len ≡ true }
        requires header { image_header_in (setting_of (state_of self.old)) found.range.at found.range.len
            ≡ Ok found.header }
        requires free { IsFree (setting_of (state_of self.old)) }
        requires spared { SparesRange (setting_of (state_of self.old)) found.range.at found.range.len }
        ensures { Starts (state_of self.old) call
            (range_planned (state_of self.old) found.range.at found.range.len) result (state_of self.new) }
    {
        let ImageRange { at, len } = found.range;
        let mut plan = self
            .instances
            .insert_found(&mut self.memory, &self.areas, at, len, found.header)?;
        let code = self
            .instances
            .carry(&mut self.memory, &self.areas, &mut plan, Outcome::Well);
        let (kept, ended) = open_code(&mut self.cpu, &mut self.frames, call, plan, code);
        self.plan = kept;
        Ok(ended)
    }

    // A copy of an image that stands in memory gets a block of the module area, and the plan of its
    // call is begun.
    fn place_copy(&mut self, call: Call, found: ImageFound) -> Started
        requires place { may_be_copied (machine_module_state (state_of self.old)).area_store
            found.range.at found.range.len ≡ true }
        requires header { image_header_in (setting_of (state_of self.old)) found.range.at found.range.len
            ≡ Ok found.header }
        requires free { IsFree (setting_of (state_of self.old)) }
        requires spared { SparesRange (setting_of (state_of self.old)) found.range.at found.range.len }
        ensures { Starts (state_of self.old) call
            (copied_range_planned (state_of self.old) found.range.at found.range.len) result
            (state_of self.new) }
    {
        let ImageRange { at, len } = found.range;
        let mut plan = self
            .instances
            .insert_copy_found(&mut self.memory, &mut self.areas, at, len, found.header)?;
        let code = self
            .instances
            .carry(&mut self.memory, &self.areas, &mut plan, Outcome::Well);
        let (kept, ended) = open_code(&mut self.cpu, &mut self.frames, call, plan, code);
        self.plan = kept;
        Ok(ended)
    }
}
