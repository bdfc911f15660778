//! What is kept of a machine's store before a call that may change it.

ghost use Rattle.std.specs.Prelude.{◌≡◌, ◌≤◌, ℕ, true, IfOk};
ghost use Rattle.address_map.specs.Memory.{byte_at, class_of, layout, page_total};
ghost use Rattle.swi_dispatch_guest.specs.State.{IsFlex};
ghost use Rattle.swi_dispatch_guest.specs.Store.{IsSound, store_of};
ghost use Rattle.swi_dispatch_guest.specs.GuestState.{state_of};
ghost use Rattle.store_copies.specs.Copies.{IsLaidAlike, kept_in, kept_of};

use crate::pages::{PAGES, past_unmapped};
use address_map::{AddressMap, pages_are_counted};
use profile::memory_map::PAGE_SIZE;
use std::alloc::{AllocError, Global};
use std::marker::Model;
use swi_dispatch_guest::{Flex, Instances, Machine, areas_count_pages};

/// A copy of a machine's memory, with its heaps and what is recorded in it, of its modules, and of where
/// its flex store is.
pub struct StoreCopy {
    memory: AddressMap,
    // How many pages the memory has, mapped or not.
    pages: u32,
    instances: Instances,
    flex: Flex,
}

impl Drop for StoreCopy {
    fn drop(self) {
        let StoreCopy {
            memory: _memory,
            pages: _pages,
            instances: _instances,
            flex: _flex,
        } = self;
    }
}

impl Model for StoreCopy {
    ghost use Rattle.std.specs.Prelude.{◌≡◌};
    ghost use Rattle.address_map.specs.Memory.{page_total};
    ghost use Rattle.swi_dispatch_guest.specs.Store.{IsSound, store_of};
    ghost use Rattle.swi_dispatch_guest.specs.State.{IsFlex};
    ghost use Rattle.store_copies.specs.Copies.{CopiedParts};

    ghost Value = { CopiedParts };

    ghost view = { λ c. record { map = c.memory; modules = c.instances; flex = c.flex } };

    ghost invariant = { λ c. IsSound (store_of c.memory) × IsFlex c.memory c.flex
        × (page_total c.memory ≡ c.pages) };
}

impl StoreCopy {
    ghost use Rattle.address_map.specs.Memory.{bytes_of};
    ghost use Rattle.swi_dispatch_guest.specs.State.{IsFlex};

    /// A copy of a machine's store as it is.
    ///
    /// # Errors
    ///
    /// Where the host has no memory for it.
    pub fn of(alloc: Global, machine: &Machine) -> Result<StoreCopy, AllocError>
        ensures kept { IfOk result (λ copy. kept_in copy ≡ kept_of (state_of machine.now.guest)) }
    {
        machine.known();
        areas_count_pages();
        let pages = page_total(machine);
        let copy = copy_of(alloc, machine.memory(), pages)?;
        let mut instances = Instances::new();
        instances.copy_from(machine.instances());
        Ok(StoreCopy {
            memory: copy,
            pages,
            instances,
            flex: *machine.flex(),
        })
    }

    /// A copy of a machine's store as it is, in the host memory of another copy that is needed no more.
    ///
    /// # Errors
    ///
    /// Where the host has no memory for it; none is asked for where the other copy is of a memory of
    /// as many pages.
    pub fn over(
        scratch: Option<Box<StoreCopy>>,
        alloc: Global,
        machine: &Machine,
    ) -> Result<Box<StoreCopy>, AllocError>
        ensures kept { IfOk result
            (λ copy. kept_in copy.value ≡ kept_of (state_of machine.now.guest)) }
    {
        if let Some(mut copy) = scratch {
            if copy.renew(machine) {
                return Ok(copy);
            }
        }
        StoreCopy::boxed(alloc, machine)
    }

    // A copy in host memory of its own. Not a part of `over`, which then would pay for so large a local
    // at each call.
    #[inline(never)]
    fn boxed(alloc: Global, machine: &Machine) -> Result<Box<StoreCopy>, AllocError>
        ensures { IfOk result (λ copy. kept_in copy.value ≡ kept_of (state_of machine.now.guest)) }
    {
        let copy = StoreCopy::of(alloc, machine)?;
        Ok(Box::new(alloc, copy)?)
    }

    // Becomes a copy of the store of a machine, if the memory of that has as many pages.
    fn renew(&mut self, machine: &Machine) -> bool
        ensures { result ≡ true → kept_in self.new ≡ kept_of (state_of machine.now.guest) }
    {
        machine.known();
        areas_count_pages();
        if self.pages != page_total(machine) {
            return false;
        }
        let _memory = machine.memory();
        renew_memory(&mut self.memory, &self.flex, machine);
        self.flex = *machine.flex();
        if self.instances.module(0).is_some() || machine.instances().module(0).is_some() {
            self.instances.copy_from(machine.instances());
        }
        true
    }

    /// The memory as it was.
    pub fn memory(&self) -> &AddressMap
        ensures map { result.now ≡ self.now.map }
        ensures bytes { bytes_of result.now ≡ (kept_in self.now).store.bytes }
        ensures sound { IsSound (store_of result.now) }
        ensures flex { IsFlex result.now self.now.flex }
    {
        &self.memory
    }

    /// The modules and their instances as they were.
    pub fn instances(&self) -> &Instances
        ensures { result.now ≡ self.now.modules }
    {
        &self.instances
    }

    /// Where the flex store was, if there was one.
    pub fn flex(&self) -> &Flex
        ensures { result.now ≡ self.now.flex }
    {
        &self.flex
    }
}

// A copy of a memory that has so many pages.
fn copy_of(alloc: Global, memory: &AddressMap, pages: u32) -> Result<AddressMap, AllocError>
    requires pages { pages ≡ page_total memory.now }
    requires few { pages ≤ 1024 }
    ensures store { IfOk result (λ copy. store_of copy ≡ store_of memory.now) }
    ensures total { IfOk result (λ copy. page_total copy ≡ pages) }
{
    let mut copy = AddressMap::new(alloc, pages)?;
    copy_over(&mut copy, memory);
    Ok(copy)
}

fn copy_over(copy: &mut AddressMap, memory: &AddressMap)
    requires { page_total copy.old ≡ page_total memory.now }
    ensures store { store_of copy.new ≡ store_of memory.now }
    ensures total { page_total copy.new ≡ page_total copy.old }
{
    copy.copy_from(memory);
}

// A copy, of memory with this flex store, becomes one of a machine's memory that has as many pages.
fn renew_memory(copy: &mut AddressMap, flex: &Flex, machine: &Machine)
    requires flex { IsFlex copy.old flex.now }
    requires total { page_total copy.old ≡ page_total machine.now.guest.map }
    ensures store { store_of copy.new ≡ store_of machine.now.guest.map }
    ensures total { page_total copy.new ≡ page_total copy.old }
{
    pages_are_counted();
    if is_laid_alike(copy, flex, machine) {
        copy_pages(copy, machine);
    } else {
        copy_over(copy, machine.memory());
    }
}

// Whether only bytes of a copy can differ from a machine's memory, which has as many pages: the same pages
// are mapped, the same ranges are recorded, and neither has a flex store, whose words are marked.
fn is_laid_alike(copy: &AddressMap, flex: &Flex, machine: &Machine) -> bool
    requires flex { IsFlex copy.now flex.now }
    requires total { page_total copy.now ≡ page_total machine.now.guest.map }
    ensures { result ≡ true → IsLaidAlike copy.now machine.now.guest.map }
{
    pages_are_counted();
    let memory = machine.memory();
    let has_same_ranges = copy.regions() == memory.regions();
    if !has_same_ranges || copy.free_pages() != memory.free_pages() {
        return false;
    }
    if flex.range().is_some() || machine.flex().range().is_some() {
        return false;
    }
    let mut page = 0;
    while page < PAGES {
        let at = PAGE_SIZE * page;
        if memory.translate(at).is_some() && copy.translate(at).is_none() {
            return false;
        }
        page = past_unmapped(machine, page + 1);
    }
    true
}

// A copy gets the bytes of a machine's memory, of which the same pages are mapped.
fn copy_pages(copy: &mut AddressMap, machine: &Machine)
    requires { IsLaidAlike copy.old machine.now.guest.map }
    ensures bytes { (a : ℕ) → byte_at copy.new a ≡ byte_at machine.now.guest.map a }
    ensures layout { layout copy.new ≡ layout copy.old }
    ensures marks { class_of copy.new ≡ class_of copy.old }
{
    let mut page = 0;
    while page < PAGES {
        let at = PAGE_SIZE * page;
        if let Some(bytes) = machine.memory().lend(at, PAGE_SIZE) {
            copy.put_bytes(at, bytes);
        }
        page = past_unmapped(machine, page + 1);
    }
}

// How many pages a machine's memory has, mapped or not.
fn page_total(machine: &Machine) -> u32
    requires { page_total machine.now.guest.map ≤ 1024 }
    ensures { result ≡ page_total machine.now.guest.map }
{
    pages_are_counted();
    let memory = machine.memory();
    let mut total = memory.free_pages();
    let mut page = 0;
    while page < PAGES {
        if memory.translate(PAGE_SIZE * page).is_some() {
            total += 1;
        }
        page = past_unmapped(machine, page + 1);
    }
    total
}
