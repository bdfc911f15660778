//! The memory of a machine at its start.

ghost use Rattle.std.specs.Prelude.{ℕ, [], ◌≡◌, ◌+◌, IfOk};
ghost use Rattle.profile.specs.Sizes.{AreGood};
ghost use Rattle.os_heap.specs.Memory.{byte_at, class_of, free_pages, is_mapped, regions};
ghost use Rattle.os_heap.specs.Class.TheVariants.{Plain};
ghost use Rattle.os_heap.specs.Store.{store_of};
ghost use Rattle.dynamic_areas.specs.Areas.{start_area_table};
ghost use Rattle.dynamic_areas.specs.Ground.{is_area_table};
ghost use Rattle.dynamic_areas.specs.Kept.{IsAreaMap};
ghost use Rattle.dynamic_areas.specs.Start.{start_store};

use os_heap::{AddressMap, Heaps, Kind};
use profile::Config;
use profile::memory_map::{APPLICATION_START, PAGE_SIZE, RMA_START, SYSTEM_PAGES, SYSTEM_START};
use std::alloc::{AllocError, Global};

/// The memory of a machine of these sizes at its start: the fixed ranges, the module area a heap
/// without items, and the record of the system pages.
pub fn start_memory(alloc: Global, config: Config) -> Result<AddressMap, AllocError>
    ensures store { IfOk result (λ m. store_of m ≡ start_store config) }
    ensures state { IfOk result (λ m. IsAreaMap m (start_area_table config)) }
{
    let mut memory = bare_memory(alloc, config)?;
    Heaps::new().init_module_area(&mut memory, RMA_START, PAGE_SIZE * config.rma());
    memory.own(Kind::SystemPage, SYSTEM_START, PAGE_SIZE * SYSTEM_PAGES);
    Ok(memory)
}

/// The fixed ranges, without any record.
fn bare_memory(alloc: Global, config: Config) -> Result<AddressMap, AllocError>
    ensures mapping { IfOk result (λ m. (a : ℕ) → is_mapped m a ≡ is_area_table (start_area_table config) a) }
    ensures bytes { IfOk result (λ m. (a : ℕ) → byte_at m a ≡ 0) }
    ensures regions { IfOk result (λ m. regions m ≡ []) }
    ensures marks { IfOk result (λ m. (a : ℕ) → class_of m a ≡ Plain) }
    ensures pool { IfOk result (λ m. free_pages m + (config.app + config.rma + 3) ≡ config.pages) }
    ensures sizes { AreGood config }
{
    let mut memory = AddressMap::new(alloc, config.pages())?;
    memory.map_pages(APPLICATION_START, config.app());
    memory.map_pages(RMA_START, config.rma());
    memory.map_pages(SYSTEM_START, SYSTEM_PAGES);
    Ok(memory)
}
