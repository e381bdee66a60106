//! Laws of the memory map.

ghost use Rattle.std.specs.Prelude.{◌≡◌};
ghost use Rattle.bop_bits.specs.declared.map.TheConstants.{CODE_FROM, CODE_WORDS, DATA_FROM, MEMORY_BYTES, PAGE_BYTES, PAGES, STACK_FROM, STACK_PAGE, STACK_TO};

/// The memory map in numbers.
pub fn map_in_numbers()
    ensures code_from { CODE_FROM ≡ 65536 }
    ensures code_words { CODE_WORDS ≡ 245760 }
    ensures data_from { DATA_FROM ≡ 1048576 }
    ensures memory_bytes { MEMORY_BYTES ≡ 3145728 }
    ensures page_bytes { PAGE_BYTES ≡ 4096 }
    ensures pages { PAGES ≡ 768 }
    ensures stack_from { STACK_FROM ≡ 3932160 }
    ensures stack_page { STACK_PAGE ≡ 704 }
    ensures stack_to { STACK_TO ≡ 4194304 }
{}
