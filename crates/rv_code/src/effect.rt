//! What an instruction asks of the machine.

/// A call of the machine, by its number.
#[derive(Clone, Copy, Debug, PartialEq, Eq)]
pub enum Call {
    Exit,
    Get,
    Put,
    Begin,
    End,
    Post,
    Wait,
    StackFull,
    Unknown,
}

/// What an instruction asks for.
#[derive(Clone, Copy, Debug, PartialEq, Eq)]
pub enum Effect {
    /// A register gets a value.
    Sets {
        rd: u8,
        value: u32,
    },
    /// A register gets the number of `size` bytes at an address, with its sign or without.
    Loads {
        rd: u8,
        at: u32,
        size: u32,
        signed: bool,
    },
    /// The lowest `size` bytes of a value go to an address.
    Stores {
        at: u32,
        size: u32,
        value: u32,
    },
    /// The pc becomes an address.
    Jumps {
        to: u32,
    },
    /// The pc becomes an address, and a register gets the address of the next instruction.
    Links {
        rd: u8,
        to: u32,
    },
    /// Nothing.
    Proceeds,
    /// EBREAK traps.
    Breaks,
    /// A call of the machine.
    Calls {
        which: Call,
    },
}
