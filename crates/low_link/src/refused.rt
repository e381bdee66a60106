//! Why a text has no program.

use c_check::CheckFault;
use c_expr::ParseFault;
use c_layout::LayoutFault;
use c_token::TokenFault;
use low_labels::AsmFault;
use std::alloc::{AllocError, AllocFailed};

/// Why a text has no program.
#[derive(Clone, Copy, Debug, PartialEq, Eq)]
pub enum Refused {
    /// The text has no tokens.
    Token(TokenFault),
    /// Its tokens have no tree.
    Parse(ParseFault),
    /// Its tree breaks a rule.
    Check(CheckFault),
    /// Its objects don't fit into the memory.
    Layout(LayoutFault),
    /// It has more parts than one whose code fits.
    CodeTooLong,
    /// There was no memory.
    OutOfMemory,
}

impl From<AllocError> for Refused {
    ghost use Rattle.std.specs.Prelude.{◌≡◌};
    ghost use Rattle.low_link.specs.declared.refused.Refused.TheVariants.{OutOfMemory};

    ghost from_gives = { λ _ refused. refused ≡ OutOfMemory };

    fn from(_: AllocError) -> Self {
        Refused::OutOfMemory
    }
}

impl<T: Drop> From<AllocFailed<T>> for Refused {
    ghost use Rattle.std.specs.Prelude.{◌≡◌};
    ghost use Rattle.low_link.specs.declared.refused.Refused.TheVariants.{OutOfMemory};

    ghost from_gives = { λ _ refused. refused ≡ OutOfMemory };

    fn from(_: AllocFailed<T>) -> Self {
        Refused::OutOfMemory
    }
}

impl From<TokenFault> for Refused {
    ghost use Rattle.std.specs.Prelude.{◌≡◌};
    ghost use Rattle.low_link.specs.Refused.{of_token};

    ghost from_gives = { λ fault refused. refused ≡ of_token fault };

    fn from(fault: TokenFault) -> Self {
        match fault {
            TokenFault::OutOfMemory => Refused::OutOfMemory,
            fault => Refused::Token(fault),
        }
    }
}

impl From<ParseFault> for Refused {
    ghost use Rattle.std.specs.Prelude.{◌≡◌};
    ghost use Rattle.low_link.specs.Refused.{of_parse};

    ghost from_gives = { λ fault refused. refused ≡ of_parse fault };

    fn from(fault: ParseFault) -> Self {
        match fault {
            ParseFault::OutOfMemory => Refused::OutOfMemory,
            fault => Refused::Parse(fault),
        }
    }
}

impl From<CheckFault> for Refused {
    ghost use Rattle.std.specs.Prelude.{◌≡◌};
    ghost use Rattle.low_link.specs.Refused.{of_check};

    ghost from_gives = { λ fault refused. refused ≡ of_check fault };

    fn from(fault: CheckFault) -> Self {
        match fault {
            CheckFault::OutOfMemory => Refused::OutOfMemory,
            fault => Refused::Check(fault),
        }
    }
}

impl From<LayoutFault> for Refused {
    ghost use Rattle.std.specs.Prelude.{◌≡◌};
    ghost use Rattle.low_link.specs.Refused.{of_layout};

    ghost from_gives = { λ fault refused. refused ≡ of_layout fault };

    fn from(fault: LayoutFault) -> Self {
        match fault {
            LayoutFault::OutOfMemory => Refused::OutOfMemory,
            fault => Refused::Layout(fault),
        }
    }
}

impl From<AsmFault> for Refused {
    ghost use Rattle.std.specs.Prelude.{◌≡◌};
    ghost use Rattle.low_link.specs.Refused.{of_code};

    ghost from_gives = { λ fault refused. refused ≡ of_code fault };

    fn from(fault: AsmFault) -> Self {
        match fault {
            AsmFault::CodeTooLong => Refused::CodeTooLong,
            AsmFault::OutOfMemory => Refused::OutOfMemory,
        }
    }
}
